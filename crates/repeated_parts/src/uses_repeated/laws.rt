//! The law of uses of marked constants with their flags.

ghost use Rattle.go_tree.specs.declared.spans.Span.{Span};
ghost use Rattle.run_rules.specs.Respanned.{file_with};
ghost use Rattle.run_rules.specs.Run.{here_of};
ghost use Rattle.run_rules.specs.Steps.{At};
ghost use Rattle.repeated_parts.specs.UsesRepeated.Laws.{RepeatedUsesAreSites};

/// In a program whose marks are all of constants, the uses of marked members among the parts of a declaration, each
/// with its flag, are its sites, each with whether a later member of a group of constants in a function repeats the
/// expression in which it stands (Go specification, Constant declarations), in the same order, where the table of
/// declared types tells which keys of composite literals name fields.
/// So it is in a file as read (`read`), and in one as a run leaves it (`standing`).
pub fn repeated_uses_are_sites()
    ensures read { RepeatedUsesAreSites Span (λ s. s) (λ f. f) }
    ensures standing { RepeatedUsesAreSites At here_of (file_with here_of) }
{}
