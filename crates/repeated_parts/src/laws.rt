//! The law of parts in members of groups that are repeated.

ghost use Rattle.go_tree.specs.declared.spans.Span.{Span};
ghost use Rattle.run_rules.specs.Steps.{At};
ghost use Rattle.repeated_parts.specs.Laws.{FlagsAreThoseOfPlaces};

/// The flags that `repeated_parts` gives are those of the parts that `decl_parts` gives, in the same order: each says
/// whether a later member of a group repeats the expression in which the part stands (Go specification, Constant
/// declarations), as the place of the part says it; a key that names a field has none (Composite literals).
/// So it is in a file as read (`read`), and in one as a run leaves it (`standing`).
pub fn flags_are_those_of_places()
    ensures read { FlagsAreThoseOfPlaces Span }
    ensures standing { FlagsAreThoseOfPlaces At }
{}
