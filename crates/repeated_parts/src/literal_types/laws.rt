//! The law of keys that name fields.

ghost use Rattle.go_tree.specs.declared.spans.Span.{Span};
ghost use Rattle.run_rules.specs.Steps.{At};
ghost use Rattle.repeated_parts.specs.LiteralTypes.Laws.{TablesTellFields};

/// A table whose numbers stand for types tells of the keys of typed composite literals whether they name fields, where the
/// numbers of the names in the literal's type stand for what these mean (Go specification, Composite literals).
/// So it is in a file as read (`read`), and in one as a run leaves it (`standing`).
pub fn tables_tell_fields()
    ensures read { TablesTellFields Span }
    ensures standing { TablesTellFields At }
{}
