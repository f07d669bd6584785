//! Laws of what forms take.

ghost use Rattle.go_tree.specs.declared.spans.Span.{Span};
ghost use Rattle.run_rules.specs.Steps.{At};
ghost use Rattle.call_texts.specs.Laws.{LiteralsTakeAll};

/// The literal of a function, in whose call all parameters stay bound, takes all of the function's declaration: the
/// types of its parameters, those of its results and its body (Go specification, Function literals). So what is looked
/// for in what a form takes may be looked for in the declaration. So it is in a file as read (`read`), and in one as a
/// run leaves it (`standing`).
pub fn literals_take_all()
    ensures read { LiteralsTakeAll Span }
    ensures standing { LiteralsTakeAll At }
{}
