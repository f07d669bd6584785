//! The law of the parts that may be uses.

ghost use Rattle.go_tree.specs.declared.spans.Span.{Span};
ghost use Rattle.run_rules.specs.Steps.{At};
ghost use Rattle.member_uses.specs.PossibleUses.Laws.{PartsAreAmongAll};

/// The parts that `decl_parts` gives are those among all parts of the declaration that may be uses of a marked
/// declaration, in the same order: no other part of it is one.
/// So it is in a file as read (`read`), and in one as a run leaves it (`standing`).
pub fn parts_are_among_all()
    ensures read { PartsAreAmongAll Span }
    ensures standing { PartsAreAmongAll At }
{}
