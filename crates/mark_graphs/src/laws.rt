//! The law of cycles of marked functions.

ghost use Rattle.go_tree.specs.declared.spans.Span.{Span};
ghost use Rattle.run_rules.specs.Steps.{At};
ghost use Rattle.mark_graphs.specs.Laws.{RecursiveReachThemselves};

/// Where marked functions have numbers, and links say by these to which of them each leads, a function is recursive, as
/// it lies on a cycle of marked functions, exactly where links lead from its number back to it. So it is in a program as
/// read (`read`), and in one as a run leaves it (`standing`).
pub fn recursive_functions_reach_themselves()
    ensures read { RecursiveReachThemselves Span }
    ensures standing { RecursiveReachThemselves At }
{}
