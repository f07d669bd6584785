//! The law of calls of marked functions.

ghost use Rattle.go_tree.specs.declared.spans.Span.{Span};
ghost use Rattle.run_rules.specs.Respanned.{file_with};
ghost use Rattle.run_rules.specs.Run.{here_of};
ghost use Rattle.run_rules.specs.Steps.{At};
ghost use Rattle.call_uses.specs.Laws.{CallsLeadToFunctions};

/// In a program none of whose marks is that of a method, a marked declaration leads to the marked functions that its
/// calls name, in the order of the calls' ends (Go specification, Calls).
/// So it is in a file as read (`read`), and in one as a run leaves it (`standing`). Asked of the declaration: what typing
/// asks of literals of functions, of `for` statements and of keys.
pub fn calls_lead_to_functions()
    ensures read { CallsLeadToFunctions Span (λ s. s) (λ f. f) }
    ensures standing { CallsLeadToFunctions At here_of (file_with here_of) }
{}
