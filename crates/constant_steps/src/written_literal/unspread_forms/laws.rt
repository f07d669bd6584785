//! Laws of forms in programs without calls that hand on a slice.

ghost use Rattle.constant_steps.specs.WrittenLiteral.UnspreadForms.Laws.{ExpressionsAreUnspread, StatementsAreUnspread};
ghost use Rattle.constant_steps.specs.WrittenLiteral.UnspreadForms.Laws.{FormsAreUnspread, RunsStayUnspread};
ghost use Rattle.constant_steps.specs.WrittenLiteral.UnspreadForms.Laws.{StepsStayUnspread};

/// In a program in which no call hands on a slice for its last arguments, no form has such a call. So each step, and
/// each run, leaves such a program; and what it puts in is such a node for the laws of splices.
pub fn forms_hand_on_no_slice()
    ensures forms { FormsAreUnspread }
    ensures steps { StepsStayUnspread }
    ensures runs { RunsStayUnspread }
    ensures expressions { ExpressionsAreUnspread }
    ensures statements { StatementsAreUnspread }
{}
