//! Laws of the texts of forms.

ghost use Rattle.splice_laws.specs.ImportSplices.FormSplices.Laws.{OperandsAreSpliced, CalleesAreSpliced};
ghost use Rattle.splice_laws.specs.ImportSplices.FormSplices.Laws.{DeferredCallsAreSpliced};
ghost use Rattle.splice_laws.specs.ImportSplices.FormSplices.Laws.{TypesAreSpliced, StatementsAreSpliced};
ghost use Rattle.splice_laws.specs.ImportSplices.FormSplices.Laws.{BlocksAreSpliced, StepsMakeForms};

/// The edit that writes a form is that of the laws of splices: the new node's layout in the place of an operand, of
/// what is called or deferred, of a type or of a statement, with one blank before it or none.
pub fn forms_are_spliced()
    ensures operands { OperandsAreSpliced }
    ensures callees { CalleesAreSpliced }
    ensures deferred { DeferredCallsAreSpliced }
    ensures types { TypesAreSpliced }
    ensures statements { StatementsAreSpliced }
    ensures blocks { BlocksAreSpliced }
{}

/// What a step puts in a use's place is the form of that use.
pub fn steps_make_forms()
    ensures { StepsMakeForms }
{}
