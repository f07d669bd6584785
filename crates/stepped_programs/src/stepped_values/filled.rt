//! Laws of tables of which the part of the file of a step is found anew.

ghost use Rattle.stepped_programs.specs.SteppedValues.Filled.{ConstantsStayMarked, FilledValuesStayElsewhere};
ghost use Rattle.stepped_programs.specs.SteppedValues.Filled.{ValuesAreToldAfterSteps};

/// What a mark holds for stays a constant, whatever a step puts (Go specification, Constant declarations).
pub fn constants_stay_marked()
    ensures { ConstantsStayMarked }
{}

/// A table that tells what marked constants are declared as tells it after a step too, once what it has of the file of
/// the step is found anew, as by programs' `fill_source`, while it keeps what it has of other files (`told`). So of the
/// constants of all other files it tells the same, as settled_files asks (`elsewhere`).
///
/// The step leaves the blocks of packages, and what names mean in all other files (Go specification, Constant
/// declarations; Declarations and scope).
pub fn values_are_told_after_steps()
    ensures told { ValuesAreToldAfterSteps }
    ensures elsewhere { FilledValuesStayElsewhere }
{}
