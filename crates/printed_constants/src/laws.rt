//! Laws of constants and of functions that print them.

ghost use Rattle.printed_constants.specs.Laws.{AddedStayPrinted, PrintedPackagesArePlain, PrintedPackagesAreUnspread};
ghost use Rattle.printed_constants.specs.Laws.{PrintedPartsAreKeyed};
ghost use Rattle.printed_constants.specs.Laws.{PrintedPartsAreScoped, PrintedPartsAreSimple, ReadModulesArePrinted};
ghost use Rattle.printed_constants.specs.Laws.{StepsStayPrinted};

/// The parts of a constant, or of a function that prints constants, hold no literals of composite types or functions,
/// no header of a `for` and no group of constants (Go specification, Composite literals; Function literals; For
/// statements).
pub fn printed_parts_are_simple()
    ensures scoped { PrintedPartsAreScoped }
    ensures keyed { PrintedPartsAreKeyed }
    ensures simple { PrintedPartsAreSimple }
{}

/// Packages of such declarations have each constant alone in its spec, and no call in them hands on a slice for its
/// last arguments (Go specification, Constant declarations; Passing arguments to ... parameters).
pub fn printed_packages_are_plain()
    ensures plain { PrintedPackagesArePlain }
    ensures unspread { PrintedPackagesAreUnspread }
{}

/// A module that reads has such declarations alone where its trees do, and a step that puts a name leaves such
/// packages, also as its imports are added (Go specification, Operands; Selectors).
pub fn steps_stay_printed()
    ensures read { ReadModulesArePrinted }
    ensures stay { StepsStayPrinted }
    ensures added { AddedStayPrinted }
{}
