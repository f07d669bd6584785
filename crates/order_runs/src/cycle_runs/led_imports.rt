//! Laws of what the imports are of that a step adds.

ghost use Rattle.order_runs.specs.CycleRuns.LedImports.Laws.{AddedImportsAreLed, NamedHomesAreLed};

/// The package of what is used by its name, a constant, an alias or a function without a receiver, is
/// the package of the use, or one that its file imports.
pub fn homes_are_led()
    ensures { NamedHomesAreLed }
{}

/// Where the package of what is used is led to, the packages whose imports the form adds are: the form
/// names that package and what its file imports, and nothing else that the file of the use doesn't.
pub fn added_imports_are_led()
    ensures { AddedImportsAreLed }
{}
