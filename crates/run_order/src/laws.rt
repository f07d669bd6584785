//! Laws of the order of uses.

ghost use Rattle.run_order.specs.Laws as law;

/// The uses of a program whose files read from their texts are listed in their order: packages in
/// dependency order, files by their numbers, uses by their ends. Where parameters or fields share a type,
/// those in it are listed again. So the use that a step replaces is the first that becomes a form.
pub fn uses_are_in_order()
    ensures listed { law.UsesAreInOrder }
    ensures steps { law.StepsTakeTheFirst }
{}

/// The files of a package are numbered in the order of their paths, in a module that reads and after each
/// run from it.
pub fn files_stay_in_the_order_of_paths()
    ensures { law.RunsKeepFilesByPath }
{}
