//! The law of packages that print only.

ghost use Rattle.go_tree.specs.declared.spans.Span.{Span};
ghost use Rattle.run_rules.specs.Steps.{At};
ghost use Rattle.checked_modules.specs.RefusedBodies.PrintedPackages.Laws.{PrintOnlyIsPrinted};

/// Packages that print only are packages of constants and of functions that print them, as those of a module are read
/// (`read`) and as they stand in a run (`standing`) (Go specification, Constant declarations; Function declarations).
pub fn print_only_is_printed()
    ensures read { PrintOnlyIsPrinted Span }
    ensures standing { PrintOnlyIsPrinted At }
{}
