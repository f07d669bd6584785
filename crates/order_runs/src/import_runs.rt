//! Laws of steps over constants that change imports.

ghost use Rattle.order_runs.specs.ImportRuns.Laws.{ImportingNextsKeepTheCode, RunPackagesAreMoved};

/// Packages of a run that differ by what their files import are linked to packages of the same
/// declarations under other imports, where each identifier is the name of the same import, or of
/// none, and they stand in the same dependency order.
pub fn run_packages_are_moved()
    ensures { RunPackagesAreMoved }
{}

/// A step of a run over a constant that is declared as a name keeps the kernel program beside all
/// further packages, also where it adds imports to the file of the use and removes others, if the
/// packages keep their dependency order.
pub fn importing_steps_keep_the_code()
    ensures { ImportingNextsKeepTheCode }
{}
