//! Laws of steps over constants that change imports.

ghost use Rattle.order_runs.specs.ImportSteps.Laws.{ImportingRunsKeepTheCode, ImportingRunsMeanTheSame};
ghost use Rattle.order_runs.specs.ImportSteps.Laws.{ImportingStepsKeepTheCode};

/// A step over a constant keeps the kernel program beside all further packages, also where it adds
/// imports to the file of the use and leaves others that nothing needs, if each identifier stays the
/// name of the same package, or of none, and the imports are right at last. So do any number of such
/// steps, and the packages after mean what those before do.
pub fn importing_steps_mean_the_same()
    ensures steps { ImportingStepsKeepTheCode }
    ensures runs { ImportingRunsKeepTheCode }
    ensures meaning { ImportingRunsMeanTheSame }
{}
