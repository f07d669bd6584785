//! Laws of steps and runs over constants that change imports and the order of packages.

ghost use Rattle.order_runs.specs.Laws.{OneProgramMeansTheSame, RunsMeanTheSame};
ghost use Rattle.order_runs.specs.Laws.{StepsKeepTheProgram, StepsMeanTheSame};

/// A step of a run over a constant that is declared as a name leaves packages that are one program
/// with those before, also where its imports put the packages in another order; so the program after
/// it means what the one before does, and so does the last one of a run of such steps.
pub fn runs_with_imports_mean_the_same()
    ensures program { OneProgramMeansTheSame }
    ensures steps { StepsKeepTheProgram }
    ensures meaning { StepsMeanTheSame }
    ensures runs { RunsMeanTheSame }
{}
