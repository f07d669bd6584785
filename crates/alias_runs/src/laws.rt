//! Laws of steps over aliases that change imports, and of runs over constants and aliases.

ghost use Rattle.alias_runs.specs.Laws.{AliasStepsKeepTheCode, AliasStepsKeepTheProgram};
ghost use Rattle.alias_runs.specs.Laws.{AliasStepsMeanTheSame, NamesRunsKeepTheCode};
ghost use Rattle.alias_runs.specs.Laws.{NamesRunsMeanTheSame, RunsOverNamesMeanTheSame};

/// A step over an alias keeps the kernel program beside all further packages, also where it adds
/// imports to the file of the use and leaves others that nothing needs, if each identifier stays the
/// name of the same package, or of none, and the imports are right at last (`code`). As a run takes
/// it, with its file read again, it leaves packages that are one program with those before, in
/// whatever order they stand (`program`), so the program after it means the same (`meaning`).
pub fn alias_steps_with_imports_mean_the_same()
    ensures code { AliasStepsKeepTheCode }
    ensures program { AliasStepsKeepTheProgram }
    ensures meaning { AliasStepsMeanTheSame }
{}

/// Any number of such steps and of steps over constants, in any order, keep the kernel program
/// (`code`), so the packages after mean what the first do (`packages`). So does the last program of a
/// run of such steps from files that read as a module (`runs`).
pub fn runs_over_names_mean_the_same()
    ensures code { NamesRunsKeepTheCode }
    ensures packages { NamesRunsMeanTheSame }
    ensures runs { RunsOverNamesMeanTheSame }
{}
