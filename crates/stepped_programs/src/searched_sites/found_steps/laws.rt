//! Laws of the steps over uses that searches find.

ghost use Rattle.stepped_programs.specs.SearchedSites.FoundSteps.Laws.{FileStepsAreRead, FileStepsGoOn};
ghost use Rattle.stepped_programs.specs.SearchedSites.FoundSteps.Laws.{FileStepsPassLimits, FoundUsesAreSteps};
ghost use Rattle.stepped_programs.specs.SearchedSites.FoundSteps.Laws.{FoundUsesComeNext, SearchesEndRuns};
ghost use Rattle.stepped_programs.specs.SearchedSites.FoundSteps.Laws.{StepsMayBeMade};

use printed_constants::typed_parts::marked_runs::{
    constants_come_next, forms_of_constants_are_put, values_are_names,
};
use printed_constants::typed_parts::standing_uses::{
    constant_uses_stand_alone, first_uses_are_told, slots_take_names, steps_may_be_edited,
};
use run_by_steps::{run_ends, run_goes_on};

/// The first free use that a search finds is the next of the run (`next`). Of it and its form file_steps is told,
/// where the code has the text of the file, its tokens and a view of it with the tables of the search (`step`); and
/// `step_file` may be called with these (`made`). What is asked of the use besides is `IsRightUse`; the program is
/// ready.
pub fn found_uses_are_steps()
    ensures step { FoundUsesAreSteps }
    ensures made { StepsMayBeMade }
    ensures next { FoundUsesComeNext }
{
    constant_uses_stand_alone();
    constants_come_next();
    forms_of_constants_are_put();
    values_are_names();
    first_uses_are_told();
    steps_may_be_edited();
    slots_take_names();
}

/// What `step_file` answers of it. A file: with it the run has reached the next program (`file`). A limit: the run is
/// too large by it (`limit`). That the new text isn't read: never (`never`). And where a search finds no free use, the
/// texts are those of the inlined module, with its report (`ended`).
pub fn steps_go_on()
    ensures file { FileStepsGoOn }
    ensures limit { FileStepsPassLimits }
    ensures never { FileStepsAreRead }
    ensures ended { SearchesEndRuns }
{
    found_uses_are_steps();
    run_goes_on();
    run_ends();
}
