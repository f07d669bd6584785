//! Laws of steps over uses that are found.

ghost use Rattle.stepped_programs.specs.FirstUses.StepLaws.{FoundFilesStand, FoundUsesMayStep};
ghost use Rattle.stepped_programs.specs.FirstUses.StepLaws.{UseStepsAreRead, UseStepsGoOn, UseStepsPassLimits};

use crate::searched_sites::{found_uses_are_steps, steps_go_on};

/// What a program has of the file of the first use that the run takes is that file as it stands (`stand`), and the step
/// over the use may be made (`may`). What is asked of the use besides is searched_sites' `IsRightUse`.
pub fn found_uses_may_step()
    ensures stand { FoundFilesStand }
    ensures may { FoundUsesMayStep }
{
    found_uses_are_steps();
}

/// What `step_use` answers of it. A file: with it the run has reached the next program (`file`). A limit: the run is
/// too large by it (`limit`). That the new text isn't read: never (`never`).
pub fn use_steps_go_on()
    ensures file { UseStepsGoOn }
    ensures limit { UseStepsPassLimits }
    ensures never { UseStepsAreRead }
{
    found_uses_may_step();
    steps_go_on();
}
