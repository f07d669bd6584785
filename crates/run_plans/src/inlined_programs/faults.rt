//! Why a run stops.

use std::alloc::AllocError;
use step_files::Passed;

/// A limit that a step passes, and the file of the step, by the numbers of its package and its own.
#[derive(Clone, Copy, Debug)]
pub struct PassedIn {
    pub home: usize,
    pub file: usize,
    pub passed: Passed,
}

/// Why a step isn't made.
#[derive(Drop)]
pub enum StepFault {
    /// It passes a limit of the run.
    TooLarge(PassedIn),
    /// Memory was refused.
    NoMemory,
}

impl From<AllocError> for StepFault {
    ghost use Rattle.std.specs.Prelude.{◌≡◌};
    ghost use Rattle.run_plans.specs.declared.inlined_programs.faults.StepFault.TheVariants.{NoMemory};

    ghost from_gives = { λ _ e. e ≡ NoMemory };

    fn from(_: AllocError) -> Self {
        StepFault::NoMemory
    }
}
