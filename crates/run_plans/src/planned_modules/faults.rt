//! Why nothing is planned for files.

use refusals::Refusal;
use std::alloc::{AllocError, AllocFailed};

/// Why nothing is planned for files.
#[derive(Drop)]
pub enum ModuleFault {
    /// They are no module, or none that is taken.
    Refused(Refusal),
    /// Memory was refused.
    NoMemory,
}

impl From<AllocError> for ModuleFault {
    ghost use Rattle.std.specs.Prelude.{◌≡◌};
    ghost use Rattle.run_plans.specs.declared.planned_modules.faults.ModuleFault.TheVariants.{NoMemory};

    ghost from_gives = { λ _ e. e ≡ NoMemory };

    fn from(_: AllocError) -> Self {
        ModuleFault::NoMemory
    }
}

impl<T: Drop> From<AllocFailed<T>> for ModuleFault {
    ghost use Rattle.std.specs.Prelude.{◌≡◌};
    ghost use Rattle.run_plans.specs.declared.planned_modules.faults.ModuleFault.TheVariants.{NoMemory};

    ghost from_gives = { λ _ e. e ≡ NoMemory };

    fn from(_: AllocFailed<T>) -> Self {
        ModuleFault::NoMemory
    }
}
