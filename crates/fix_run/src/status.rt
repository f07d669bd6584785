//! How a run ends.

ghost use Rattle.std.specs.Prelude.{◌≡◌};
ghost use Rattle.fix_run.specs.Numbers.{number_of};

use refusals::Refusal;
use std::alloc::{AllocError, AllocFailed};

/// How a run ends. A number is that of a listed path.
#[derive(Drop)]
pub enum Status {
    Done,
    Found,
    Usage,
    NoMemory,
    ListFault,
    ReadFault(u32),
    Refused(Refusal),
    WriteFault(u32),
    ReportFault,
}

impl Status {
    /// The number that the process ends with.
    pub fn number(&self) -> u8
        ensures { result ≡ number_of self.now }
    {
        match self {
            Status::Done => 0,
            Status::Found => 3,
            Status::Usage => 2,
            Status::NoMemory => 4,
            Status::ListFault
            | Status::ReadFault(_)
            | Status::Refused(_)
            | Status::WriteFault(_)
            | Status::ReportFault => 1,
        }
    }
}

impl From<AllocError> for Status {
    ghost use Rattle.std.specs.Prelude.{◌≡◌};
    ghost use Rattle.fix_run.specs.declared.status.Status.TheVariants.{NoMemory};

    ghost from_gives = { λ _ s. s ≡ NoMemory };

    fn from(_: AllocError) -> Self {
        Status::NoMemory
    }
}

impl<T: Drop> From<AllocFailed<T>> for Status {
    ghost use Rattle.std.specs.Prelude.{◌≡◌};
    ghost use Rattle.fix_run.specs.declared.status.Status.TheVariants.{NoMemory};

    ghost from_gives = { λ _ s. s ≡ NoMemory };

    fn from(_: AllocFailed<T>) -> Self {
        Status::NoMemory
    }
}
