//! Why the files of a folder aren't read.

use std::alloc::{AllocError, AllocFailed};

/// Why the files of a folder aren't read. A number is that of a listed path.
#[derive(Clone, Copy, Debug, PartialEq, Eq, Drop)]
pub enum FolderFault {
    /// More files are selected than a module may have.
    TooMany,
    /// The file can't be read.
    Read(u32),
    /// The file is too long, or the files up to it are.
    TooLong(u32),
    /// Memory was refused.
    NoMemory,
}

impl From<AllocError> for FolderFault {
    ghost use Rattle.std.specs.Prelude.{◌≡◌};
    ghost use Rattle.folder_reading.specs.declared.faults.FolderFault.TheVariants.{NoMemory};

    ghost from_gives = { λ _ e. e ≡ NoMemory };

    fn from(_: AllocError) -> Self {
        FolderFault::NoMemory
    }
}

impl<T: Drop> From<AllocFailed<T>> for FolderFault {
    ghost use Rattle.std.specs.Prelude.{◌≡◌};
    ghost use Rattle.folder_reading.specs.declared.faults.FolderFault.TheVariants.{NoMemory};

    ghost from_gives = { λ _ e. e ≡ NoMemory };

    fn from(_: AllocFailed<T>) -> Self {
        FolderFault::NoMemory
    }
}
