//! Why a type isn't written.

use std::alloc::{AllocError, AllocFailed};

/// Why a type isn't written.
#[derive(Clone, Copy, Debug, PartialEq, Eq, Drop)]
pub enum TypeFault {
    /// Its text would be too long, or it nests too deeply.
    TooLarge,
    /// Memory was refused.
    NoMemory,
}

impl From<AllocError> for TypeFault {
    ghost use Rattle.std.specs.Prelude.{◌≡◌};
    ghost use Rattle.type_words.specs.declared.faults.TypeFault.TheVariants.{NoMemory};

    ghost from_gives = { λ _ e. e ≡ NoMemory };

    fn from(_: AllocError) -> Self {
        TypeFault::NoMemory
    }
}

impl<T: Drop> From<AllocFailed<T>> for TypeFault {
    ghost use Rattle.std.specs.Prelude.{◌≡◌};
    ghost use Rattle.type_words.specs.declared.faults.TypeFault.TheVariants.{NoMemory};

    ghost from_gives = { λ _ e. e ≡ NoMemory };

    fn from(_: AllocFailed<T>) -> Self {
        TypeFault::NoMemory
    }
}
