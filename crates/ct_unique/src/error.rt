//! The error of this crate.
ghost use Rattle.std.specs.Prelude.{⊤};

use ct_partition::OutOfMemory;
use std::alloc::{AllocError, AllocFailed};

/// Memory ran out. Nothing else goes wrong in this crate.
#[derive(Clone, Copy, Debug, PartialEq, Eq)]
pub struct UniqueError;

impl From<AllocError> for UniqueError {
    ghost from_gives = { λ _ e. ⊤ };

    fn from(_error: AllocError) -> UniqueError {
        UniqueError
    }
}

impl<T: Drop> From<AllocFailed<T>> for UniqueError {
    ghost from_gives = { λ _ e. ⊤ };

    fn from(_error: AllocFailed<T>) -> UniqueError {
        UniqueError
    }
}

impl From<OutOfMemory> for UniqueError {
    ghost from_gives = { λ _ e. ⊤ };

    fn from(_error: OutOfMemory) -> UniqueError {
        UniqueError
    }
}
