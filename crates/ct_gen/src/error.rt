//! The error of the generator: out of memory.

ghost use Rattle.std.specs.Prelude.{⊤};

use std::alloc::{AllocError, AllocFailed};

/// Memory ran out. Nothing else goes wrong in this crate.
#[derive(Clone, Copy, Debug, PartialEq, Eq)]
pub struct GenError;

impl From<AllocError> for GenError {
    ghost from_gives = { λ _ e. ⊤ };

    fn from(_error: AllocError) -> GenError {
        GenError
    }
}

impl<T: Drop> From<AllocFailed<T>> for GenError {
    ghost from_gives = { λ _ e. ⊤ };

    fn from(_error: AllocFailed<T>) -> GenError {
        GenError
    }
}
