//! The error of this crate.
ghost use Rattle.std.specs.Prelude.{⊤};

use ct_values::ValueError;
use std::alloc::{AllocError, AllocFailed};

/// Memory ran out. Nothing else goes wrong in this crate.
#[derive(Clone, Copy, Debug, PartialEq, Eq)]
pub struct CardError;

impl From<AllocError> for CardError {
    ghost from_gives = { λ _ e. ⊤ };

    fn from(_error: AllocError) -> CardError {
        CardError
    }
}

impl<T: Drop> From<AllocFailed<T>> for CardError {
    ghost from_gives = { λ _ e. ⊤ };

    fn from(_error: AllocFailed<T>) -> CardError {
        CardError
    }
}

impl From<ValueError> for CardError {
    ghost from_gives = { λ _ e. ⊤ };

    fn from(_error: ValueError) -> CardError {
        CardError
    }
}
