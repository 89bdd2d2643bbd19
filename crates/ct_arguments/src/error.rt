//! The error of this crate: out of memory.

ghost use Rattle.std.specs.Prelude.{⊤};

use std::alloc::{AllocError, AllocFailed};

/// Memory ran out. Nothing else goes wrong in this crate: arguments that ask for nothing are a task
/// of their own.
#[derive(Clone, Copy, Debug, PartialEq, Eq)]
pub struct ArgumentError;

impl From<AllocError> for ArgumentError {
    ghost from_gives = { λ _ e. ⊤ };

    fn from(_error: AllocError) -> ArgumentError {
        ArgumentError
    }
}

impl<T: Drop> From<AllocFailed<T>> for ArgumentError {
    ghost from_gives = { λ _ e. ⊤ };

    fn from(_error: AllocFailed<T>) -> ArgumentError {
        ArgumentError
    }
}
