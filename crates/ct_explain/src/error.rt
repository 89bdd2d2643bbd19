//! The error of this crate.
ghost use Rattle.std.specs.Prelude.{⊤};

use std::alloc::{AllocError, AllocFailed};

/// Memory ran out. Nothing else goes wrong in this crate.
#[derive(Clone, Copy, Debug, PartialEq, Eq)]
pub struct ExplainError;

impl From<AllocError> for ExplainError {
    ghost from_gives = { λ _ e. ⊤ };

    fn from(_error: AllocError) -> ExplainError {
        ExplainError
    }
}

impl<T: Drop> From<AllocFailed<T>> for ExplainError {
    ghost from_gives = { λ _ e. ⊤ };

    fn from(_error: AllocFailed<T>) -> ExplainError {
        ExplainError
    }
}
