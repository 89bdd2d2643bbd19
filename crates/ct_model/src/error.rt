//! The error of texts of models: out of memory.

ghost use Rattle.std.specs.Prelude.{⊤};

use ct_sexpr::ReadError;
use ct_values::ValueError;
use std::alloc::{AllocError, AllocFailed};

/// Memory ran out. Nothing else goes wrong in this crate.
#[derive(Clone, Copy, Debug, PartialEq, Eq)]
pub struct ModelError;

impl From<AllocError> for ModelError {
    ghost from_gives = { λ _ e. ⊤ };

    fn from(_error: AllocError) -> ModelError {
        ModelError
    }
}

impl<T: Drop> From<AllocFailed<T>> for ModelError {
    ghost from_gives = { λ _ e. ⊤ };

    fn from(_error: AllocFailed<T>) -> ModelError {
        ModelError
    }
}

impl From<ValueError> for ModelError {
    ghost from_gives = { λ _ e. ⊤ };

    fn from(_error: ValueError) -> ModelError {
        ModelError
    }
}

// An expression that is written has no other error than out of memory.
impl From<ReadError> for ModelError {
    ghost from_gives = { λ _ e. ⊤ };

    fn from(_error: ReadError) -> ModelError {
        ModelError
    }
}
