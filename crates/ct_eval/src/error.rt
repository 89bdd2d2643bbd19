//! The error of evaluation: out of memory.

ghost use Rattle.std.specs.Prelude.{⊤};

use ct_values::ValueError;
use std::alloc::{AllocError, AllocFailed};

/// Memory ran out. Nothing else goes wrong in this crate.
#[derive(Clone, Copy, Debug, PartialEq, Eq)]
pub struct EvalError;

impl From<AllocError> for EvalError {
    ghost from_gives = { λ _ e. ⊤ };

    fn from(_error: AllocError) -> EvalError {
        EvalError
    }
}

impl<T: Drop> From<AllocFailed<T>> for EvalError {
    ghost from_gives = { λ _ e. ⊤ };

    fn from(_error: AllocFailed<T>) -> EvalError {
        EvalError
    }
}

impl From<ValueError> for EvalError {
    ghost from_gives = { λ _ e. ⊤ };

    fn from(_error: ValueError) -> EvalError {
        EvalError
    }
}
