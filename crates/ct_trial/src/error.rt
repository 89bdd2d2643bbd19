//! Why a trial ends.

ghost use Rattle.std.specs.Prelude.{⊤};

use ct_eval::EvalError;
use ct_values::ValueError;
use std::alloc::{AllocError, AllocFailed};

/// Why a trial ends. Nothing is said of it afterwards.
#[derive(Clone, Copy, Debug, PartialEq, Eq)]
pub enum TrialError {
    /// Memory ran out.
    NoMemory,
    /// There is no value for something that is new: no node of its sort, or no element left that nothing is equal to.
    Exhausted,
}

impl From<AllocError> for TrialError {
    ghost from_gives = { λ _ e. ⊤ };

    fn from(_error: AllocError) -> TrialError {
        TrialError::NoMemory
    }
}

impl<T: Drop> From<AllocFailed<T>> for TrialError {
    ghost from_gives = { λ _ e. ⊤ };

    fn from(_error: AllocFailed<T>) -> TrialError {
        TrialError::NoMemory
    }
}

impl From<ValueError> for TrialError {
    ghost from_gives = { λ _ e. ⊤ };

    fn from(_error: ValueError) -> TrialError {
        TrialError::NoMemory
    }
}

impl From<EvalError> for TrialError {
    ghost from_gives = { λ _ e. ⊤ };

    fn from(_error: EvalError) -> TrialError {
        TrialError::NoMemory
    }
}
