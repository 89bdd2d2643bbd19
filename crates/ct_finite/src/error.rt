//! The error of this crate.
ghost use Rattle.std.specs.Prelude.{◌≡◌, ⊤};
ghost use Rattle.ct_terms.specs.declared.error.TermError.TheVariants.{NoMemory};

use ct_terms::TermError;
use std::alloc::{AllocError, AllocFailed};

/// Memory ran out. Nothing else goes wrong in this crate.
#[derive(Clone, Copy, Debug, PartialEq, Eq)]
pub struct FiniteError;

impl From<AllocError> for FiniteError {
    ghost from_gives = { λ _ e. ⊤ };

    fn from(_error: AllocError) -> FiniteError {
        FiniteError
    }
}

impl<T: Drop> From<AllocFailed<T>> for FiniteError {
    ghost from_gives = { λ _ e. ⊤ };

    fn from(_error: AllocFailed<T>) -> FiniteError {
        FiniteError
    }
}

impl From<FiniteError> for TermError {
    ghost from_gives = { λ _ e. e ≡ NoMemory };

    fn from(_error: FiniteError) -> TermError {
        TermError::NoMemory
    }
}
