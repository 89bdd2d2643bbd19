//! Why a closure was not made.
ghost use Rattle.std.specs.Prelude.{◌≡◌};
ghost use Rattle.ct_closure.specs.declared.error.CloseError.TheVariants.{NoMemory};

use std::alloc::{AllocError, AllocFailed};

/// Why a closure was not made.
#[derive(Clone, Copy, Debug, PartialEq, Eq)]
pub enum CloseError {
    /// The closure has more than 200,000 terms.
    TooLarge,
    /// Memory ran out.
    NoMemory,
}

impl From<AllocError> for CloseError {
    ghost from_gives = { λ _ e. e ≡ NoMemory };

    fn from(_error: AllocError) -> CloseError {
        CloseError::NoMemory
    }
}

impl<T: Drop> From<AllocFailed<T>> for CloseError {
    ghost from_gives = { λ _ e. e ≡ NoMemory };

    fn from(_error: AllocFailed<T>) -> CloseError {
        CloseError::NoMemory
    }
}
