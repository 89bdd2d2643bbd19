//! The error of a declaration: refused for a numbered cause, or out of memory.

ghost use Rattle.std.specs.Prelude.{◌≡◌};
ghost use Rattle.ct_generics.specs.declared.error.GenericError.TheVariants.{NoMemory};

use std::alloc::{AllocError, AllocFailed};

/// Why a declaration was not made.
#[derive(Clone, Copy, Debug, PartialEq, Eq)]
pub enum GenericError {
    /// The declaration is refused, with the number of the error.
    Refused(u16),
    /// Memory ran out.
    NoMemory,
}

impl From<AllocError> for GenericError {
    ghost from_gives = { λ _ e. e ≡ NoMemory };

    fn from(_error: AllocError) -> GenericError {
        GenericError::NoMemory
    }
}

impl<T: Drop> From<AllocFailed<T>> for GenericError {
    ghost from_gives = { λ _ e. e ≡ NoMemory };

    fn from(_error: AllocFailed<T>) -> GenericError {
        GenericError::NoMemory
    }
}
