//! The error of a declaration: refused for a numbered cause, or out of memory.

ghost use Rattle.std.specs.Prelude.{◌≡◌, ℕ, ◌↔◌};
ghost use Rattle.ct_generics.specs.declared.error.GenericError.{GenericError};
ghost use Rattle.ct_sorts.specs.declared.error.SigError.TheVariants.{NoMemory};

use ct_generics::GenericError;
use std::alloc::{AllocError, AllocFailed};

/// Why a declaration was not made.
#[derive(Clone, Copy, Debug, PartialEq, Eq)]
pub enum SigError {
    /// The declaration is refused, with the number of the error.
    Refused(u16),
    /// Memory ran out.
    NoMemory,
}

impl From<AllocError> for SigError {
    ghost from_gives = { λ _ e. e ≡ NoMemory };

    fn from(_error: AllocError) -> SigError {
        SigError::NoMemory
    }
}

impl<T: Drop> From<AllocFailed<T>> for SigError {
    ghost from_gives = { λ _ e. e ≡ NoMemory };

    fn from(_error: AllocFailed<T>) -> SigError {
        SigError::NoMemory
    }
}

/// The error of a declaration that a generic has.
pub(crate) fn sig_error(error: GenericError) -> SigError
    ensures refused { (n : ℕ) → (result ≡ SigError.Refused n) ↔ (error ≡ GenericError.Refused n) }
    ensures memory { (result ≡ SigError.NoMemory) ↔ (error ≡ GenericError.NoMemory) }
{
    match error {
        GenericError::Refused(number) => SigError::Refused(number),
        GenericError::NoMemory => SigError::NoMemory,
    }
}
