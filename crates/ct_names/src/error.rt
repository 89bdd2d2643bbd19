//! Why an expression is refused.
ghost use Rattle.std.specs.Prelude.{◌≡◌};
ghost use Rattle.ct_names.specs.declared.error.CheckError.TheVariants.{NoMemory};

use std::alloc::{AllocError, AllocFailed};

/// Why an expression has no sort, or no formula.
#[derive(Clone, Copy, Debug, PartialEq, Eq)]
pub enum CheckError {
    /// The expression is refused, with the number of its first error.
    Refused(u16),
    /// Memory ran out.
    NoMemory,
}

impl From<AllocError> for CheckError {
    ghost from_gives = { λ _ e. e ≡ NoMemory };

    fn from(_error: AllocError) -> CheckError {
        CheckError::NoMemory
    }
}

impl<T: Drop> From<AllocFailed<T>> for CheckError {
    ghost from_gives = { λ _ e. e ≡ NoMemory };

    fn from(_error: AllocFailed<T>) -> CheckError {
        CheckError::NoMemory
    }
}
