//! The errors of making terms: the table is full, or out of memory.

ghost use Rattle.std.specs.Prelude.{◌≡◌};
ghost use Rattle.ct_terms.specs.declared.error.TermError.TheVariants.{NoMemory};

use std::alloc::{AllocError, AllocFailed};

/// Why a term was not made.
#[derive(Clone, Copy, Debug, PartialEq, Eq)]
pub enum TermError {
    /// The table holds 400,000 terms, and the term is not among them.
    Full,
    /// Memory ran out.
    NoMemory,
}

impl From<AllocError> for TermError {
    ghost from_gives = { λ _ e. e ≡ NoMemory };

    fn from(_error: AllocError) -> TermError {
        TermError::NoMemory
    }
}

impl<T: Drop> From<AllocFailed<T>> for TermError {
    ghost from_gives = { λ _ e. e ≡ NoMemory };

    fn from(_error: AllocFailed<T>) -> TermError {
        TermError::NoMemory
    }
}
