//! The errors of records: a text that is refused, or out of memory.
ghost use Rattle.std.specs.Prelude.{◌≡◌};
ghost use Rattle.ct_log.specs.declared.error.LogError.TheVariants.{NoMemory};

use std::alloc::{AllocError, AllocFailed};

/// Why a record was not made.
#[derive(Clone, Copy, Debug, PartialEq, Eq)]
pub enum LogError {
    /// Its text is refused: the first item that is wrong, counted from 0, and the code of the error.
    Form { item: u64, code: u16 },
    /// Memory ran out.
    NoMemory,
}

impl From<AllocError> for LogError {
    ghost from_gives = { λ _ e. e ≡ NoMemory };

    fn from(_error: AllocError) -> LogError {
        LogError::NoMemory
    }
}

impl<T: Drop> From<AllocFailed<T>> for LogError {
    ghost from_gives = { λ _ e. e ≡ NoMemory };

    fn from(_error: AllocFailed<T>) -> LogError {
        LogError::NoMemory
    }
}
