//! The only error: out of memory.
ghost use Rattle.std.specs.Prelude.{⊤};

use std::alloc::{AllocError, AllocFailed};

/// Memory ran out. Nothing else goes wrong in this crate.
#[derive(Clone, Copy, Debug, PartialEq, Eq)]
pub struct OrderingError;

impl From<AllocError> for OrderingError {
    ghost from_gives = { λ _ e. ⊤ };

    fn from(_error: AllocError) -> OrderingError {
        OrderingError
    }
}

impl<T: Drop> From<AllocFailed<T>> for OrderingError {
    ghost from_gives = { λ _ e. ⊤ };

    fn from(_error: AllocFailed<T>) -> OrderingError {
        OrderingError
    }
}
