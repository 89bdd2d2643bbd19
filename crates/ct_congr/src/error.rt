//! The error of this crate.
ghost use Rattle.std.specs.Prelude.{⊤};

use ct_equivalence::EquivalenceError;
use std::alloc::{AllocError, AllocFailed};

/// Memory ran out. Nothing else goes wrong in this crate.
#[derive(Clone, Copy, Debug, PartialEq, Eq)]
pub struct CongrError;

impl From<AllocError> for CongrError {
    ghost from_gives = { λ _ e. ⊤ };

    fn from(_error: AllocError) -> CongrError {
        CongrError
    }
}

impl<T: Drop> From<AllocFailed<T>> for CongrError {
    ghost from_gives = { λ _ e. ⊤ };

    fn from(_error: AllocFailed<T>) -> CongrError {
        CongrError
    }
}

impl From<EquivalenceError> for CongrError {
    ghost from_gives = { λ _ e. ⊤ };

    fn from(_error: EquivalenceError) -> CongrError {
        CongrError
    }
}
