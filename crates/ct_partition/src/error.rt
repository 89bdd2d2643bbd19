//! The only error: out of memory.
ghost use Rattle.std.specs.Prelude.{⊤};

use std::alloc::{AllocError, AllocFailed};

/// Memory ran out. Nothing else goes wrong in this crate.
#[derive(Clone, Copy, Debug, PartialEq, Eq)]
pub struct OutOfMemory;

impl From<AllocError> for OutOfMemory {
    ghost from_gives = { λ _ e. ⊤ };

    fn from(_error: AllocError) -> OutOfMemory {
        OutOfMemory
    }
}

impl<T: Drop> From<AllocFailed<T>> for OutOfMemory {
    ghost from_gives = { λ _ e. ⊤ };

    fn from(_error: AllocFailed<T>) -> OutOfMemory {
        OutOfMemory
    }
}
