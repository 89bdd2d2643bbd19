//! The error of values: out of memory.

ghost use Rattle.std.specs.Prelude.{⊤};

use ct_partition::OutOfMemory;
use std::alloc::{AllocError, AllocFailed};

/// Memory ran out. Nothing else goes wrong in this crate.
#[derive(Clone, Copy, Debug, PartialEq, Eq)]
pub struct ValueError;

impl From<AllocError> for ValueError {
    ghost from_gives = { λ _ e. ⊤ };

    fn from(_error: AllocError) -> ValueError {
        ValueError
    }
}

impl<T: Drop> From<AllocFailed<T>> for ValueError {
    ghost from_gives = { λ _ e. ⊤ };

    fn from(_error: AllocFailed<T>) -> ValueError {
        ValueError
    }
}

impl From<OutOfMemory> for ValueError {
    ghost from_gives = { λ _ e. ⊤ };

    fn from(_error: OutOfMemory) -> ValueError {
        ValueError
    }
}
