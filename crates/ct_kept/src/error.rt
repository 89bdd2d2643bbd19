//! The error of this crate.
ghost use Rattle.std.specs.Prelude.{⊤};

use ct_log::LogError;
use ct_terms::TermError;
use std::alloc::{AllocError, AllocFailed};

/// Memory ran out. Nothing else goes wrong in this crate.
#[derive(Clone, Copy, Debug, PartialEq, Eq)]
pub struct KeptError;

impl From<AllocError> for KeptError {
    ghost from_gives = { λ _ e. ⊤ };

    fn from(_error: AllocError) -> KeptError {
        KeptError
    }
}

impl<T: Drop> From<AllocFailed<T>> for KeptError {
    ghost from_gives = { λ _ e. ⊤ };

    fn from(_error: AllocFailed<T>) -> KeptError {
        KeptError
    }
}

impl From<LogError> for KeptError {
    ghost from_gives = { λ _ e. ⊤ };

    fn from(_error: LogError) -> KeptError {
        KeptError
    }
}

impl From<TermError> for KeptError {
    ghost from_gives = { λ _ e. ⊤ };

    fn from(_error: TermError) -> KeptError {
        KeptError
    }
}
