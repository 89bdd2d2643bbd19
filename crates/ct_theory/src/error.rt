//! The error of this crate.
ghost use Rattle.std.specs.Prelude.{⊤};

use ct_congr::CongrError;
use ct_explain::ExplainError;
use ct_unique::UniqueError;
use std::alloc::{AllocError, AllocFailed};

/// Memory ran out. Nothing else goes wrong in this crate.
#[derive(Clone, Copy, Debug, PartialEq, Eq)]
pub struct TheoryError;

impl From<AllocError> for TheoryError {
    ghost from_gives = { λ _ e. ⊤ };

    fn from(_error: AllocError) -> TheoryError {
        TheoryError
    }
}

impl<T: Drop> From<AllocFailed<T>> for TheoryError {
    ghost from_gives = { λ _ e. ⊤ };

    fn from(_error: AllocFailed<T>) -> TheoryError {
        TheoryError
    }
}

impl From<CongrError> for TheoryError {
    ghost from_gives = { λ _ e. ⊤ };

    fn from(_error: CongrError) -> TheoryError {
        TheoryError
    }
}

impl From<ExplainError> for TheoryError {
    ghost from_gives = { λ _ e. ⊤ };

    fn from(_error: ExplainError) -> TheoryError {
        TheoryError
    }
}

impl From<UniqueError> for TheoryError {
    ghost from_gives = { λ _ e. ⊤ };

    fn from(_error: UniqueError) -> TheoryError {
        TheoryError
    }
}
