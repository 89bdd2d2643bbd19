//! The error of this crate.
ghost use Rattle.std.specs.Prelude.{⊤};

use ct_card::CardError;
use ct_values::ValueError;
use std::alloc::{AllocError, AllocFailed};

/// Memory ran out. Nothing else goes wrong in this crate.
#[derive(Clone, Copy, Debug, PartialEq, Eq)]
pub struct BuildError;

impl From<AllocError> for BuildError {
    ghost from_gives = { λ _ e. ⊤ };

    fn from(_error: AllocError) -> BuildError {
        BuildError
    }
}

impl<T: Drop> From<AllocFailed<T>> for BuildError {
    ghost from_gives = { λ _ e. ⊤ };

    fn from(_error: AllocFailed<T>) -> BuildError {
        BuildError
    }
}

impl From<ValueError> for BuildError {
    ghost from_gives = { λ _ e. ⊤ };

    fn from(_error: ValueError) -> BuildError {
        BuildError
    }
}

impl From<CardError> for BuildError {
    ghost from_gives = { λ _ e. ⊤ };

    fn from(_error: CardError) -> BuildError {
        BuildError
    }
}
