//! Why a model is not read.
ghost use Rattle.std.specs.Prelude.{◌≡◌};
ghost use Rattle.ct_readback.specs.declared.error.BackError.TheVariants.{NoMemory};

use ct_card::CardError;
use ct_ordering::OrderingError;
use ct_values::ValueError;
use std::alloc::{AllocError, AllocFailed};

/// Why a model is not read.
#[derive(Debug, Drop)]
pub enum BackError {
    /// The first item, counted from 0, that is refused, and the number of its error: 45 where it departs from its form, 46 where it
    /// does not fit the script, and 47 where a value of a datatype in it is cyclic.
    Form {
        /// The item.
        item: u64,
        /// The number of the error.
        code: u16,
    },
    /// Memory ran out.
    NoMemory,
}

impl From<AllocError> for BackError {
    ghost from_gives = { λ _ e. e ≡ NoMemory };

    fn from(_error: AllocError) -> BackError {
        BackError::NoMemory
    }
}

impl<T: Drop> From<AllocFailed<T>> for BackError {
    ghost from_gives = { λ _ e. e ≡ NoMemory };

    fn from(_error: AllocFailed<T>) -> BackError {
        BackError::NoMemory
    }
}

impl From<ValueError> for BackError {
    ghost from_gives = { λ _ e. e ≡ NoMemory };

    fn from(_error: ValueError) -> BackError {
        BackError::NoMemory
    }
}

impl From<CardError> for BackError {
    ghost from_gives = { λ _ e. e ≡ NoMemory };

    fn from(_error: CardError) -> BackError {
        BackError::NoMemory
    }
}

impl From<OrderingError> for BackError {
    ghost from_gives = { λ _ e. e ≡ NoMemory };

    fn from(_error: OrderingError) -> BackError {
        BackError::NoMemory
    }
}
