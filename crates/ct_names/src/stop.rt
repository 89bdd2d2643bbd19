//! Why elaboration stops.
ghost use Rattle.std.specs.Prelude.{◌≡◌};
ghost use Rattle.ct_names.specs.Stopped.{stop_of};
ghost use Rattle.ct_names.specs.declared.stop.Stop.TheVariants.{NoMemory};

use crate::error::CheckError;
use std::alloc::{AllocError, AllocFailed};

/// Why an expression has no sort, or no formula.
#[derive(Clone, Copy, Debug, PartialEq, Eq)]
pub enum Stop {
    /// The expression is refused, with the number of its first error.
    Refused(u16),
    /// The expression needs a sort that is not there, and for which there is no room, or which is to be found only.
    Missing,
    /// Memory ran out.
    NoMemory,
}

impl From<AllocError> for Stop {
    ghost from_gives = { λ _ e. e ≡ NoMemory };

    fn from(_error: AllocError) -> Stop {
        Stop::NoMemory
    }
}

impl<T: Drop> From<AllocFailed<T>> for Stop {
    ghost from_gives = { λ _ e. e ≡ NoMemory };

    fn from(_error: AllocFailed<T>) -> Stop {
        Stop::NoMemory
    }
}

impl From<CheckError> for Stop {
    ghost from_gives = { λ c e. e ≡ stop_of c };

    fn from(error: CheckError) -> Stop {
        match error {
            CheckError::Refused(number) => Stop::Refused(number),
            CheckError::NoMemory => Stop::NoMemory,
        }
    }
}
