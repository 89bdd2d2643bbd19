//! Why compilation stops early: an error, or a call of a definition that is too deep.
ghost use Rattle.std.specs.Prelude.{◌≡◌};
ghost use Rattle.ct_terms.specs.declared.error.TermError.TheVariants.{NoMemory};
ghost use Rattle.ct_scope.specs.declared.stop.Stop.TheVariants.{Failed};

use crate::bound::Bound;
use ct_finite::FiniteError;
use ct_sorts::{DefId, Items};
use ct_terms::TermError;
use std::alloc::{AllocError, AllocFailed};

/// A call of a definition.
#[derive(Debug, Drop)]
pub struct DeferredCall {
    /// The definition.
    pub definition: DefId,
    /// What its parameters stand for, in order.
    pub bounds: Items<Bound>,
}

/// Why compiling stops before the end.
#[derive(Debug, Drop)]
pub enum Stop {
    /// It failed.
    Failed(TermError),
    /// This call lies too deep under others: it is to be compiled first, and then all of the rest anew.
    TooDeep(DeferredCall),
}

impl From<TermError> for Stop {
    ghost from_gives = { λ e s. s ≡ Failed e };

    fn from(error: TermError) -> Stop {
        Stop::Failed(error)
    }
}

impl From<AllocError> for Stop {
    ghost from_gives = { λ e s. s ≡ Failed NoMemory };

    fn from(_error: AllocError) -> Stop {
        Stop::Failed(TermError::NoMemory)
    }
}

impl From<FiniteError> for Stop {
    ghost from_gives = { λ e s. s ≡ Failed NoMemory };

    fn from(_error: FiniteError) -> Stop {
        Stop::Failed(TermError::NoMemory)
    }
}

impl<T: Drop> From<AllocFailed<T>> for Stop {
    ghost from_gives = { λ e s. s ≡ Failed NoMemory };

    fn from(_error: AllocFailed<T>) -> Stop {
        Stop::Failed(TermError::NoMemory)
    }
}
