//! An order of the classes, or the cycle because of which there is none.
ghost use Rattle.std.specs.Prelude.{◌≡◌};
ghost use Rattle.ct_acyclic.specs.declared.answer.OrderError.TheVariants.{NoMemory};

use ct_ordering::OrderingError;
use ct_terms::TermId;
use std::alloc::{AllocError, AllocFailed};

/// The classes of datatypes, by their representatives.
#[derive(Debug, Drop)]
pub struct Order {
    /// The representatives, each once, and each after those of the classes under constructor terms of its class.
    pub reps: Vec<TermId>,
}

/// Why classes have no order.
#[derive(Debug, Drop)]
pub enum OrderError {
    /// A cycle, which no model has: constructor terms of datatypes, each with the place, from 0, of an argument that equals
    /// the next of them. An argument of the last equals the first.
    Cycle(Vec<(TermId, u32)>),
    /// Memory ran out.
    NoMemory,
}

impl From<AllocError> for OrderError {
    ghost from_gives = { λ _ e. e ≡ NoMemory };

    fn from(_error: AllocError) -> OrderError {
        OrderError::NoMemory
    }
}

impl<T: Drop> From<AllocFailed<T>> for OrderError {
    ghost from_gives = { λ _ e. e ≡ NoMemory };

    fn from(_error: AllocFailed<T>) -> OrderError {
        OrderError::NoMemory
    }
}

impl From<OrderingError> for OrderError {
    ghost from_gives = { λ _ e. e ≡ NoMemory };

    fn from(_error: OrderingError) -> OrderError {
        OrderError::NoMemory
    }
}
