//! The one error of a search.
use std::alloc::{AllocError, AllocFailed};

/// Memory ran out.
#[derive(Clone, Copy, Debug, PartialEq, Eq)]
pub struct SatError;

impl From<AllocError> for SatError {
    fn from(_error: AllocError) -> SatError {
        SatError
    }
}

impl<T: Drop> From<AllocFailed<T>> for SatError {
    fn from(_error: AllocFailed<T>) -> SatError {
        SatError
    }
}
