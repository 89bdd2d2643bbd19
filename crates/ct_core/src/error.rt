//! The error of cutting a derivation down.

use ct_log::LogError;
use ct_terms::TermError;
use std::alloc::{AllocError, AllocFailed};

/// Memory ran out.
#[derive(Clone, Copy, Debug, PartialEq, Eq)]
pub struct CoreError;

impl From<AllocError> for CoreError {
    fn from(_error: AllocError) -> CoreError {
        CoreError
    }
}

impl<T: Drop> From<AllocFailed<T>> for CoreError {
    fn from(_error: AllocFailed<T>) -> CoreError {
        CoreError
    }
}

impl From<LogError> for CoreError {
    fn from(_error: LogError) -> CoreError {
        CoreError
    }
}

impl From<TermError> for CoreError {
    fn from(_error: TermError) -> CoreError {
        CoreError
    }
}
