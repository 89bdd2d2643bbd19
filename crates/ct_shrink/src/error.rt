//! The error of shrinking a core.

use ct_kept::KeptError;
use ct_terms::TermError;
use std::alloc::{AllocError, AllocFailed};

/// Memory ran out.
#[derive(Clone, Copy, Debug, PartialEq, Eq)]
pub struct ShrinkError;

impl From<AllocError> for ShrinkError {
    fn from(_error: AllocError) -> ShrinkError {
        ShrinkError
    }
}

impl<T: Drop> From<AllocFailed<T>> for ShrinkError {
    fn from(_error: AllocFailed<T>) -> ShrinkError {
        ShrinkError
    }
}

impl From<KeptError> for ShrinkError {
    fn from(_error: KeptError) -> ShrinkError {
        ShrinkError
    }
}

impl From<TermError> for ShrinkError {
    fn from(_error: TermError) -> ShrinkError {
        ShrinkError
    }
}
