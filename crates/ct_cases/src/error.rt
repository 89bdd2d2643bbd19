//! Why a case has no answer.
use ct_sexpr::ReadError;
use ct_sorts::SigError;
use std::alloc::{AllocError, AllocFailed};

/// Why a case has no answer.
#[derive(Clone, Copy, Debug, PartialEq, Eq)]
pub enum CaseError {
    /// The line is no case, or names what is not there.
    Bad,
    /// Memory ran out.
    NoMemory,
}

impl From<AllocError> for CaseError {
    fn from(_error: AllocError) -> CaseError {
        CaseError::NoMemory
    }
}

impl<T: Drop> From<AllocFailed<T>> for CaseError {
    fn from(_error: AllocFailed<T>) -> CaseError {
        CaseError::NoMemory
    }
}

impl From<ReadError> for CaseError {
    fn from(error: ReadError) -> CaseError {
        match error {
            ReadError::Lexical { .. } => CaseError::Bad,
            ReadError::NoMemory => CaseError::NoMemory,
        }
    }
}

impl From<SigError> for CaseError {
    fn from(error: SigError) -> CaseError {
        match error {
            SigError::Refused(_) => CaseError::Bad,
            SigError::NoMemory => CaseError::NoMemory,
        }
    }
}
