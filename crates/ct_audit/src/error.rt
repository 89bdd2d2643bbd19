//! The error of an audit: out of memory.
ghost use Rattle.std.specs.Prelude.{⊤};

use ct_card::CardError;
use ct_checker::CheckerError;
use ct_eval::EvalError;
use ct_replay::ReplayError;
use ct_script::SessionError;
use std::alloc::{AllocError, AllocFailed};

/// Memory ran out. Nothing else goes wrong in an audit: a derivation or a model that is wrong is answered.
#[derive(Clone, Copy, Debug, PartialEq, Eq)]
pub struct AuditError;

impl From<AllocError> for AuditError {
    ghost from_gives = { λ _ e. ⊤ };

    fn from(_error: AllocError) -> AuditError {
        AuditError
    }
}

impl<T: Drop> From<AllocFailed<T>> for AuditError {
    ghost from_gives = { λ _ e. ⊤ };

    fn from(_error: AllocFailed<T>) -> AuditError {
        AuditError
    }
}

impl From<SessionError> for AuditError {
    ghost from_gives = { λ _ e. ⊤ };

    fn from(_error: SessionError) -> AuditError {
        AuditError
    }
}

impl From<CheckerError> for AuditError {
    ghost from_gives = { λ _ e. ⊤ };

    fn from(_error: CheckerError) -> AuditError {
        AuditError
    }
}

impl From<CardError> for AuditError {
    ghost from_gives = { λ _ e. ⊤ };

    fn from(_error: CardError) -> AuditError {
        AuditError
    }
}

impl From<ReplayError> for AuditError {
    ghost from_gives = { λ _ e. ⊤ };

    fn from(_error: ReplayError) -> AuditError {
        AuditError
    }
}

impl From<EvalError> for AuditError {
    ghost from_gives = { λ _ e. ⊤ };

    fn from(_error: EvalError) -> AuditError {
        AuditError
    }
}
