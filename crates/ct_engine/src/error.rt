//! Why a check gave no verdict.
ghost use Rattle.std.specs.Prelude.{◌≡◌};
ghost use Rattle.ct_engine.specs.declared.error.SolveError.TheVariants.{NoMemory};

use ct_build::BuildError;
use ct_card::CardError;
use ct_eval::EvalError;
use ct_explain::ExplainError;
use ct_kept::KeptError;
use ct_log::LogError;
use ct_sat::SatError;
use ct_terms::TermError;
use ct_theory::TheoryError;
use std::alloc::{AllocError, AllocFailed};

/// Why a check gave no verdict.
#[derive(Clone, Copy, Debug, PartialEq, Eq)]
pub enum SolveError {
    /// The closure of the assertions has more than 200,000 terms.
    TooLarge,
    /// Memory ran out.
    NoMemory,
}

impl From<AllocError> for SolveError {
    ghost from_gives = { λ _ e. e ≡ NoMemory };

    fn from(_error: AllocError) -> SolveError {
        SolveError::NoMemory
    }
}

impl<T: Drop> From<AllocFailed<T>> for SolveError {
    ghost from_gives = { λ _ e. e ≡ NoMemory };

    fn from(_error: AllocFailed<T>) -> SolveError {
        SolveError::NoMemory
    }
}

impl From<BuildError> for SolveError {
    ghost from_gives = { λ _ e. e ≡ NoMemory };

    fn from(_error: BuildError) -> SolveError {
        SolveError::NoMemory
    }
}

impl From<CardError> for SolveError {
    ghost from_gives = { λ _ e. e ≡ NoMemory };

    fn from(_error: CardError) -> SolveError {
        SolveError::NoMemory
    }
}

impl From<EvalError> for SolveError {
    ghost from_gives = { λ _ e. e ≡ NoMemory };

    fn from(_error: EvalError) -> SolveError {
        SolveError::NoMemory
    }
}

impl From<ExplainError> for SolveError {
    ghost from_gives = { λ _ e. e ≡ NoMemory };

    fn from(_error: ExplainError) -> SolveError {
        SolveError::NoMemory
    }
}

impl From<KeptError> for SolveError {
    ghost from_gives = { λ _ e. e ≡ NoMemory };

    fn from(_error: KeptError) -> SolveError {
        SolveError::NoMemory
    }
}

impl From<LogError> for SolveError {
    ghost from_gives = { λ _ e. e ≡ NoMemory };

    fn from(_error: LogError) -> SolveError {
        SolveError::NoMemory
    }
}

impl From<SatError> for SolveError {
    ghost from_gives = { λ _ e. e ≡ NoMemory };

    fn from(_error: SatError) -> SolveError {
        SolveError::NoMemory
    }
}

impl From<TermError> for SolveError {
    ghost from_gives = { λ _ e. e ≡ NoMemory };

    fn from(_error: TermError) -> SolveError {
        SolveError::NoMemory
    }
}

impl From<TheoryError> for SolveError {
    ghost from_gives = { λ _ e. e ≡ NoMemory };

    fn from(_error: TheoryError) -> SolveError {
        SolveError::NoMemory
    }
}
