//! How a check is answered.
ghost use Rattle.std.specs.Prelude.{◌≡◌};
ghost use Rattle.ct_step.specs.Evidence.{response_of};

use ct_engine::Verdict;

/// The answer of a check (SMT-LIB 2.7, section 3.9.1).
#[derive(Clone, Copy, Debug, PartialEq, Eq)]
pub enum CheckResponse {
    /// The assertions have a model.
    Sat,
    /// They have none.
    Unsat,
    /// The decisions that were allowed are spent.
    Unknown,
}

/// The answer of a check with this verdict.
pub(crate) fn response_of(verdict: &Verdict) -> CheckResponse
    ensures value { result ≡ response_of verdict.now }
{
    match verdict {
        Verdict::Sat(_) => CheckResponse::Sat,
        Verdict::Unsat(_) => CheckResponse::Unsat,
        Verdict::Unknown(_) => CheckResponse::Unknown,
    }
}
