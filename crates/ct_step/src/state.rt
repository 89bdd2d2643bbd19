//! What commands change, and the result of the last check.
ghost use Rattle.std.specs.Prelude.{◌≡◌};
ghost use Rattle.ct_step.specs.State.{model_kept, derivation_kept, derived_kept, undecided_kept};
ghost use Rattle.ct_step.specs.Done.{kept_of, channel_in, interp_seen, derivation_seen, derived_seen, number_in, assumed_in, is_of_assumptions};

use crate::options::Options;
use crate::response::CheckResponse;
use ct_engine::Verdict;
use ct_eval::Interp;
use ct_log::Derivation;
use ct_sexpr::Bytes;
use ct_shrink::Shrunk;
use ct_stack::{AssertionStack, Assumption};

/// What commands change.
#[derive(Drop)]
pub struct SessionState {
    /// What is declared, defined and asserted.
    pub stack: AssertionStack,
    /// For each assertion in force, in order, the name by which it is labelled, where it has one.
    pub labels: Vec<Option<Bytes>>,
    /// The options.
    pub options: Options,
    /// The diagnostic channel as it was set, as it is written; none where it was not.
    pub diagnostic_output: Option<Bytes>,
    /// The answers of all checks so far.
    pub responses: Vec<CheckResponse>,
    /// The last verdict.
    pub last: Option<Verdict>,
    /// The last core that was shrunk.
    pub shrunk: Option<Shrunk>,
    /// What was asked of the check that gave the last verdict, as long as that verdict stands.
    pub kept: Option<Asked>,
}

/// What was asked of a check, beside the assertions in force.
#[derive(Debug, Drop)]
pub struct Asked {
    /// The assumptions.
    pub assumed: Vec<Assumption>,
    /// The number of the check among those without assumptions, from 1, where it is one of these.
    pub number: Option<u64>,
}

/// The diagnostic channel, as it is written.
pub(crate) fn diagnostic_output(channel: &Option<Bytes>) -> &[u8]
    ensures value { result.now ≡ channel_in channel.now }
{
    match channel {
        Some(text) => text.as_slice(),
        None => b"\"stderr\"",
    }
}

/// The model of the last verdict, where that stands and has one.
pub(crate) fn kept_model<'a>(last: &'a Option<Verdict>, kept: &Option<Asked>) -> Option<&'a Interp>
    ensures value { interp_seen result ≡ model_kept (kept_of last.now kept.now) }
{
    if kept.is_none() {
        return None;
    }
    match last {
        Some(Verdict::Sat(interp)) => Some(interp),
        Some(Verdict::Unsat(_)) | Some(Verdict::Unknown(_)) | None => None,
    }
}

/// The derivation of the last verdict with the number of its check, where that verdict stands, has one, and is of a check without
/// assumptions.
pub(crate) fn kept_derivation<'a>(
    last: &'a Option<Verdict>,
    kept: &Option<Asked>,
) -> Option<(u64, &'a Derivation)>
    ensures value { derivation_seen result ≡ derivation_kept (kept_of last.now kept.now) }
{
    let number = kept_number(kept)?;
    let derivation = kept_refutation(last, kept)?;
    Some((number, derivation))
}

// The number of the check of the last verdict, where that stands and is of a check without assumptions.
fn kept_number(kept: &Option<Asked>) -> Option<u64>
    ensures value { result ≡ number_in kept.now }
{
    match kept {
        Some(asked) => asked.number,
        None => None,
    }
}

/// The derivation of the last verdict, where that stands and has one.
pub(crate) fn kept_refutation<'a>(
    last: &'a Option<Verdict>,
    kept: &Option<Asked>,
) -> Option<&'a Derivation>
    ensures value { derived_seen result ≡ derived_kept (kept_of last.now kept.now) }
{
    if kept.is_none() {
        return None;
    }
    match last {
        Some(Verdict::Unsat(derivation)) => Some(derivation),
        Some(Verdict::Sat(_)) | Some(Verdict::Unknown(_)) | None => None,
    }
}

/// What was assumed by the check of the last verdict, where that stands.
pub(crate) fn kept_assumptions(kept: &Option<Asked>) -> &[Assumption]
    ensures value { result.now ≡ assumed_in kept.now }
{
    match kept {
        Some(asked) => asked.assumed.as_slice(),
        None => &[],
    }
}

/// Whether the last verdict stands and is of a check with assumptions, even if these were none.
pub(crate) fn is_of_assumptions(kept: &Option<Asked>) -> bool
    ensures value { result ≡ is_of_assumptions kept.now }
{
    match kept {
        Some(asked) => asked.number.is_none(),
        None => false,
    }
}

/// Whether the last verdict stands and is printed as `unknown`.
pub(crate) fn is_undecided(last: &Option<Verdict>, kept: &Option<Asked>) -> bool
    ensures value { result ≡ undecided_kept (kept_of last.now kept.now) }
{
    if kept.is_none() {
        return false;
    }
    match last {
        Some(Verdict::Unknown(_)) => true,
        Some(Verdict::Sat(_)) | Some(Verdict::Unsat(_)) | None => false,
    }
}
