//! What the solver says of itself (SMT-LIB 2.7, section 4.1.8).
ghost use Rattle.std.specs.Prelude.{◌≡◌, ◌++◌, codes, IfOk};
ghost use Rattle.ct_step.specs.Options.{behavior_text};
ghost use Rattle.ct_step.specs.Infos.{info_text, levels_text};
ghost use Rattle.ct_step.specs.Done.{state_of};

use crate::options::behavior_text;
use crate::state::{SessionState, is_undecided};
use ct_command::{ErrorBehavior, Info};
use std::alloc::{AllocError, Global};

/// The answer to what the solver does not do or does not know.
pub(crate) const UNSUPPORTED: &[u8] = b"unsupported";

/// An info, as it is written.
pub(crate) fn info_text(
    alloc: Global,
    state: &SessionState,
    info: Info,
) -> Result<Vec<u8>, AllocError>
    ensures text { IfOk result (λ text. text.items ≡ info_text (state_of state.now) info) }
{
    match info {
        Info::Name => Vec::from_slice(alloc, b"(:name \"cosmt\")"),
        Info::Version => Vec::from_slice(alloc, b"(:version \"1.0\")"),
        Info::Authors => Vec::from_slice(alloc, b"(:authors \"cosmt\")"),
        Info::ErrorBehavior => error_text(alloc, state.options.error_behavior),
        Info::AssertionStackLevels => levels_text(alloc, state.stack.levels()),
        Info::ReasonUnknown => reason_text(alloc, state),
    }
}

// What follows an error.
fn error_text(alloc: Global, behavior: ErrorBehavior) -> Result<Vec<u8>, AllocError>
    ensures text { IfOk result (λ text. text.items ≡ codes "(:error-behavior " ++ (behavior_text behavior ++ codes ")")) }
{
    let mut text = Vec::from_slice(alloc, b"(:error-behavior ")?;
    text.extend_from_slice(behavior_text(behavior))?;
    text.extend_from_slice(b")")?;
    Ok(text)
}

// How many levels stand.
fn levels_text(alloc: Global, levels: usize) -> Result<Vec<u8>, AllocError>
    ensures text { IfOk result (λ text. text.items ≡ levels_text levels) }
{
    let text = format!(in alloc; "(:assertion-stack-levels {levels})")?;
    Vec::from_slice(alloc, text.as_bytes())
}

// Why the last check was answered `unknown`, where it was.
fn reason_text(alloc: Global, state: &SessionState) -> Result<Vec<u8>, AllocError>
    ensures text { IfOk result (λ text. text.items ≡ info_text (state_of state.now) Info.ReasonUnknown) }
{
    if is_undecided(&state.last, &state.kept) {
        return Vec::from_slice(alloc, b"(:reason-unknown incomplete)");
    }
    Vec::from_slice(alloc, UNSUPPORTED)
}
