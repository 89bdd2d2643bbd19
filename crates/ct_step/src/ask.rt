//! The commands that ask for the result of the last check: its model, values in it, or its derivation (SMT-LIB 2.7, sections
//! 4.2.6 and 4.2.7).
ghost use Rattle.std.specs.Prelude.{ℕ};
ghost use Rattle.ct_command.specs.Command.{get_model, get_value, get_proof};
ghost use Rattle.ct_command.specs.Seen.{all_seen};
ghost use Rattle.ct_step.specs.Done.{IsDone, IsSound, state_of};
ghost use Rattle.ct_step.specs.Known.{AreKnown};

use crate::answer::{Answer, said};
use crate::state::{SessionState, kept_derivation, kept_model};
use ct_command::CommandError;
use ct_log_text::derivation_text;
use ct_model::model_text;
use ct_sexpr::Sexpr;
use ct_stack::ModelValues;
use std::alloc::Global;

/// The number of the error of a question about a model where there is none.
const NO_MODEL: u16 = 52;

/// The number of the error of a question about a derivation where there is none.
pub(crate) const NO_DERIVATION: u16 = 53;

/// The text of the model.
pub(crate) fn model(alloc: Global, state: &SessionState) -> Result<Answer, CommandError>
    requires sound { IsSound (state_of state.now) }
    ensures done { (number : ℕ) → IsDone state.now number get_model state.now result }
{
    let Some(interp) = kept_model(&state.last, &state.kept) else {
        return Err(CommandError::Refused(NO_MODEL));
    };
    match model_text(alloc, &state.stack.scope().sig, interp) {
        Ok(text) => Ok(said(text)),
        Err(_) => Err(CommandError::NoMemory),
    }
}

/// The values of terms in the model, with what is known of the values of other terms in it, which grows by these.
pub(crate) fn values(
    alloc: Global,
    state: &mut SessionState,
    known: &mut Option<ModelValues>,
    terms: &[Sexpr],
) -> Result<Answer, CommandError>
    requires sound { IsSound (state_of state.old) }
    requires known { AreKnown (state_of state.old) known.old }
    ensures done { (number : ℕ) → IsDone state.old number (get_value (all_seen terms.now)) state.new result }
    ensures known { AreKnown (state_of state.old) known.new }
{
    let Some(interp) = kept_model(&state.last, &state.kept) else {
        return Err(CommandError::Refused(NO_MODEL));
    };
    let text = state.stack.values(alloc, interp, known, terms)?;
    Ok(said(text))
}

/// The text of the derivation.
pub(crate) fn proof(alloc: Global, state: &SessionState) -> Result<Answer, CommandError>
    requires sound { IsSound (state_of state.now) }
    ensures done { (number : ℕ) → IsDone state.now number get_proof state.now result }
{
    let Some((number, derivation)) = kept_derivation(&state.last, &state.kept) else {
        return Err(CommandError::Refused(NO_DERIVATION));
    };
    match derivation_text(alloc, &state.stack.scope().sig, number, derivation.rec()) {
        Ok(text) => Ok(said(text)),
        Err(_) => Err(CommandError::NoMemory),
    }
}
