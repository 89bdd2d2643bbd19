//! The commands that set and ask for options and infos (SMT-LIB 2.7, sections 4.1.7, 4.1.8 and 4.2.1), and those that change
//! nothing.
ghost use Rattle.std.specs.Prelude.{◌≡◌, ◌≢◌, ◌↔◌, ℕ, true, IsTrue};
ghost use Rattle.ct_sexpr.specs.View.{expression_of};
ghost use Rattle.ct_command.specs.Command.{set_logic, set_option, set_diagnostic_output, get_option, set_info, get_info, echo, exit, unsupported};
ghost use Rattle.ct_stack.specs.Stack.{first_stack};
ghost use Rattle.ct_step.specs.Options.{sets_global};
ghost use Rattle.ct_step.specs.Done.{IsDone};

use crate::answer::{Answer, quiet, said};
use crate::infos::{UNSUPPORTED, info_text};
use crate::logics::is_logic;
use crate::options::sets_global;
use crate::state::{SessionState, diagnostic_output};
use ct_command::{CommandError, Info, OptionName, Setting};
use ct_sexpr::{Sexpr, sexpr_text};
use ct_stack::AssertionStack;
use std::alloc::Global;

/// The number of the error of an option that cannot be set any more.
const NOT_NOW: u16 = 54;

/// The number of the error of a logic that there is not.
const UNKNOWN_LOGIC: u16 = 55;

/// Answers `set-logic`. What a logic promises is not checked: each term is taken or refused by itself.
pub(crate) fn set_logic(
    alloc: Global,
    state: &SessionState,
    name: &[u8],
) -> Result<Answer, CommandError>
    ensures done { (number : ℕ) → IsDone state.now number (set_logic name.now) state.now result }
{
    if !is_logic(name) {
        return Err(CommandError::Refused(UNKNOWN_LOGIC));
    }
    Ok(quiet(alloc, state.options)?)
}

/// Sets an option.
pub(crate) fn set_option(
    alloc: Global,
    state: &mut SessionState,
    setting: Setting,
) -> Result<Answer, CommandError>
    ensures done { (number : ℕ) → IsDone state.old number (set_option setting) state.new result }
{
    if comes_late(&state.stack, setting) {
        return Err(CommandError::Refused(NOT_NOW));
    }
    let options = state.options.with_setting(setting);
    let answer = quiet(alloc, options)?;
    state.options = options;
    Ok(answer)
}

// Whether the option cannot be set any more.
fn comes_late(stack: &AssertionStack, setting: Setting) -> bool
    ensures late { IsTrue result ↔ ((sets_global setting ≡ true) × (stack.now ≢ first_stack)) }
{
    sets_global(setting) && !stack.is_first()
}

/// Sets the diagnostic channel, which is stored as it is written.
pub(crate) fn set_diagnostic_output(
    alloc: Global,
    state: &mut SessionState,
    expr: &Sexpr,
) -> Result<Answer, CommandError>
    ensures done { (number : ℕ) → IsDone state.old number (set_diagnostic_output (expression_of expr.now)) state.new result }
{
    let answer = quiet(alloc, state.options)?;
    match sexpr_text(alloc, expr) {
        Ok(text) => {
            state.diagnostic_output = Some(text);
            Ok(answer)
        }
        Err(_) => Err(CommandError::NoMemory),
    }
}

/// Answers `get-option`.
pub(crate) fn get_option(
    alloc: Global,
    state: &SessionState,
    name: OptionName,
) -> Result<Answer, CommandError>
    ensures done { (number : ℕ) → IsDone state.now number (get_option name) state.now result }
{
    let diagnostic = diagnostic_output(&state.diagnostic_output);
    let text = state.options.value_text(alloc, diagnostic, name)?;
    Ok(said(text))
}

/// Answers `set-info`, which changes nothing.
pub(crate) fn set_info(alloc: Global, state: &SessionState) -> Result<Answer, CommandError>
    ensures done { (number : ℕ) → IsDone state.now number set_info state.now result }
{
    Ok(quiet(alloc, state.options)?)
}

/// Answers `get-info`.
pub(crate) fn get_info(
    alloc: Global,
    state: &SessionState,
    info: Info,
) -> Result<Answer, CommandError>
    ensures done { (number : ℕ) → IsDone state.now number (get_info info) state.now result }
{
    let text = info_text(alloc, state, info)?;
    Ok(said(text))
}

/// Answers `echo`.
pub(crate) fn echo(alloc: Global, expr: &Sexpr) -> Result<Answer, CommandError>
    ensures done { (state : SessionState) (number : ℕ) → IsDone state number (echo (expression_of expr.now)) state result }
{
    match sexpr_text(alloc, expr) {
        Ok(text) => Ok(said(text.into_vec())),
        Err(_) => Err(CommandError::NoMemory),
    }
}

/// Answers `exit`, with which the script ends.
pub(crate) fn exit(alloc: Global, state: &SessionState) -> Result<Answer, CommandError>
    ensures done { (number : ℕ) → IsDone state.now number exit state.now result }
{
    let answer = quiet(alloc, state.options)?;
    Ok(Answer {
        stop: true,
        ..answer
    })
}

/// Answers a command, an option or an info that is not supported.
pub(crate) fn unsupported(alloc: Global) -> Result<Answer, CommandError>
    ensures done { (state : SessionState) (number : ℕ) → IsDone state number unsupported state result }
{
    let text = Vec::from_slice(alloc, UNSUPPORTED)?;
    Ok(said(text))
}
