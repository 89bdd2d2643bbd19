//! Executes commands: what each changes, and what it answers.
ghost use Rattle.std.specs.Prelude.{◌≡◌, None, if◌then◌else◌};
ghost use Rattle.ct_command.specs.Seen.{command_seen};
ghost use Rattle.ct_step.specs.Cache.{IsCacheOf};
ghost use Rattle.ct_step.specs.Done.{IsDone, state_of};
ghost use Rattle.ct_step.specs.State.{declared};
ghost use Rattle.ct_step.specs.Store.{IsSoundWith, IsStored};
ghost use Rattle.ct_step.specs.Known.{AreKnown, only_asks};

use crate::answer::Answer;
use crate::ask::{model, proof, values};
use crate::cache::{Cache, forget_if};
use crate::check::{check, check_assuming};
use crate::cores::{unsat_assumptions, unsat_core};
use crate::declare::{
    assert, declare_block, declare_function, declare_sort, define_function, define_sort,
};
use crate::levels::{pop, push, reset, reset_assertions};
use crate::settings::{
    echo, exit, get_info, get_option, set_diagnostic_output, set_info, set_logic, set_option,
    unsupported,
};
use crate::state::SessionState;
use crate::theorems::growing;
use ct_command::{Command, CommandError};
use ct_engine::Kept;
use ct_stack::ModelValues;
use std::alloc::Global;

/// Does a command, which is the check of this number if it is a check, and answers it.
///
/// It is refused with the first error that applies to it (SMT-LIB 2.7, section 4.2, and the errors of `ct_words`). Then,
/// and where memory runs out, nothing has changed. A check uses the store of what the theory taught in earlier ones and adds to
/// it; what a command takes back of the declarations goes there too. What `get-value` finds of values in the model that stands is
/// known to the next one, as long as commands come that only ask.
pub fn perform(
    alloc: Global,
    state: &mut SessionState,
    store: &mut Kept,
    cache: &mut Cache,
    known: &mut Option<ModelValues>,
    number: u64,
    command: Command<'_>,
) -> Result<Answer, CommandError>
    requires sound { IsSoundWith (state_of state.old) store.old }
    requires cache { IsCacheOf (declared (state_of state.old)) cache.old }
    requires known { AreKnown (state_of state.old) known.old }
    ensures done { IsDone state.old number (command_seen command.entry) state.new result }
    ensures stored { IsStored state.old (command_seen command.entry) state.new result store.old store.new }
    ensures sound { IsSoundWith (state_of state.new) store.new }
    ensures cache { IsCacheOf (declared (state_of state.new)) cache.new }
    ensures known { AreKnown (state_of state.new) known.new }
{
    let asks = only_asks(&command);
    let done = pass_on(alloc, state, store, cache, known, number, command);
    keep_if(known, asks);
    forget_if(cache, matches!(done, Err(CommandError::NoMemory)));
    done
}

// Whether the command asks, and changes nothing.
fn only_asks(command: &Command<'_>) -> bool
    ensures value { result ≡ only_asks (command_seen command.now) }
{
    matches!(
        command,
        Command::GetOption(_)
            | Command::GetInfo(_)
            | Command::GetModel
            | Command::GetValue(_)
            | Command::GetProof
            | Command::GetUnsatCore
            | Command::GetUnsatAssumptions
            | Command::Echo(_)
    )
}

// Keeps what is known of values, or forgets it.
fn keep_if(known: &mut Option<ModelValues>, keeps: bool)
    ensures value { known.new ≡ (if keeps then known.old else None) }
{
    if !keeps {
        *known = None;
    }
}

// Passes a command on by its kind. What is known of values grows by what `get-value` finds in the model that stands.
fn pass_on(
    alloc: Global,
    state: &mut SessionState,
    store: &mut Kept,
    cache: &mut Cache,
    known: &mut Option<ModelValues>,
    number: u64,
    command: Command<'_>,
) -> Result<Answer, CommandError>
    requires sound { IsSoundWith (state_of state.old) store.old }
    requires cache { IsCacheOf (declared (state_of state.old)) cache.old }
    requires known { AreKnown (state_of state.old) known.old }
    ensures done { IsDone state.old number (command_seen command.entry) state.new result }
    ensures stored { IsStored state.old (command_seen command.entry) state.new result store.old store.new }
    ensures sound { IsSoundWith (state_of state.new) store.new }
    ensures cache { IsCacheOf (declared (state_of state.new)) cache.new }
    ensures known { AreKnown (state_of state.old) known.new }
{
    growing();
    match command {
        Command::SetLogic(name) => set_logic(alloc, state, name),
        Command::SetOption(setting) => set_option(alloc, state, setting),
        Command::SetDiagnosticOutput(text) => set_diagnostic_output(alloc, state, text),
        Command::GetOption(name) => get_option(alloc, state, name),
        Command::SetInfo => set_info(alloc, state),
        Command::GetInfo(info) => get_info(alloc, state, info),
        Command::DeclareSort(name, params) => declare_sort(alloc, state, name, params),
        Command::DefineSort(name, params, body) => define_sort(alloc, state, name, params, body),
        Command::DeclareBlock(family, heads, bodies) => {
            declare_block(alloc, state, family, heads, bodies)
        }
        Command::DeclareFun(name, args, sort) => declare_function(alloc, state, name, args, sort),
        Command::DefineFun(name, params, sort, term) => {
            define_function(alloc, state, name, params, sort, term)
        }
        Command::Assert(term, label) => assert(alloc, state, term, label),
        Command::CheckSat => check(alloc, state, store, cache, number),
        Command::CheckSatAssuming(terms) => check_assuming(alloc, state, store, cache, terms),
        Command::Push(count) => push(alloc, state, cache, count),
        Command::Pop(count) => pop(alloc, state, store, cache, count),
        Command::ResetAssertions => reset_assertions(alloc, state, store, cache),
        Command::Reset => reset(alloc, state, store, cache),
        Command::GetModel => model(alloc, state),
        Command::GetValue(terms) => values(alloc, state, known, terms),
        Command::GetProof => proof(alloc, state),
        Command::GetUnsatCore => unsat_core(alloc, state, cache),
        Command::GetUnsatAssumptions => unsat_assumptions(alloc, state, cache),
        Command::Echo(expr) => echo(alloc, expr),
        Command::Exit => exit(alloc, state),
        Command::Unsupported => unsupported(alloc),
    }
}
