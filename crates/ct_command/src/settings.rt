//! The commands that set and ask for options and infos.
ghost use Rattle.std.specs.Prelude.{◌≡◌, option_map};
ghost use Rattle.ct_sexpr.specs.View.{expression_of};
ghost use Rattle.ct_command.specs.Tables.{beside};
ghost use Rattle.ct_command.specs.OptionForms.{options, client_options, infos, truths, truth_of, behaviors, behavior_of, channel_set, set_to, value_set, logic_set, option_set, option_asked, info_set, info_asked};
ghost use Rattle.ct_command.specs.Reading.{Reads};
ghost use Rattle.ct_command.specs.Seen.{all_seen, command_seen};

use crate::command::Command;
use crate::error::{CommandError, WRONG_FORM};
use crate::items::{keyword_of, name_of, numeral_of, text_of};
use crate::option::{
    BooleanOption, Channel, ErrorBehavior, Info, NumeralOption, OptionName, Setting,
};
use ct_sexpr::Sexpr;

/// A logic by its name: `L`.
pub(crate) fn logic_set(args: &[Sexpr]) -> Result<Command<'_>, CommandError>
    ensures value { Reads command_seen (logic_set (all_seen args.now)) result }
{
    match args {
        [logic] => match name_of(logic) {
            Some(name) => Ok(Command::SetLogic(name)),
            None => Err(CommandError::Refused(WRONG_FORM)),
        },
        [] => Err(CommandError::Refused(WRONG_FORM)),
        [_, _, ..] => Err(CommandError::Refused(WRONG_FORM)),
    }
}

/// An option and its value: `K v`.
pub(crate) fn option_set(args: &[Sexpr]) -> Result<Command<'_>, CommandError>
    ensures value { Reads command_seen (option_set (all_seen args.now)) result }
{
    match args {
        [] | [_] => Err(CommandError::Refused(WRONG_FORM)),
        [keyword, value] => match keyword_of(keyword) {
            Some(keyword) => value_set(option_of(keyword), value),
            None => Err(CommandError::Refused(WRONG_FORM)),
        },
        [_, _, _, ..] => Err(CommandError::Refused(WRONG_FORM)),
    }
}

// The value of what may be no option.
fn value_set(option: Option<OptionName>, value: &Sexpr) -> Result<Command<'_>, CommandError>
    ensures value { Reads command_seen (value_set option (expression_of value.now)) result }
{
    match option {
        Some(option) => match set_to(option, value) {
            Some(command) => Ok(command),
            None => Err(CommandError::Refused(WRONG_FORM)),
        },
        None => Ok(Command::Unsupported),
    }
}

// An option that is set to a value of its kind.
fn set_to(option: OptionName, value: &Sexpr) -> Option<Command<'_>>
    ensures command { set_to option (expression_of value.now) ≡ option_map command_seen result }
{
    match option {
        OptionName::Boolean(option) => {
            let truth = truth_of(value)?;
            Some(Command::SetOption(Setting::Boolean(option, truth)))
        }
        OptionName::Numeral(option) => {
            let number = numeral_of(value)?;
            Some(Command::SetOption(Setting::Numeral(option, number)))
        }
        OptionName::ErrorBehavior => {
            let behavior = behavior_of(value)?;
            Some(Command::SetOption(Setting::ErrorBehavior(behavior)))
        }
        OptionName::Channel(channel) => {
            let content = text_of(value)?;
            Some(channel_set(channel, value, content))
        }
    }
}

// A channel that is set to a string literal, which says this. The regular one has one value, so that nothing is changed.
fn channel_set<'a>(channel: Channel, value: &'a Sexpr, content: &[u8]) -> Command<'a>
    ensures command { command_seen result ≡ channel_set channel (expression_of value.now) content.now }
{
    match channel {
        Channel::Diagnostic => Command::SetDiagnosticOutput(value),
        Channel::Regular => {
            if b"stdout".as_slice() == content {
                return Command::SetInfo;
            }
            Command::Unsupported
        }
    }
}

// What an expression says of errors.
fn behavior_of(expr: &Sexpr) -> Option<ErrorBehavior>
    ensures behavior { behavior_of (expression_of expr.now) ≡ result }
{
    behavior_named(name_of(expr)?)
}

// What follows an error, by its words.
fn behavior_named(name: &[u8]) -> Option<ErrorBehavior>
    ensures behavior { result ≡ beside behaviors name.now }
{
    if b"continued-execution".as_slice() == name {
        return Some(ErrorBehavior::ContinuedExecution);
    }
    if b"immediate-exit".as_slice() == name {
        return Some(ErrorBehavior::ImmediateExit);
    }
    None
}

// The Boolean value that an expression is.
fn truth_of(expr: &Sexpr) -> Option<bool>
    ensures truth { truth_of (expression_of expr.now) ≡ result }
{
    truth_named(name_of(expr)?)
}

// The Boolean value of this name.
fn truth_named(name: &[u8]) -> Option<bool>
    ensures truth { result ≡ beside truths name.now }
{
    if b"true".as_slice() == name {
        return Some(true);
    }
    if b"false".as_slice() == name {
        return Some(false);
    }
    None
}

/// An option that is asked for: `K`.
pub(crate) fn option_asked(args: &[Sexpr]) -> Result<Command<'_>, CommandError>
    ensures value { Reads command_seen (option_asked (all_seen args.now)) result }
{
    match args {
        [keyword] => match keyword_of(keyword) {
            Some(keyword) => match option_of(keyword) {
                Some(option) => Ok(Command::GetOption(option)),
                None => Ok(Command::Unsupported),
            },
            None => Err(CommandError::Refused(WRONG_FORM)),
        },
        [] => Err(CommandError::Refused(WRONG_FORM)),
        [_, _, ..] => Err(CommandError::Refused(WRONG_FORM)),
    }
}

/// A keyword, and a value or none: `K`, or `K v`.
pub(crate) fn info_set(args: &[Sexpr]) -> Result<Command<'_>, CommandError>
    ensures value { Reads command_seen (info_set (all_seen args.now)) result }
{
    match args {
        [keyword] | [keyword, _] => match keyword_of(keyword) {
            Some(_) => Ok(Command::SetInfo),
            None => Err(CommandError::Refused(WRONG_FORM)),
        },
        [] => Err(CommandError::Refused(WRONG_FORM)),
        [_, _, _, ..] => Err(CommandError::Refused(WRONG_FORM)),
    }
}

/// An info that is asked for: `K`.
pub(crate) fn info_asked(args: &[Sexpr]) -> Result<Command<'_>, CommandError>
    ensures value { Reads command_seen (info_asked (all_seen args.now)) result }
{
    match args {
        [keyword] => match keyword_of(keyword) {
            Some(keyword) => match info_of(keyword) {
                Some(info) => Ok(Command::GetInfo(info)),
                None => Ok(Command::Unsupported),
            },
            None => Err(CommandError::Refused(WRONG_FORM)),
        },
        [] => Err(CommandError::Refused(WRONG_FORM)),
        [_, _, ..] => Err(CommandError::Refused(WRONG_FORM)),
    }
}

// The option of this keyword.
fn option_of(keyword: &[u8]) -> Option<OptionName>
    ensures value { result ≡ beside options keyword.now }
{
    if b":print-success".as_slice() == keyword {
        return Some(OptionName::Boolean(BooleanOption::PrintSuccess));
    }
    if b":global-declarations".as_slice() == keyword {
        return Some(OptionName::Boolean(BooleanOption::GlobalDeclarations));
    }
    if b":reproducible-resource-limit".as_slice() == keyword {
        return Some(OptionName::Numeral(NumeralOption::ResourceLimit));
    }
    if b":produce-models".as_slice() == keyword {
        return Some(OptionName::Boolean(BooleanOption::ProduceModels));
    }
    if b":produce-proofs".as_slice() == keyword {
        return Some(OptionName::Boolean(BooleanOption::ProduceProofs));
    }
    if b":produce-assertions".as_slice() == keyword {
        return Some(OptionName::Boolean(BooleanOption::ProduceAssertions));
    }
    if b":produce-assignments".as_slice() == keyword {
        return Some(OptionName::Boolean(BooleanOption::ProduceAssignments));
    }
    if b":produce-unsat-cores".as_slice() == keyword {
        return Some(OptionName::Boolean(BooleanOption::ProduceUnsatCores));
    }
    if b":produce-unsat-assumptions".as_slice() == keyword {
        return Some(OptionName::Boolean(BooleanOption::ProduceUnsatAssumptions));
    }
    if b":verbosity".as_slice() == keyword {
        return Some(OptionName::Numeral(NumeralOption::Verbosity));
    }
    if b":minimal-unsat-cores".as_slice() == keyword {
        return Some(OptionName::Boolean(BooleanOption::MinimalUnsatCores));
    }
    client_option_of(keyword)
}

// The option of this keyword among those that clients set whatever the solver.
fn client_option_of(keyword: &[u8]) -> Option<OptionName>
    ensures value { result ≡ beside client_options keyword.now }
{
    if b":diagnostic-output-channel".as_slice() == keyword {
        return Some(OptionName::Channel(Channel::Diagnostic));
    }
    if b":regular-output-channel".as_slice() == keyword {
        return Some(OptionName::Channel(Channel::Regular));
    }
    if b":random-seed".as_slice() == keyword {
        return Some(OptionName::Numeral(NumeralOption::RandomSeed));
    }
    if b":error-behavior".as_slice() == keyword {
        return Some(OptionName::ErrorBehavior);
    }
    None
}

// The info of this keyword.
fn info_of(keyword: &[u8]) -> Option<Info>
    ensures value { result ≡ beside infos keyword.now }
{
    if b":name".as_slice() == keyword {
        return Some(Info::Name);
    }
    if b":version".as_slice() == keyword {
        return Some(Info::Version);
    }
    if b":authors".as_slice() == keyword {
        return Some(Info::Authors);
    }
    if b":error-behavior".as_slice() == keyword {
        return Some(Info::ErrorBehavior);
    }
    if b":assertion-stack-levels".as_slice() == keyword {
        return Some(Info::AssertionStackLevels);
    }
    if b":reason-unknown".as_slice() == keyword {
        return Some(Info::ReasonUnknown);
    }
    None
}
