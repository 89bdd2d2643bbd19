//! Recognises the command that an expression is.
ghost use Rattle.std.specs.Prelude.{◌≡◌, [], ◌∷◌, Some, None, option_map};
ghost use Rattle.ct_sexpr.specs.View.{expression_of};
ghost use Rattle.ct_command.specs.Forms.{declared_sort, defined_sort, free_sort, declared_const, declared_fun, defined_fun, defined_const, level_count, valued, some_terms, alone, echoed};
ghost use Rattle.ct_command.specs.Reading.{Reads, Gives, command, of_items, after_word, said};
ghost use Rattle.ct_command.specs.Command.{push, pop};
ghost use Rattle.ct_command.specs.Seen.{all_seen, head_seen, command_seen};

use crate::block::{declared_type, declared_types};
use crate::command::{Command, Family, SortHead};
use crate::error::{CommandError, UNKNOWN_COMMAND, WRONG_FORM};
use crate::forms::{head_by, names, parameters};
use crate::items::{is_text, items_of, name_of, numeral_of, word_of};
use crate::labels::{asserted, assumed};
use crate::settings::{info_asked, info_set, logic_set, option_asked, option_set};
use crate::words::{Word, known_word};
use ct_sexpr::Sexpr;
use std::alloc::Global;

/// The most arguments of an uninterpreted sort.
const MOST_ARGUMENTS: u128 = 255;

/// The command that an expression is. It is refused with 57 where the expression is no list that begins with a word, or has
/// not the form that its word asks for, and with 56 where the word begins no command.
pub fn command_of(alloc: Global, expr: &Sexpr) -> Result<Command<'_>, CommandError>
    ensures value { Gives command_seen (command (expression_of expr.now)) result }
{
    match items_of(expr) {
        Some(items) => by_items(alloc, items),
        None => Err(CommandError::Refused(WRONG_FORM)),
    }
}

// The same, by its items.
fn by_items(alloc: Global, items: &[Sexpr]) -> Result<Command<'_>, CommandError>
    ensures value { Gives command_seen (of_items (Some (all_seen items.now))) result }
{
    match items {
        [] => Err(CommandError::Refused(WRONG_FORM)),
        [head, args @ ..] => after_head(alloc, head, args),
    }
}

// The command whose word is the head.
fn after_head<'a>(
    alloc: Global,
    head: &'a Sexpr,
    args: &'a [Sexpr],
) -> Result<Command<'a>, CommandError>
    ensures value { Gives command_seen (of_items (Some (expression_of head.now ∷ all_seen args.now))) result }
{
    let Some(word) = word_of(head) else {
        return Err(CommandError::Refused(WRONG_FORM));
    };
    match known_word(word) {
        Some(known) => said(alloc, known, args),
        None => Err(CommandError::Refused(UNKNOWN_COMMAND)),
    }
}

// The command that the expressions after the word say.
fn said<'a>(alloc: Global, word: Word, args: &'a [Sexpr]) -> Result<Command<'a>, CommandError>
    ensures value { Reads command_seen (said word (all_seen args.now)) result }
{
    match word {
        Word::SetLogic => logic_set(args),
        Word::SetOption => option_set(args),
        Word::GetOption => option_asked(args),
        Word::SetInfo => info_set(args),
        Word::GetInfo => info_asked(args),
        Word::DeclareSort => declared_sort(args),
        Word::DefineSort => defined_sort(alloc, args),
        Word::DeclareDatatype => declared_type(alloc, Family::Data, args),
        Word::DeclareCodatatype => declared_type(alloc, Family::Codata, args),
        Word::DeclareDatatypes => declared_types(alloc, Family::Data, args),
        Word::DeclareCodatatypes => declared_types(alloc, Family::Codata, args),
        Word::DeclareConst => declared_const(args),
        Word::DeclareFun => declared_fun(args),
        Word::DefineFun => defined_fun(alloc, args),
        Word::DefineConst => defined_const(alloc, args),
        Word::Assert => asserted(args),
        Word::CheckSat => alone(Command::CheckSat, args),
        Word::CheckSatAssuming => assumed(args),
        Word::Push => pushed(args),
        Word::Pop => popped(args),
        Word::ResetAssertions => alone(Command::ResetAssertions, args),
        Word::Reset => alone(Command::Reset, args),
        Word::GetModel => alone(Command::GetModel, args),
        Word::GetValue => valued(args),
        Word::GetProof => alone(Command::GetProof, args),
        Word::GetUnsatCore => alone(Command::GetUnsatCore, args),
        Word::GetUnsatAssumptions => alone(Command::GetUnsatAssumptions, args),
        Word::Echo => echoed(args),
        Word::Exit => alone(Command::Exit, args),
        Word::Unsupported => Ok(Command::Unsupported),
    }
}

// `N n`.
fn declared_sort(args: &[Sexpr]) -> Result<Command<'_>, CommandError>
    ensures value { Reads command_seen (declared_sort (all_seen args.now)) result }
{
    match head_by(args) {
        Some(head) => free_sort(head),
        None => Err(CommandError::Refused(WRONG_FORM)),
    }
}

// An uninterpreted sort with few arguments.
fn free_sort(head: SortHead<'_>) -> Result<Command<'_>, CommandError>
    ensures value { Reads command_seen (free_sort (head_seen head.entry)) result }
{
    if head.arity > MOST_ARGUMENTS {
        return Err(CommandError::Refused(WRONG_FORM));
    }
    Ok(Command::DeclareSort(head.name, head.arity as u8))
}

// `N (X ..) S`.
fn defined_sort(alloc: Global, args: &[Sexpr]) -> Result<Command<'_>, CommandError>
    ensures value { Reads command_seen (defined_sort (all_seen args.now)) result }
{
    match args {
        [] | [_] | [_, _] => Err(CommandError::Refused(WRONG_FORM)),
        [name, params, sort] => match (name_of(name), items_of(params)) {
            (Some(name), Some(params)) => {
                let params = names(alloc, params)?;
                Ok(Command::DefineSort(name, params, sort))
            }
            (Some(_), None) | (None, _) => Err(CommandError::Refused(WRONG_FORM)),
        },
        [_, _, _, _, ..] => Err(CommandError::Refused(WRONG_FORM)),
    }
}

// `N S`.
fn declared_const(args: &[Sexpr]) -> Result<Command<'_>, CommandError>
    ensures value { Reads command_seen (declared_const (all_seen args.now)) result }
{
    match args {
        [] | [_] => Err(CommandError::Refused(WRONG_FORM)),
        [name, sort] => match name_of(name) {
            Some(name) => Ok(Command::DeclareFun(name, &[], sort)),
            None => Err(CommandError::Refused(WRONG_FORM)),
        },
        [_, _, _, ..] => Err(CommandError::Refused(WRONG_FORM)),
    }
}

// `N (S ..) S`.
fn declared_fun(args: &[Sexpr]) -> Result<Command<'_>, CommandError>
    ensures value { Reads command_seen (declared_fun (all_seen args.now)) result }
{
    match args {
        [] | [_] | [_, _] => Err(CommandError::Refused(WRONG_FORM)),
        [name, sorts, sort] => match (name_of(name), items_of(sorts)) {
            (Some(name), Some(sorts)) => Ok(Command::DeclareFun(name, sorts, sort)),
            (Some(_), None) | (None, _) => Err(CommandError::Refused(WRONG_FORM)),
        },
        [_, _, _, _, ..] => Err(CommandError::Refused(WRONG_FORM)),
    }
}

// `N ((x S) ..) S t`.
fn defined_fun(alloc: Global, args: &[Sexpr]) -> Result<Command<'_>, CommandError>
    ensures value { Reads command_seen (defined_fun (all_seen args.now)) result }
{
    match args {
        [] | [_] | [_, _] | [_, _, _] => Err(CommandError::Refused(WRONG_FORM)),
        [name, params, sort, term] => match name_of(name) {
            Some(name) => {
                let params = parameters(alloc, params)?;
                Ok(Command::DefineFun(name, params, sort, term))
            }
            None => Err(CommandError::Refused(WRONG_FORM)),
        },
        [_, _, _, _, _, ..] => Err(CommandError::Refused(WRONG_FORM)),
    }
}

// `N S t`.
fn defined_const(alloc: Global, args: &[Sexpr]) -> Result<Command<'_>, CommandError>
    ensures value { Reads command_seen (defined_const (all_seen args.now)) result }
{
    match args {
        [] | [_] | [_, _] => Err(CommandError::Refused(WRONG_FORM)),
        [name, sort, term] => match name_of(name) {
            Some(name) => Ok(Command::DefineFun(name, Vec::new(alloc), sort, term)),
            None => Err(CommandError::Refused(WRONG_FORM)),
        },
        [_, _, _, _, ..] => Err(CommandError::Refused(WRONG_FORM)),
    }
}

// Levels that are added: nothing, or a number.
fn pushed(args: &[Sexpr]) -> Result<Command<'_>, CommandError>
    ensures value { Reads command_seen (option_map push (level_count (all_seen args.now))) result }
{
    match level_count(args) {
        Some(count) => Ok(Command::Push(count)),
        None => Err(CommandError::Refused(WRONG_FORM)),
    }
}

// Levels that are removed: nothing, or a number.
fn popped(args: &[Sexpr]) -> Result<Command<'_>, CommandError>
    ensures value { Reads command_seen (option_map pop (level_count (all_seen args.now))) result }
{
    match level_count(args) {
        Some(count) => Ok(Command::Pop(count)),
        None => Err(CommandError::Refused(WRONG_FORM)),
    }
}

// A number of levels, 1 where none is written.
fn level_count(args: &[Sexpr]) -> Option<u128>
    ensures count { level_count (all_seen args.now) ≡ result }
{
    match args {
        [] => Some(1),
        [count] => numeral_of(count),
        [_, _, ..] => None,
    }
}

// A string literal.
fn echoed(args: &[Sexpr]) -> Result<Command<'_>, CommandError>
    ensures value { Reads command_seen (echoed (all_seen args.now)) result }
{
    match args {
        [text] => {
            if is_text(text) {
                return Ok(Command::Echo(text));
            }
            Err(CommandError::Refused(WRONG_FORM))
        }
        [] => Err(CommandError::Refused(WRONG_FORM)),
        [_, _, ..] => Err(CommandError::Refused(WRONG_FORM)),
    }
}

// Nothing after the word of this command.
fn alone<'a>(command: Command<'a>, args: &'a [Sexpr]) -> Result<Command<'a>, CommandError>
    ensures value { Reads command_seen (alone (command_seen command.entry) (all_seen args.now)) result }
{
    if args.is_empty() {
        return Ok(command);
    }
    Err(CommandError::Refused(WRONG_FORM))
}

// `(t ..)`, with one term at least.
fn valued(args: &[Sexpr]) -> Result<Command<'_>, CommandError>
    ensures value { Reads command_seen (valued (all_seen args.now)) result }
{
    match args {
        [terms] => match items_of(terms) {
            Some(terms) => some_terms(terms),
            None => Err(CommandError::Refused(WRONG_FORM)),
        },
        [] => Err(CommandError::Refused(WRONG_FORM)),
        [_, _, ..] => Err(CommandError::Refused(WRONG_FORM)),
    }
}

// One term or more.
fn some_terms(terms: &[Sexpr]) -> Result<Command<'_>, CommandError>
    ensures value { Reads command_seen (some_terms (all_seen terms.now)) result }
{
    match terms {
        [] => Err(CommandError::Refused(WRONG_FORM)),
        [_, ..] => Ok(Command::GetValue(terms)),
    }
}
