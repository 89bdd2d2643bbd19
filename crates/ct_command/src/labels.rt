//! Assertions with their labels, and assumptions.
ghost use Rattle.std.specs.Prelude.{◌≡◌, false, option_map};
ghost use Rattle.std.specs.List.{list_any};
ghost use Rattle.ct_sexpr.specs.View.{expression_of};
ghost use Rattle.ct_command.specs.Labels.{is_that, is_named, label_after, label_in, are_attributes, labelled, annotated, asserted_by, asserted, assumed};
ghost use Rattle.ct_command.specs.Reading.{Reads};
ghost use Rattle.ct_command.specs.Seen.{bytes_seen, all_seen, items_seen, command_seen};

use crate::command::Command;
use crate::error::{CommandError, WRONG_FORM};
use crate::items::{items_of, keyword_of, name_of, word_of};
use ct_sexpr::Sexpr;

/// An assertion: `t`, which has a label where its outermost form is `(! t .. :named n ..)`.
pub(crate) fn asserted(args: &[Sexpr]) -> Result<Command<'_>, CommandError>
    ensures value { Reads command_seen (asserted (all_seen args.now)) result }
{
    match args {
        [term] => asserted_by(term, items_of(term)),
        [] => Err(CommandError::Refused(WRONG_FORM)),
        [_, _, ..] => Err(CommandError::Refused(WRONG_FORM)),
    }
}

// What is asserted, by its items where it is a list.
fn asserted_by<'a>(
    whole: &'a Sexpr,
    items: Option<&'a [Sexpr]>,
) -> Result<Command<'a>, CommandError>
    ensures value { Reads command_seen (asserted_by (expression_of whole.now) (items_seen items.entry)) result }
{
    match items {
        Some(items) => annotated(whole, items),
        None => Ok(Command::Assert(whole, None)),
    }
}

// `! t K v ..`, or other items.
fn annotated<'a>(whole: &'a Sexpr, items: &'a [Sexpr]) -> Result<Command<'a>, CommandError>
    ensures value { Reads command_seen (annotated (expression_of whole.now) (all_seen items.now)) result }
{
    match items {
        [] | [_] => Ok(Command::Assert(whole, None)),
        [word, term, attributes @ ..] => {
            if !is_that(word_of(word), b"!") {
                return Ok(Command::Assert(whole, None));
            }
            match label_in(attributes) {
                Some(label) => Ok(labelled(whole, term, attributes, label)),
                None => Err(CommandError::Refused(WRONG_FORM)),
            }
        }
    }
}

// The assertion of a term with attributes that give this label: where they have another form the whole is left, which is no term.
fn labelled<'a>(
    whole: &'a Sexpr,
    term: &'a Sexpr,
    attributes: &'a [Sexpr],
    label: Option<&'a [u8]>,
) -> Command<'a>
    ensures value { command_seen result ≡ labelled (expression_of whole.now) (expression_of term.now) (all_seen attributes.now) (bytes_seen label.entry) }
{
    match label {
        Some(name) => {
            if are_attributes(attributes) {
                return Command::Assert(term, Some(name));
            }
            Command::Assert(whole, None)
        }
        None => Command::Assert(whole, None),
    }
}

// The label that attributes give, which may be none; nothing where `:named` stands among them in another way than once before a
// name.
fn label_in(attributes: &[Sexpr]) -> Option<Option<&[u8]>>
    ensures value { label_in (all_seen attributes.now) ≡ option_map bytes_seen result }
{
    let mut left = attributes;
    while let [first, others @ ..] = left {
        if is_named(first) {
            return label_after(others);
        }
        left = others;
    }
    Some(None)
}

// The label behind `:named`: a name, behind which `:named` does not stand again.
fn label_after(items: &[Sexpr]) -> Option<Option<&[u8]>>
    ensures value { label_after (all_seen items.now) ≡ option_map bytes_seen result }
{
    match items {
        [] => None,
        [name, others @ ..] => {
            if has_named(others) {
                return None;
            }
            match name_of(name) {
                Some(name) => Some(Some(name)),
                None => None,
            }
        }
    }
}

// Whether `:named` stands among the expressions.
fn has_named(exprs: &[Sexpr]) -> bool
    ensures value { result ≡ list_any is_named (all_seen exprs.now) }
{
    let mut left = exprs;
    while let [first, others @ ..] = left {
        if is_named(first) {
            return true;
        }
        left = others;
    }
    false
}

// Whether the expression is the keyword `:named`.
fn is_named(expr: &Sexpr) -> bool
    ensures value { result ≡ is_named (expression_of expr.now) }
{
    is_that(keyword_of(expr), b":named")
}

// Whether these bytes are there and are those.
fn is_that(bytes: Option<&[u8]>, wanted: &[u8]) -> bool
    ensures value { result ≡ is_that wanted.now (bytes_seen bytes.entry) }
{
    match bytes {
        Some(bytes) => bytes == wanted,
        None => false,
    }
}

// Whether the expressions are attributes: keywords, each with at most one value, which is no keyword.
fn are_attributes(exprs: &[Sexpr]) -> bool
    ensures value { result ≡ are_attributes false (all_seen exprs.now) }
{
    let mut takes_value = false;
    let mut left = exprs;
    while let [first, others @ ..] = left {
        let is_keyword = keyword_of(first).is_some();
        if !is_keyword && !takes_value {
            return false;
        }
        takes_value = is_keyword;
        left = others;
    }
    true
}

/// Assumptions: `(t ..)`.
pub(crate) fn assumed(args: &[Sexpr]) -> Result<Command<'_>, CommandError>
    ensures value { Reads command_seen (assumed (all_seen args.now)) result }
{
    match args {
        [terms] => match items_of(terms) {
            Some(terms) => Ok(Command::CheckSatAssuming(terms)),
            None => Err(CommandError::Refused(WRONG_FORM)),
        },
        [] => Err(CommandError::Refused(WRONG_FORM)),
        [_, _, ..] => Err(CommandError::Refused(WRONG_FORM)),
    }
}
