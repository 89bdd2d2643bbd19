//! Names with sorts, heads of sorts, and constructors.
ghost use Rattle.std.specs.Prelude.{◌≡◌, option_map};
ghost use Rattle.ct_sexpr.specs.View.{expression_of};
ghost use Rattle.ct_command.specs.Items.{each, name_of};
ghost use Rattle.ct_command.specs.Forms.{named, sort_head, head_by, constructor, constructor_by, parameters};
ghost use Rattle.ct_command.specs.Reading.{Reads};
ghost use Rattle.ct_command.specs.Seen.{all_seen, named_seen, nameds_seen, head_seen, constructor_seen, constructors_seen, names_seen};

use crate::command::{Constructor, Named, SortHead};
use crate::error::{CommandError, WRONG_FORM};
use crate::items::{items_of, name_of, numeral_of};
use ct_sexpr::Sexpr;
use std::alloc::Global;

/// A name and a sort: `(x S)`.
fn named(expr: &Sexpr) -> Option<Named<'_>>
    ensures value { named (expression_of expr.now) ≡ option_map named_seen result }
{
    match items_of(expr)? {
        [] | [_] => None,
        [name, sort] => {
            let name = name_of(name)?;
            Some(Named { name, sort })
        }
        [_, _, _, ..] => None,
    }
}

/// Names with sorts: `(x S) ..`.
pub(crate) fn all_named(alloc: Global, exprs: &[Sexpr]) -> Result<Vec<Named<'_>>, CommandError>
    ensures value { Reads nameds_seen (each named (all_seen exprs.now)) result }
{
    let mut left = exprs;
    let mut read = Vec::with_capacity(alloc, exprs.len())?;
    while let [first, others @ ..] = left {
        match named(first) {
            Some(one) => read.push(one)?,
            None => return Err(CommandError::Refused(WRONG_FORM)),
        }
        left = others;
    }
    Ok(read)
}

/// The parameters of a definition: `((x S) ..)`.
pub(crate) fn parameters(alloc: Global, expr: &Sexpr) -> Result<Vec<Named<'_>>, CommandError>
    ensures value { Reads nameds_seen (parameters (expression_of expr.now)) result }
{
    match items_of(expr) {
        Some(items) => all_named(alloc, items),
        None => Err(CommandError::Refused(WRONG_FORM)),
    }
}

/// A name and a number of arguments: `(N n)`.
pub(crate) fn sort_head(expr: &Sexpr) -> Option<SortHead<'_>>
    ensures value { sort_head (expression_of expr.now) ≡ option_map head_seen result }
{
    head_by(items_of(expr)?)
}

/// The same, by its items.
pub(crate) fn head_by(items: &[Sexpr]) -> Option<SortHead<'_>>
    ensures value { head_by (all_seen items.now) ≡ option_map head_seen result }
{
    match items {
        [] | [_] => None,
        [name, arity] => {
            let name = name_of(name)?;
            let arity = numeral_of(arity)?;
            Some(SortHead { name, arity })
        }
        [_, _, _, ..] => None,
    }
}

/// A constructor with its fields: `(C (s S) ..)`.
fn constructor(alloc: Global, expr: &Sexpr) -> Result<Constructor<'_>, CommandError>
    ensures value { Reads constructor_seen (constructor (expression_of expr.now)) result }
{
    match items_of(expr) {
        Some(items) => constructor_by(alloc, items),
        None => Err(CommandError::Refused(WRONG_FORM)),
    }
}

// The same, by its items.
fn constructor_by(alloc: Global, items: &[Sexpr]) -> Result<Constructor<'_>, CommandError>
    ensures value { Reads constructor_seen (constructor_by (all_seen items.now)) result }
{
    let [head, fields @ ..] = items else {
        return Err(CommandError::Refused(WRONG_FORM));
    };
    match name_of(head) {
        Some(name) => {
            let fields = all_named(alloc, fields)?;
            Ok(Constructor { name, fields })
        }
        None => Err(CommandError::Refused(WRONG_FORM)),
    }
}

/// The constructors of a sort, in order.
pub(crate) fn constructors(
    alloc: Global,
    exprs: &[Sexpr],
) -> Result<Vec<Constructor<'_>>, CommandError>
    ensures value { Reads constructors_seen (each constructor (all_seen exprs.now)) result }
{
    let mut left = exprs;
    let mut read = Vec::with_capacity(alloc, exprs.len())?;
    while let [first, others @ ..] = left {
        let one = constructor(alloc, first)?;
        read.push(one)?;
        left = others;
    }
    Ok(read)
}

/// Names, one after the other.
pub(crate) fn names(alloc: Global, exprs: &[Sexpr]) -> Result<Vec<&[u8]>, CommandError>
    ensures value { Reads names_seen (each name_of (all_seen exprs.now)) result }
{
    let mut left = exprs;
    let mut read = Vec::with_capacity(alloc, exprs.len())?;
    while let [first, others @ ..] = left {
        match name_of(first) {
            Some(name) => read.push(name)?,
            None => return Err(CommandError::Refused(WRONG_FORM)),
        }
        left = others;
    }
    Ok(read)
}
