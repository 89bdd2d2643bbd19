//! Blocks of datatypes and codatatypes.
ghost use Rattle.std.specs.Prelude.{◌≡◌, Some};
ghost use Rattle.ct_sexpr.specs.View.{expression_of};
ghost use Rattle.ct_command.specs.Items.{each};
ghost use Rattle.ct_command.specs.Forms.{sort_head, begins_par, body, body_by, bodies, sort_heads, sort_heads_by, block_of_one, declared_type, declared_types, parametric, over};
ghost use Rattle.ct_command.specs.Reading.{Reads};
ghost use Rattle.ct_command.specs.Seen.{all_seen, heads_seen, body_seen, bodies_seen, command_seen};

use crate::command::{Body, Command, Family, SortHead};
use crate::error::{CommandError, WRONG_FORM};
use crate::forms::{constructors, names, sort_head};
use crate::items::{items_of, name_of, word_of};
use ct_sexpr::Sexpr;
use std::alloc::Global;

/// A block of one sort: `N dec`.
pub(crate) fn declared_type<'a>(
    alloc: Global,
    family: Family,
    args: &'a [Sexpr],
) -> Result<Command<'a>, CommandError>
    ensures value { Reads command_seen (declared_type family (all_seen args.now)) result }
{
    match args {
        [] | [_] => Err(CommandError::Refused(WRONG_FORM)),
        [name, declared] => match name_of(name) {
            Some(name) => {
                let declared = body(alloc, declared)?;
                block_of_one(alloc, family, name, declared)
            }
            None => Err(CommandError::Refused(WRONG_FORM)),
        },
        [_, _, _, ..] => Err(CommandError::Refused(WRONG_FORM)),
    }
}

// A block of one sort, which has as many arguments as type parameters are written.
fn block_of_one<'a>(
    alloc: Global,
    family: Family,
    name: &'a [u8],
    declared: Body<'a>,
) -> Result<Command<'a>, CommandError>
    ensures value { Reads command_seen (Some (block_of_one family name.now (body_seen declared.entry))) result }
{
    let arity = declared.params.len() as u128;
    let mut heads = Vec::with_capacity(alloc, 1)?;
    heads.push(SortHead { name, arity })?;
    let mut bodies = Vec::with_capacity(alloc, 1)?;
    bodies.push(declared)?;
    Ok(Command::DeclareBlock(family, heads, bodies))
}

/// A block: `((N n) ..) (dec ..)`.
pub(crate) fn declared_types<'a>(
    alloc: Global,
    family: Family,
    args: &'a [Sexpr],
) -> Result<Command<'a>, CommandError>
    ensures value { Reads command_seen (declared_types family (all_seen args.now)) result }
{
    match args {
        [] | [_] => Err(CommandError::Refused(WRONG_FORM)),
        [heads, declared] => {
            let heads = sort_heads(alloc, heads)?;
            let declared = bodies(alloc, declared)?;
            Ok(Command::DeclareBlock(family, heads, declared))
        }
        [_, _, _, ..] => Err(CommandError::Refused(WRONG_FORM)),
    }
}

// The sorts of a block, one at least: `((N n) ..)`.
fn sort_heads(alloc: Global, expr: &Sexpr) -> Result<Vec<SortHead<'_>>, CommandError>
    ensures value { Reads heads_seen (sort_heads (expression_of expr.now)) result }
{
    match items_of(expr) {
        Some(items) => some_heads(alloc, items),
        None => Err(CommandError::Refused(WRONG_FORM)),
    }
}

// The same, by its items.
fn some_heads(alloc: Global, items: &[Sexpr]) -> Result<Vec<SortHead<'_>>, CommandError>
    ensures value { Reads heads_seen (sort_heads_by (all_seen items.now)) result }
{
    match items {
        [] => Err(CommandError::Refused(WRONG_FORM)),
        [_, ..] => all_heads(alloc, items),
    }
}

// The heads of sorts: `(N n) ..`.
fn all_heads(alloc: Global, exprs: &[Sexpr]) -> Result<Vec<SortHead<'_>>, CommandError>
    ensures value { Reads heads_seen (each sort_head (all_seen exprs.now)) result }
{
    let mut left = exprs;
    let mut read = Vec::with_capacity(alloc, exprs.len())?;
    while let [first, others @ ..] = left {
        match sort_head(first) {
            Some(one) => read.push(one)?,
            None => return Err(CommandError::Refused(WRONG_FORM)),
        }
        left = others;
    }
    Ok(read)
}

// What is declared of the sorts of a block: `(dec ..)`.
fn bodies(alloc: Global, expr: &Sexpr) -> Result<Vec<Body<'_>>, CommandError>
    ensures value { Reads bodies_seen (bodies (expression_of expr.now)) result }
{
    match items_of(expr) {
        Some(items) => all_bodies(alloc, items),
        None => Err(CommandError::Refused(WRONG_FORM)),
    }
}

// The same, one after the other.
fn all_bodies(alloc: Global, exprs: &[Sexpr]) -> Result<Vec<Body<'_>>, CommandError>
    ensures value { Reads bodies_seen (each body (all_seen exprs.now)) result }
{
    let mut left = exprs;
    let mut read = Vec::with_capacity(alloc, exprs.len())?;
    while let [first, others @ ..] = left {
        let one = body(alloc, first)?;
        read.push(one)?;
        left = others;
    }
    Ok(read)
}

// What is declared of one sort: `((C (s S) ..) ..)`, or `(par ..)`.
fn body(alloc: Global, expr: &Sexpr) -> Result<Body<'_>, CommandError>
    ensures value { Reads body_seen (body (expression_of expr.now)) result }
{
    match items_of(expr) {
        Some(items) => body_by(alloc, items),
        None => Err(CommandError::Refused(WRONG_FORM)),
    }
}

// The same, by its items.
fn body_by(alloc: Global, items: &[Sexpr]) -> Result<Body<'_>, CommandError>
    ensures value { Reads body_seen (body_by (all_seen items.now)) result }
{
    if begins_par(items) {
        return parametric(alloc, items);
    }
    let ctors = constructors(alloc, items)?;
    Ok(Body {
        params: Vec::new(alloc),
        ctors,
    })
}

// Constructors over type parameters: `par (X ..) dec`.
fn parametric(alloc: Global, items: &[Sexpr]) -> Result<Body<'_>, CommandError>
    ensures value { Reads body_seen (parametric (all_seen items.now)) result }
{
    match items {
        [_, params, declared] => match (items_of(params), items_of(declared)) {
            (Some(params), Some(declared)) => over(alloc, params, declared),
            (Some(_), None) | (None, _) => Err(CommandError::Refused(WRONG_FORM)),
        },
        [] | [_] | [_, _] | [_, _, _, _, ..] => Err(CommandError::Refused(WRONG_FORM)),
    }
}

// The constructors over these type parameters, of which there is one at least.
fn over<'a>(
    alloc: Global,
    params: &'a [Sexpr],
    declared: &'a [Sexpr],
) -> Result<Body<'a>, CommandError>
    ensures value { Reads body_seen (over (all_seen params.now) (all_seen declared.now)) result }
{
    if params.is_empty() {
        return Err(CommandError::Refused(WRONG_FORM));
    }
    let params = names(alloc, params)?;
    let ctors = constructors(alloc, declared)?;
    Ok(Body { params, ctors })
}

// Whether the expressions begin with `par`.
fn begins_par(items: &[Sexpr]) -> bool
    ensures value { result ≡ begins_par (all_seen items.now) }
{
    match items {
        [] => false,
        [first, ..] => match word_of(first) {
            Some(word) => word == b"par".as_slice(),
            None => false,
        },
    }
}
