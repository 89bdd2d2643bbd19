//! Sorts as a case writes them: a name, or `(NAME SORT ..)`.

use crate::bytes::bytes_of;
use crate::error::CaseError;
use ct_sexpr::Sexpr;
use ct_sorts::{Name, SortExpr};
use std::alloc::Global;

/// How deep a sort may be nested.
const MOST_NESTED: u32 = 100;

/// The sort that a part stands for, over these parameters.
pub fn sort_expr(alloc: Global, params: &[Sexpr], part: &Sexpr) -> Result<SortExpr, CaseError> {
    nested(alloc, params, part, MOST_NESTED)
}

// A sort that is nested at most so deep.
#[cycle(sorts)]
fn nested(alloc: Global, params: &[Sexpr], part: &Sexpr, deep: u32) -> Result<SortExpr, CaseError> {
    if deep == 0 {
        return Err(CaseError::Bad);
    }
    match part {
        Sexpr::List(items) => applied(alloc, params, items, deep - 1),
        _ => alone(alloc, params, part),
    }
}

// A name with its arguments.
#[cycle(sorts)]
fn applied(
    alloc: Global,
    params: &[Sexpr],
    items: &[Sexpr],
    deep: u32,
) -> Result<SortExpr, CaseError> {
    match items {
        [name, parts @ ..] => {
            let name = Name::new(bytes_of(alloc, name)?);
            let mut args = Vec::new(alloc);
            for part in parts {
                args.push(nested(alloc, params, part, deep)?)?;
            }
            Ok(SortExpr::App(name, args))
        }
        _ => Err(CaseError::Bad),
    }
}

// A parameter, or a name without arguments.
fn alone(alloc: Global, params: &[Sexpr], part: &Sexpr) -> Result<SortExpr, CaseError> {
    let name = bytes_of(alloc, part)?;
    for i in 0..params.len() {
        if bytes_of(alloc, &params[i])?.as_slice() == name.as_slice() {
            return Ok(SortExpr::Param(i as u64));
        }
    }
    Ok(SortExpr::App(Name::new(name), Vec::new(alloc)))
}
