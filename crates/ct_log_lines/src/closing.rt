//! How a theory line ends.
ghost use Rattle.std.specs.Prelude.{◌≡◌, IfOk};
ghost use Rattle.ct_sexpr.specs.View.{expression_of, expressions_of};
ghost use Rattle.ct_log_lines.specs.Forms.{each};
ghost use Rattle.ct_log_lines.specs.Equalities.{hop_of, hop_in, clash_in, cycle_in, close_of_rule, close_in};

use crate::form::{first_of, is_word, number_in, one_of, parts_of, term_numbered};
use crate::pair::three_numbers_in;
use ct_log::{Close, Hop};
use ct_sexpr::Sexpr;
use ct_sorts::Items;
use std::alloc::{AllocError, Global};

/// The constructor term of a cycle that the expression is.
fn hop_in(expr: &Sexpr) -> Option<Hop>
    ensures value { result ≡ hop_in (expression_of expr.now) }
{
    let items = parts_of(expr)?;
    let (term, place, step) = three_numbers_in(items)?;
    let con = term_numbered(term);
    Some(Hop { con, place, step })
}

/// The constructor terms of a cycle that the expressions are.
fn hops_in(alloc: Global, items: &[Sexpr]) -> Result<Option<Items<Hop>>, AllocError>
    ensures ok { IfOk result (λ hops. hops ≡ each hop_in (expressions_of items.now)) }
{
    let mut hops = Vec::new(alloc);
    let mut rest = items;
    while let [item, others @ ..] = rest {
        match hop_in(item) {
            None => return Ok(None),
            Some(hop) => hops.push(hop)?,
        }
        rest = others;
    }
    Ok(Some(Items::new(hops)))
}

/// A clash, by what stands after its word.
fn clash_in(parts: &[Sexpr]) -> Option<Close>
    ensures value { result ≡ clash_in (expressions_of parts.now) }
{
    let part = one_of(parts)?;
    let step = number_in(part)?;
    Some(Close::Clash(step))
}

/// A cycle, by what stands after its word.
fn cycle_in(alloc: Global, parts: &[Sexpr]) -> Result<Option<Close>, AllocError>
    ensures ok { IfOk result (λ close. close ≡ cycle_in (expressions_of parts.now)) }
{
    match hops_in(alloc, parts)? {
        None => Ok(None),
        Some(hops) => Ok(Some(Close::Cycle(hops))),
    }
}

/// The end of a theory line, by its rule and what stands after it.
fn close_of_rule(alloc: Global, head: &Sexpr, parts: &[Sexpr]) -> Result<Option<Close>, AllocError>
    ensures ok { IfOk result (λ close. close ≡ close_of_rule (expression_of head.now, expressions_of parts.now)) }
{
    if is_word(b"clash", head) {
        return Ok(clash_in(parts));
    }
    if is_word(b"cycle", head) {
        return cycle_in(alloc, parts);
    }
    Ok(None)
}

/// The end of a theory line that the expression is.
pub(crate) fn close_in(alloc: Global, expr: &Sexpr) -> Result<Option<Close>, AllocError>
    ensures ok { IfOk result (λ close. close ≡ close_in (expression_of expr.now)) }
{
    let Some(items) = parts_of(expr) else {
        return Ok(None);
    };
    match first_of(items) {
        None => Ok(None),
        Some((head, parts)) => close_of_rule(alloc, head, parts),
    }
}
