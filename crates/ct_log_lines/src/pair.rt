//! The pairs of a step of uniqueness, and three numbers in a row.
ghost use Rattle.std.specs.Prelude.{◌≡◌, option_map, option_and_then, codes, IfOk};
ghost use Rattle.ct_sexpr.specs.View.{expression_of, expressions_of};
ghost use Rattle.ct_log_lines.specs.Forms.{each, parts_after};
ghost use Rattle.ct_log_lines.specs.Equalities.{three_numbers_in, entry_of_pair, entry_in, pair_of_left, pair_of_right, pair_in};

use crate::form::{first_of, number_in, parts_after, parts_of, term_in, three_of};
use ct_log::{Entry, Pair};
use ct_sexpr::Sexpr;
use ct_sorts::Items;
use ct_terms::TermId;
use std::alloc::{AllocError, Global};

/// The numbers that the expressions are, where there are three.
pub(crate) fn three_numbers_in(items: &[Sexpr]) -> Option<(u64, u64, u64)>
    ensures value { result ≡ three_numbers_in (expressions_of items.now) }
{
    let (first, second, third) = three_of(items)?;
    let a = number_in(first)?;
    let b = number_in(second)?;
    let c = number_in(third)?;
    Some((a, b, c))
}

/// The entry that the expression is.
fn entry_in(expr: &Sexpr) -> Option<Entry>
    ensures value { result ≡ entry_in (expression_of expr.now) }
{
    if let Some(step) = number_in(expr) {
        return Some(Entry::Step(step));
    }
    derived_entry(expr)
}

/// The entry of `(pair k i j)`.
fn derived_entry(expr: &Sexpr) -> Option<Entry>
    ensures value { result ≡ option_map entry_of_pair (option_and_then three_numbers_in (parts_after (codes "pair") (expression_of expr.now))) }
{
    let items = parts_after(b"pair", expr)?;
    let (pair, left, right) = three_numbers_in(items)?;
    Some(Entry::Pair(pair, left, right))
}

/// The entries that the expressions are.
fn entries_in(alloc: Global, items: &[Sexpr]) -> Result<Option<Items<Entry>>, AllocError>
    ensures ok { IfOk result (λ entries. entries ≡ each entry_in (expressions_of items.now)) }
{
    let mut entries = Vec::new(alloc);
    let mut rest = items;
    while let [item, others @ ..] = rest {
        match entry_in(item) {
            None => return Ok(None),
            Some(entry) => entries.push(entry)?,
        }
        rest = others;
    }
    Ok(Some(Items::new(entries)))
}

/// The pair with this left side, of its right side and what stands after it.
fn pair_of_right(
    alloc: Global,
    left: TermId,
    right: &Sexpr,
    others: &[Sexpr],
) -> Result<Option<Pair>, AllocError>
    ensures ok { IfOk result (λ pair. pair ≡ pair_of_right left (expression_of right.now, expressions_of others.now)) }
{
    let Some(right) = term_in(right) else {
        return Ok(None);
    };
    match entries_in(alloc, others)? {
        None => Ok(None),
        Some(entries) => Ok(Some(Pair {
            left,
            right,
            entries,
        })),
    }
}

/// The pair of its left side and what stands after it.
fn pair_of_left(alloc: Global, left: &Sexpr, others: &[Sexpr]) -> Result<Option<Pair>, AllocError>
    ensures ok { IfOk result (λ pair. pair ≡ pair_of_left (expression_of left.now, expressions_of others.now)) }
{
    let Some(left) = term_in(left) else {
        return Ok(None);
    };
    match first_of(others) {
        None => Ok(None),
        Some((right, others)) => pair_of_right(alloc, left, right, others),
    }
}

/// The pair that the expression is.
fn pair_in(alloc: Global, expr: &Sexpr) -> Result<Option<Pair>, AllocError>
    ensures ok { IfOk result (λ pair. pair ≡ pair_in (expression_of expr.now)) }
{
    let Some(items) = parts_of(expr) else {
        return Ok(None);
    };
    match first_of(items) {
        None => Ok(None),
        Some((left, others)) => pair_of_left(alloc, left, others),
    }
}

/// The pairs that the expressions are.
pub(crate) fn pairs_in(alloc: Global, items: &[Sexpr]) -> Result<Option<Items<Pair>>, AllocError>
    ensures ok { IfOk result (λ pairs. pairs ≡ each pair_in (expressions_of items.now)) }
{
    let mut pairs = Vec::new(alloc);
    let mut rest = items;
    while let [item, others @ ..] = rest {
        match pair_in(alloc, item)? {
            None => return Ok(None),
            Some(pair) => pairs.push(pair)?,
        }
        rest = others;
    }
    Ok(Some(Items::new(pairs)))
}
