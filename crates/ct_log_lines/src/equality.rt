//! Equality steps, by their rules.
ghost use Rattle.std.specs.Prelude.{◌≡◌, option_map, option_and_then, IfOk};
ghost use Rattle.ct_sexpr.specs.View.{expression_of, expressions_of};
ghost use Rattle.ct_log_lines.specs.Forms.{each, numbers_in};
ghost use Rattle.ct_log_lines.specs.Equalities.{step_over_one, step_over_two, congruence_over, step_by_count, step_over, hypothesis_in, uniqueness_of, uniqueness_in, step_of_rule, step_in};
ghost use Rattle.ct_log_lines.specs.Lines.{steps_in};

use crate::form::{first_of, is_word, number_in, numbers_in, one_of, parts_of, term_numbered};
use crate::literal::literal_in;
use crate::pair::pairs_in;
use ct_log::EqStep;
use ct_sexpr::Sexpr;
use ct_sorts::Items;
use std::alloc::{AllocError, Global};

/// The step of a rule with one number.
fn step_over_one(head: &Sexpr, a: u64) -> Option<EqStep>
    ensures value { result ≡ step_over_one (expression_of head.now) a }
{
    if is_word(b"refl", head) {
        return Some(EqStep::Refl(term_numbered(a)));
    }
    if is_word(b"sym", head) {
        return Some(EqStep::Sym(a));
    }
    if is_word(b"equal-out", head) {
        return Some(EqStep::EqualOut(a));
    }
    None
}

/// The step of a rule with two numbers.
fn step_over_two(head: &Sexpr, a: u64, b: u64) -> Option<EqStep>
    ensures value { result ≡ step_over_two (expression_of head.now) a b }
{
    if is_word(b"trans", head) {
        return Some(EqStep::Trans(a, b));
    }
    if is_word(b"inject", head) {
        return Some(EqStep::Inject(a, b));
    }
    if is_word(b"sel", head) {
        return Some(EqStep::Sel(term_numbered(a), b));
    }
    if is_word(b"test", head) {
        return Some(EqStep::Test(term_numbered(a), b));
    }
    if is_word(b"expand", head) {
        return Some(EqStep::Expand(a, term_numbered(b)));
    }
    if is_word(b"equal-in", head) {
        return Some(EqStep::EqualIn(term_numbered(a), b));
    }
    if is_word(b"neg", head) {
        return Some(EqStep::Neg(term_numbered(a), b));
    }
    if is_word(b"single", head) {
        return Some(EqStep::Single(term_numbered(a), term_numbered(b)));
    }
    None
}

/// A step of congruence: two terms, and the numbers of steps.
fn congruence_over(alloc: Global, numbers: &[u64]) -> Result<Option<EqStep>, AllocError>
    ensures ok { IfOk result (λ step. step ≡ congruence_over numbers.now) }
{
    match numbers {
        [] | [_] => Ok(None),
        [t, u, steps @ ..] => {
            let steps = Vec::from_slice(alloc, steps)?;
            Ok(Some(EqStep::Cong(term_numbered(*t), term_numbered(*u), Items::new(steps))))
        }
    }
}

/// The step of a rule other than congruence with these numbers.
fn step_by_count(head: &Sexpr, numbers: &[u64]) -> Option<EqStep>
    ensures value { result ≡ step_by_count (expression_of head.now) numbers.now }
{
    match numbers {
        [] => None,
        [a] => step_over_one(head, *a),
        [a, b] => step_over_two(head, *a, *b),
        [_, _, _, ..] => None,
    }
}

/// The step of a rule that has numbers alone.
fn step_over(alloc: Global, head: &Sexpr, numbers: &[u64]) -> Result<Option<EqStep>, AllocError>
    ensures ok { IfOk result (λ step. step ≡ step_over (expression_of head.now) numbers.now) }
{
    if is_word(b"cong", head) {
        return congruence_over(alloc, numbers);
    }
    Ok(step_by_count(head, numbers))
}

/// The step of a rule that has numbers alone, by what stands after its word.
fn step_of_numbers(
    alloc: Global,
    head: &Sexpr,
    parts: &[Sexpr],
) -> Result<Option<EqStep>, AllocError>
    ensures ok { IfOk result (λ step. step ≡ option_and_then (step_over (expression_of head.now)) (numbers_in (expressions_of parts.now))) }
{
    match numbers_in(alloc, parts)? {
        None => Ok(None),
        Some(numbers) => step_over(alloc, head, numbers.as_slice()),
    }
}

/// A hypothesis, by what stands after its word.
fn hypothesis_in(parts: &[Sexpr]) -> Option<EqStep>
    ensures value { result ≡ hypothesis_in (expressions_of parts.now) }
{
    let part = one_of(parts)?;
    let literal = literal_in(part)?;
    Some(EqStep::Hyp(literal))
}

/// A step of uniqueness, by the number of a pair and what stands after it.
fn uniqueness_of(
    alloc: Global,
    chosen: &Sexpr,
    others: &[Sexpr],
) -> Result<Option<EqStep>, AllocError>
    ensures ok { IfOk result (λ step. step ≡ uniqueness_of (expression_of chosen.now, expressions_of others.now)) }
{
    let Some(chosen) = number_in(chosen) else {
        return Ok(None);
    };
    match pairs_in(alloc, others)? {
        None => Ok(None),
        Some(pairs) => Ok(Some(EqStep::Unique(chosen, pairs))),
    }
}

/// A step of uniqueness, by what stands after its word.
fn uniqueness_in(alloc: Global, parts: &[Sexpr]) -> Result<Option<EqStep>, AllocError>
    ensures ok { IfOk result (λ step. step ≡ uniqueness_in (expressions_of parts.now)) }
{
    match first_of(parts) {
        None => Ok(None),
        Some((chosen, others)) => uniqueness_of(alloc, chosen, others),
    }
}

/// The step of a rule, by what stands after its word.
fn step_of_rule(alloc: Global, head: &Sexpr, parts: &[Sexpr]) -> Result<Option<EqStep>, AllocError>
    ensures ok { IfOk result (λ step. step ≡ step_of_rule (expression_of head.now, expressions_of parts.now)) }
{
    if is_word(b"hyp", head) {
        return Ok(hypothesis_in(parts));
    }
    if is_word(b"unique", head) {
        return uniqueness_in(alloc, parts);
    }
    step_of_numbers(alloc, head, parts)
}

/// The equality step that the expression is.
fn step_in(alloc: Global, expr: &Sexpr) -> Result<Option<EqStep>, AllocError>
    ensures ok { IfOk result (λ step. step ≡ step_in (expression_of expr.now)) }
{
    let Some(items) = parts_of(expr) else {
        return Ok(None);
    };
    match first_of(items) {
        None => Ok(None),
        Some((head, parts)) => step_of_rule(alloc, head, parts),
    }
}

/// The equality steps that the expressions are.
fn each_step(alloc: Global, items: &[Sexpr]) -> Result<Option<Items<EqStep>>, AllocError>
    ensures ok { IfOk result (λ steps. steps ≡ each step_in (expressions_of items.now)) }
{
    let mut steps = Vec::new(alloc);
    let mut rest = items;
    while let [item, others @ ..] = rest {
        match step_in(alloc, item)? {
            None => return Ok(None),
            Some(step) => steps.push(step)?,
        }
        rest = others;
    }
    Ok(Some(Items::new(steps)))
}

/// The list of equality steps that the expression is.
pub(crate) fn steps_in(alloc: Global, expr: &Sexpr) -> Result<Option<Items<EqStep>>, AllocError>
    ensures ok { IfOk result (λ steps. steps ≡ steps_in (expression_of expr.now)) }
{
    match parts_of(expr) {
        None => Ok(None),
        Some(items) => each_step(alloc, items),
    }
}
