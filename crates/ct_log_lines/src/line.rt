//! Lines with their clauses and rules, and the first and the last item.
ghost use Rattle.std.specs.Prelude.{◌≡◌, option_map, option_and_then, IfOk};
ghost use Rattle.ct_sexpr.specs.View.{expression_of, expressions_of};
ghost use Rattle.ct_log.specs.declared.line.Step.TheVariants.{Input, Exhaust, Learn};
ghost use Rattle.ct_log_lines.specs.Forms.{first_with_rest, numbers_in};
ghost use Rattle.ct_log_lines.specs.Lines.{one_term_in, theory_of, theory_step, rule_step, line_after_clause, line_in, is_end, not_zero, header_in};

use crate::closing::close_in;
use crate::equality::steps_in;
use crate::form::{
    first_of, is_word, number_in, numbers_in, one_of, parts_after, parts_numbered, term_in, two_of,
};
use crate::gates::gate_step;
use crate::literal::clause_in;
use ct_log::{Line, Step};
use ct_sexpr::Sexpr;
use ct_terms::TermId;
use std::alloc::{AllocError, Global};

/// The only term, by its number.
fn one_term_in(parts: &[Sexpr]) -> Option<TermId>
    ensures value { result ≡ one_term_in (expressions_of parts.now) }
{
    let part = one_of(parts)?;
    term_in(part)
}

/// The step of an assertion.
fn input_step(parts: &[Sexpr]) -> Option<Step>
    ensures value { result ≡ option_map (λ t. Input t) (one_term_in (expressions_of parts.now)) }
{
    let term = one_term_in(parts)?;
    Some(Step::Input(term))
}

/// The step of a split.
fn exhaust_step(parts: &[Sexpr]) -> Option<Step>
    ensures value { result ≡ option_map (λ t. Exhaust t) (one_term_in (expressions_of parts.now)) }
{
    let term = one_term_in(parts)?;
    Some(Step::Exhaust(term))
}

/// A theory step, by its equality steps and its end.
fn theory_of(alloc: Global, steps: &Sexpr, close: &Sexpr) -> Result<Option<Step>, AllocError>
    ensures ok { IfOk result (λ step. step ≡ theory_of (expression_of steps.now, expression_of close.now)) }
{
    let Some(steps) = steps_in(alloc, steps)? else {
        return Ok(None);
    };
    match close_in(alloc, close)? {
        None => Ok(None),
        Some(close) => Ok(Some(Step::Theory(steps, close))),
    }
}

/// A theory step, by what stands after its word.
fn theory_step(alloc: Global, parts: &[Sexpr]) -> Result<Option<Step>, AllocError>
    ensures ok { IfOk result (λ step. step ≡ theory_step (expressions_of parts.now)) }
{
    match two_of(parts) {
        None => Ok(None),
        Some((steps, close)) => theory_of(alloc, steps, close),
    }
}

/// A step by unit propagation, by what stands after its word.
fn learn_step(alloc: Global, parts: &[Sexpr]) -> Result<Option<Step>, AllocError>
    ensures ok { IfOk result (λ step. step ≡ option_map (λ hints. Learn hints) (numbers_in (expressions_of parts.now))) }
{
    match numbers_in(alloc, parts)? {
        None => Ok(None),
        Some(hints) => Ok(Some(Step::Learn(hints))),
    }
}

/// The step of a line, by the word of its rule and what stands after it.
fn rule_step(alloc: Global, rule: &Sexpr, parts: &[Sexpr]) -> Result<Option<Step>, AllocError>
    ensures ok { IfOk result (λ step. step ≡ rule_step (expression_of rule.now, expressions_of parts.now)) }
{
    if is_word(b"input", rule) {
        return Ok(input_step(parts));
    }
    if is_word(b"gate", rule) {
        return gate_step(alloc, parts);
    }
    if is_word(b"exhaust", rule) {
        return Ok(exhaust_step(parts));
    }
    if is_word(b"theory", rule) {
        return theory_step(alloc, parts);
    }
    if is_word(b"learn", rule) {
        return learn_step(alloc, parts);
    }
    Ok(None)
}

/// The step of a line, by what stands after its clause.
fn step_after_clause(alloc: Global, parts: &[Sexpr]) -> Result<Option<Step>, AllocError>
    ensures ok { IfOk result (λ step. step ≡ option_and_then rule_step (first_with_rest (expressions_of parts.now))) }
{
    match first_of(parts) {
        None => Ok(None),
        Some((rule, parts)) => rule_step(alloc, rule, parts),
    }
}

/// The line with this clause and what stands after it.
fn line_after_clause(
    alloc: Global,
    clause: &Sexpr,
    parts: &[Sexpr],
) -> Result<Option<Line>, AllocError>
    ensures ok { IfOk result (λ line. line ≡ line_after_clause (expression_of clause.now, expressions_of parts.now)) }
{
    let Some(clause) = clause_in(alloc, clause)? else {
        return Ok(None);
    };
    match step_after_clause(alloc, parts)? {
        None => Ok(None),
        Some(step) => Ok(Some(Line { clause, step })),
    }
}

/// The line with this number that the expression is, or nothing. Its only error is out of memory.
pub fn line_in(alloc: Global, n: u64, expr: &Sexpr) -> Result<Option<Line>, AllocError>
    ensures ok { IfOk result (λ line. line ≡ line_in n (expression_of expr.now)) }
{
    let Some(items) = parts_numbered(b"s", n, expr) else {
        return Ok(None);
    };
    match first_of(items) {
        None => Ok(None),
        Some((clause, parts)) => line_after_clause(alloc, clause, parts),
    }
}

/// Whether the expression ends a derivation of this many lines.
pub fn is_end(n: u64, expr: &Sexpr) -> bool
    ensures value { result ≡ is_end n (expression_of expr.now) }
{
    match parts_numbered(b"end", n, expr) {
        None => false,
        Some(items) => first_of(items).is_none(),
    }
}

/// The number, where it is not 0.
fn not_zero(n: u64) -> Option<u64>
    ensures value { result ≡ not_zero n }
{
    if n == 0 {
        return None;
    }
    Some(n)
}

/// The number in the first item of a derivation; nothing if the expression is no such item, or the number is 0.
pub fn header_in(expr: &Sexpr) -> Option<u64>
    ensures value { result ≡ header_in (expression_of expr.now) }
{
    let items = parts_after(b"cosmt-derivation", expr)?;
    let part = one_of(items)?;
    let number = number_in(part)?;
    not_zero(number)
}
