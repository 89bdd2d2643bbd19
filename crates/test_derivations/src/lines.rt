//! Lines that a case names: `((LITERAL ..) RULE)`, where a rule is `input TERM`,
//! `gate WORD TERM PLACE`, `exhaust TERM`, `theory (STEP ..) CLOSE` or `learn LINE ..`. Term and
//! place of a gate are 0 where they are left out.
use crate::equality::{close_of, steps_of};
use crate::numbers::{literals_of, numbers_of, term_of};
use ct_cases::{CaseError, items_of, number_of, split_named, word_of};
use ct_log::{Gate, Line, Step};
use ct_sexpr::Sexpr;
use ct_terms::TermId;
use std::alloc::Global;

/// The lines.
pub fn lines_of(alloc: Global, parts: &[Sexpr]) -> Result<Vec<Line>, CaseError> {
    let mut lines = Vec::new(alloc);
    for part in parts {
        lines.push(line_of(alloc, part)?)?;
    }
    Ok(lines)
}

/// The line.
fn line_of(alloc: Global, part: &Sexpr) -> Result<Line, CaseError> {
    match items_of(part)? {
        [] => Err(CaseError::Bad),
        [clause, rule @ ..] => {
            let clause = literals_of(alloc, items_of(clause)?)?;
            let step = rule_of(alloc, rule)?;
            Ok(Line { clause, step })
        }
    }
}

/// The rule that gives the clause.
fn rule_of(alloc: Global, parts: &[Sexpr]) -> Result<Step, CaseError> {
    match split_named(parts)? {
        ("input", [t]) => Ok(Step::Input(term_of(t)?)),
        ("gate", [gate, rest @ ..]) => gate_step(gate_of(word_of(gate)?)?, rest),
        ("exhaust", [t]) => Ok(Step::Exhaust(term_of(t)?)),
        ("theory", [steps, close]) => theory(alloc, items_of(steps)?, close),
        ("learn", hints) => Ok(Step::Learn(numbers_of(alloc, hints)?)),
        _ => Err(CaseError::Bad),
    }
}

/// The rule of the theory.
fn theory(alloc: Global, steps: &[Sexpr], close: &Sexpr) -> Result<Step, CaseError> {
    let steps = steps_of(alloc, steps)?;
    let close = close_of(alloc, close)?;
    Ok(Step::Theory(steps, close))
}

/// The rule of a gate, with its term and its place.
fn gate_step(gate: Gate, parts: &[Sexpr]) -> Result<Step, CaseError> {
    match parts {
        [] => Ok(Step::Gate(gate, TermId(0), 0)),
        [t] => Ok(Step::Gate(gate, term_of(t)?, 0)),
        [t, place] => Ok(Step::Gate(gate, term_of(t)?, number_of(place)?)),
        _ => Err(CaseError::Bad),
    }
}

/// The gate of this word.
fn gate_of(word: &str) -> Result<Gate, CaseError> {
    match word {
        "true" => Ok(Gate::True),
        "false" => Ok(Gate::False),
        "and-pos" => Ok(Gate::AndPos),
        "and-neg" => Ok(Gate::AndNeg),
        "or-pos" => Ok(Gate::OrPos),
        "or-neg" => Ok(Gate::OrNeg),
        "iff-1" => Ok(Gate::Iff1),
        "iff-2" => Ok(Gate::Iff2),
        "iff-3" => Ok(Gate::Iff3),
        "iff-4" => Ok(Gate::Iff4),
        _ => choice_of(word),
    }
}

/// The gate of a choice of this word.
fn choice_of(word: &str) -> Result<Gate, CaseError> {
    match word {
        "ite-1" => Ok(Gate::Ite1),
        "ite-2" => Ok(Gate::Ite2),
        "ite-3" => Ok(Gate::Ite3),
        "ite-4" => Ok(Gate::Ite4),
        "then" => Ok(Gate::Then),
        "else" => Ok(Gate::Else),
        _ => Err(CaseError::Bad),
    }
}
