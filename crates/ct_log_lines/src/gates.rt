//! Lines of gates, and the names of the gates.
ghost use Rattle.std.specs.Prelude.{◌≡◌, IfOk};
ghost use Rattle.ct_sexpr.specs.View.{expression_of, expressions_of};
ghost use Rattle.ct_log_lines.specs.Gates.{gate_name, gate_in, has_term, has_place, gate_over, gate_after_name, gate_step};

use crate::form::{first_of, is_word, numbers_in, term_numbered};
use ct_log::{Gate, Step};
use ct_sexpr::Sexpr;
use std::alloc::{AllocError, Global};

/// The gates.
const GATES: [Gate; 16] = [
    Gate::True,
    Gate::False,
    Gate::AndPos,
    Gate::AndNeg,
    Gate::OrPos,
    Gate::OrNeg,
    Gate::Iff1,
    Gate::Iff2,
    Gate::Iff3,
    Gate::Iff4,
    Gate::Ite1,
    Gate::Ite2,
    Gate::Ite3,
    Gate::Ite4,
    Gate::Then,
    Gate::Else,
];

/// The name of a gate.
pub fn gate_name(gate: Gate) -> &'static [u8]
    ensures value { result.now ≡ gate_name gate }
{
    match gate {
        Gate::True => b"true",
        Gate::False => b"false",
        Gate::AndPos => b"and-pos",
        Gate::AndNeg => b"and-neg",
        Gate::OrPos => b"or-pos",
        Gate::OrNeg => b"or-neg",
        Gate::Iff1 => b"iff-1",
        Gate::Iff2 => b"iff-2",
        Gate::Iff3 => b"iff-3",
        Gate::Iff4 => b"iff-4",
        Gate::Ite1 => b"ite-1",
        Gate::Ite2 => b"ite-2",
        Gate::Ite3 => b"ite-3",
        Gate::Ite4 => b"ite-4",
        Gate::Then => b"then",
        Gate::Else => b"else",
    }
}

/// The gate with this name.
fn gate_in(expr: &Sexpr) -> Option<Gate>
    ensures value { result ≡ gate_in (expression_of expr.now) }
{
    let gates: &[Gate] = &GATES;
    let mut rest = gates;
    while let [gate, others @ ..] = rest {
        if is_word(gate_name(*gate), expr) {
            return Some(*gate);
        }
        rest = others;
    }
    None
}

/// Whether the gate is of a term.
pub fn has_term(gate: Gate) -> bool
    ensures value { result ≡ has_term gate }
{
    match gate {
        Gate::True | Gate::False => false,
        Gate::AndPos
        | Gate::AndNeg
        | Gate::OrPos
        | Gate::OrNeg
        | Gate::Iff1
        | Gate::Iff2
        | Gate::Iff3
        | Gate::Iff4
        | Gate::Ite1
        | Gate::Ite2
        | Gate::Ite3
        | Gate::Ite4
        | Gate::Then
        | Gate::Else => true,
    }
}

/// Whether the gate is about an argument of its term, given by its index.
pub fn has_place(gate: Gate) -> bool
    ensures value { result ≡ has_place gate }
{
    match gate {
        Gate::AndPos | Gate::OrNeg => true,
        Gate::True
        | Gate::False
        | Gate::AndNeg
        | Gate::OrPos
        | Gate::Iff1
        | Gate::Iff2
        | Gate::Iff3
        | Gate::Iff4
        | Gate::Ite1
        | Gate::Ite2
        | Gate::Ite3
        | Gate::Ite4
        | Gate::Then
        | Gate::Else => false,
    }
}

/// The step of a gate with these numbers.
fn gate_over(gate: Gate, numbers: &[u64]) -> Option<Step>
    ensures value { result ≡ gate_over gate numbers.now }
{
    match numbers {
        [] if !has_term(gate) => Some(Step::Gate(gate, term_numbered(0), 0)),
        [t] if has_term(gate) && !has_place(gate) => Some(Step::Gate(gate, term_numbered(*t), 0)),
        [t, k] if has_place(gate) => Some(Step::Gate(gate, term_numbered(*t), *k)),
        [] | [_] | [_, _] | [_, _, _, ..] => None,
    }
}

/// The step of a gate, by its name and what stands after it.
pub(crate) fn gate_step(alloc: Global, parts: &[Sexpr]) -> Result<Option<Step>, AllocError>
    ensures ok { IfOk result (λ step. step ≡ gate_step (expressions_of parts.now)) }
{
    match first_of(parts) {
        None => Ok(None),
        Some((name, others)) => gate_after_name(alloc, name, others),
    }
}

/// The same, of the name and what stands after it.
fn gate_after_name(
    alloc: Global,
    name: &Sexpr,
    others: &[Sexpr],
) -> Result<Option<Step>, AllocError>
    ensures ok { IfOk result (λ step. step ≡ gate_after_name (expression_of name.now, expressions_of others.now)) }
{
    match gate_in(name) {
        None => Ok(None),
        Some(gate) => match numbers_in(alloc, others)? {
            None => Ok(None),
            Some(numbers) => Ok(gate_over(gate, numbers.as_slice())),
        },
    }
}
