//! Copies of lines.
ghost use Rattle.std.specs.Prelude.{◌≡◌, IfOk};

use ct_log::{Close, Entry, EqStep, Hop, Line, Pair, Step};
use ct_sorts::Items;
use ct_terms::Lit;
use std::alloc::{AllocError, Global};

/// A copy of the line.
pub(crate) fn copy_line(alloc: Global, line: &Line) -> Result<Line, AllocError>
    ensures copy { IfOk result (λ copy. copy ≡ line.now) }
{
    let step = copy_step(alloc, &line.step)?;
    let clause = Vec::<Lit>::from_slice(alloc, line.clause.as_slice())?;
    Ok(Line {
        clause: Items::new(clause),
        step,
    })
}

// A copy of why a clause holds.
fn copy_step(alloc: Global, step: &Step) -> Result<Step, AllocError>
    ensures copy { IfOk result (λ copy. copy ≡ step.now) }
{
    match step {
        Step::Input(t) => Ok(Step::Input(*t)),
        Step::Gate(gate, t, place) => Ok(Step::Gate(*gate, *t, *place)),
        Step::Exhaust(t) => Ok(Step::Exhaust(*t)),
        Step::Theory(steps, close) => {
            let close = copy_close(alloc, close)?;
            let steps = copy_steps(alloc, steps.as_slice())?;
            Ok(Step::Theory(Items::new(steps), close))
        }
        Step::Learn(hints) => Ok(Step::Learn(Items::new(Vec::<u64>::from_slice(
            alloc,
            hints.as_slice(),
        )?))),
    }
}

// Copies of the steps to equations.
fn copy_steps(alloc: Global, steps: &[EqStep]) -> Result<Vec<EqStep>, AllocError>
    ensures copies { IfOk result (λ copies. copies.items ≡ steps.now) }
{
    let mut copies = Vec::with_capacity(alloc, steps.len())?;
    for step in steps {
        copies.push(copy_eq_step(alloc, step)?)?;
    }
    Ok(copies)
}

// A copy of a step to an equation.
fn copy_eq_step(alloc: Global, step: &EqStep) -> Result<EqStep, AllocError>
    ensures copy { IfOk result (λ copy. copy ≡ step.now) }
{
    match step {
        EqStep::Hyp(l) => Ok(EqStep::Hyp(*l)),
        EqStep::Refl(t) => Ok(EqStep::Refl(*t)),
        EqStep::Sym(i) => Ok(EqStep::Sym(*i)),
        EqStep::Trans(i, j) => Ok(EqStep::Trans(*i, *j)),
        EqStep::Cong(t, u, steps) => Ok(EqStep::Cong(
            *t,
            *u,
            Items::new(Vec::<u64>::from_slice(alloc, steps.as_slice())?),
        )),
        EqStep::Inject(i, place) => Ok(EqStep::Inject(*i, *place)),
        EqStep::Sel(t, i) => Ok(EqStep::Sel(*t, *i)),
        EqStep::Test(t, i) => Ok(EqStep::Test(*t, *i)),
        EqStep::Expand(i, c) => Ok(EqStep::Expand(*i, *c)),
        EqStep::EqualIn(t, i) => Ok(EqStep::EqualIn(*t, *i)),
        EqStep::EqualOut(i) => Ok(EqStep::EqualOut(*i)),
        EqStep::Neg(t, i) => Ok(EqStep::Neg(*t, *i)),
        EqStep::Single(t, u) => Ok(EqStep::Single(*t, *u)),
        EqStep::Unique(p, pairs) => Ok(EqStep::Unique(
            *p,
            Items::new(copy_pairs(alloc, pairs.as_slice())?),
        )),
    }
}

// Copies of the pairs.
fn copy_pairs(alloc: Global, pairs: &[Pair]) -> Result<Vec<Pair>, AllocError>
    ensures copies { IfOk result (λ copies. copies.items ≡ pairs.now) }
{
    let mut copies = Vec::with_capacity(alloc, pairs.len())?;
    for pair in pairs {
        copies.push(copy_pair(alloc, pair)?)?;
    }
    Ok(copies)
}

// A copy of the pair.
fn copy_pair(alloc: Global, pair: &Pair) -> Result<Pair, AllocError>
    ensures copy { IfOk result (λ copy. copy ≡ pair.now) }
{
    Ok(Pair {
        left: pair.left,
        right: pair.right,
        entries: Items::new(Vec::<Entry>::from_slice(alloc, pair.entries.as_slice())?),
    })
}

// A copy of the closing rule.
fn copy_close(alloc: Global, close: &Close) -> Result<Close, AllocError>
    ensures copy { IfOk result (λ copy. copy ≡ close.now) }
{
    match close {
        Close::Clash(i) => Ok(Close::Clash(*i)),
        Close::Cycle(hops) => Ok(Close::Cycle(Items::new(Vec::<Hop>::from_slice(
            alloc,
            hops.as_slice(),
        )?))),
    }
}
