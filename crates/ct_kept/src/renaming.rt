//! Renumbers the terms of lemmas.
ghost use Rattle.std.specs.Prelude.{◌≡◌, map, IfOk};
ghost use Rattle.ct_restriction.specs.Renamed.{number_in};
ghost use Rattle.ct_kept.specs.Lemmas.{renamed_literal, renamed_pair, renamed_hop, renamed_step, renamed_close, renamed_lemma};

use crate::lemma::Lemma;
use ct_log::{Close, Entry, EqStep, Hop, Pair};
use ct_restriction::Renumbering;
use ct_sorts::Items;
use ct_terms::Lit;
use std::alloc::{AllocError, Global};

/// The lemma of this clause and explanation with each term exchanged for the one with its number.
pub(crate) fn renamed_lemma(
    alloc: Global,
    clause: &[Lit],
    steps: &[EqStep],
    close: &Close,
    numbers: &Renumbering,
) -> Result<Lemma, AllocError>
    ensures renamed { IfOk result (λ lemma. lemma ≡ renamed_lemma (number_in numbers.now.numbers) (record { clause = clause.now; steps = steps.now; close = close.now })) }
{
    let clause = renamed_clause(alloc, clause, numbers)?;
    let steps = renamed_steps(alloc, steps, numbers)?;
    let close = renamed_close(alloc, close, numbers)?;
    Ok(Lemma {
        clause: Items::new(clause),
        steps: Items::new(steps),
        close,
    })
}

// The literal over the other number.
fn renamed_literal(l: Lit, numbers: &Renumbering) -> Lit
    ensures renamed { result ≡ renamed_literal (number_in numbers.now.numbers) l }
{
    Lit {
        term: numbers.number(l.term),
        positive: l.positive,
    }
}

// The literals.
fn renamed_clause(
    alloc: Global,
    clause: &[Lit],
    numbers: &Renumbering,
) -> Result<Vec<Lit>, AllocError>
    ensures renamed { IfOk result (λ made. made.items ≡ map (renamed_literal (number_in numbers.now.numbers)) clause.now) }
{
    let mut made = Vec::with_capacity(alloc, clause.len())?;
    for literal in clause {
        made.push(renamed_literal(*literal, numbers))?;
    }
    Ok(made)
}

// The steps.
fn renamed_steps(
    alloc: Global,
    steps: &[EqStep],
    numbers: &Renumbering,
) -> Result<Vec<EqStep>, AllocError>
    ensures renamed { IfOk result (λ made. made.items ≡ map (renamed_step (number_in numbers.now.numbers)) steps.now) }
{
    let mut made = Vec::with_capacity(alloc, steps.len())?;
    for step in steps {
        made.push(renamed_step(alloc, step, numbers)?)?;
    }
    Ok(made)
}

// One step.
fn renamed_step(alloc: Global, step: &EqStep, numbers: &Renumbering) -> Result<EqStep, AllocError>
    ensures renamed { IfOk result (λ made. made ≡ renamed_step (number_in numbers.now.numbers) step.now) }
{
    match step {
        EqStep::Hyp(l) => Ok(EqStep::Hyp(renamed_literal(*l, numbers))),
        EqStep::Refl(t) => Ok(EqStep::Refl(numbers.number(*t))),
        EqStep::Sym(i) => Ok(EqStep::Sym(*i)),
        EqStep::Trans(i, j) => Ok(EqStep::Trans(*i, *j)),
        EqStep::Cong(t, u, steps) => Ok(EqStep::Cong(
            numbers.number(*t),
            numbers.number(*u),
            Items::new(Vec::from_slice(alloc, steps.as_slice())?),
        )),
        EqStep::Inject(i, place) => Ok(EqStep::Inject(*i, *place)),
        EqStep::Sel(t, i) => Ok(EqStep::Sel(numbers.number(*t), *i)),
        EqStep::Test(t, i) => Ok(EqStep::Test(numbers.number(*t), *i)),
        EqStep::Expand(i, c) => Ok(EqStep::Expand(*i, numbers.number(*c))),
        EqStep::EqualIn(t, i) => Ok(EqStep::EqualIn(numbers.number(*t), *i)),
        EqStep::EqualOut(i) => Ok(EqStep::EqualOut(*i)),
        EqStep::Neg(t, i) => Ok(EqStep::Neg(numbers.number(*t), *i)),
        EqStep::Single(t, u) => Ok(EqStep::Single(numbers.number(*t), numbers.number(*u))),
        EqStep::Unique(p, pairs) => Ok(EqStep::Unique(
            *p,
            Items::new(renamed_pairs(alloc, pairs.as_slice(), numbers)?),
        )),
    }
}

// The pairs.
fn renamed_pairs(
    alloc: Global,
    pairs: &[Pair],
    numbers: &Renumbering,
) -> Result<Vec<Pair>, AllocError>
    ensures renamed { IfOk result (λ made. made.items ≡ map (renamed_pair (number_in numbers.now.numbers)) pairs.now) }
{
    let mut made = Vec::with_capacity(alloc, pairs.len())?;
    for pair in pairs {
        made.push(renamed_pair(alloc, pair, numbers)?)?;
    }
    Ok(made)
}

// One pair.
fn renamed_pair(alloc: Global, pair: &Pair, numbers: &Renumbering) -> Result<Pair, AllocError>
    ensures renamed { IfOk result (λ made. made ≡ renamed_pair (number_in numbers.now.numbers) pair.now) }
{
    Ok(Pair {
        left: numbers.number(pair.left),
        right: numbers.number(pair.right),
        entries: Items::new(Vec::<Entry>::from_slice(alloc, pair.entries.as_slice())?),
    })
}

// The closing rule.
fn renamed_close(alloc: Global, close: &Close, numbers: &Renumbering) -> Result<Close, AllocError>
    ensures renamed { IfOk result (λ made. made ≡ renamed_close (number_in numbers.now.numbers) close.now) }
{
    match close {
        Close::Clash(i) => Ok(Close::Clash(*i)),
        Close::Cycle(hops) => Ok(Close::Cycle(Items::new(renamed_hops(
            alloc,
            hops.as_slice(),
            numbers,
        )?))),
    }
}

// The hops.
fn renamed_hops(alloc: Global, hops: &[Hop], numbers: &Renumbering) -> Result<Vec<Hop>, AllocError>
    ensures renamed { IfOk result (λ made. made.items ≡ map (renamed_hop (number_in numbers.now.numbers)) hops.now) }
{
    let mut made = Vec::with_capacity(alloc, hops.len())?;
    for hop in hops {
        made.push(Hop {
            con: numbers.number(hop.con),
            place: hop.place,
            step: hop.step,
        })?;
    }
    Ok(made)
}
