//! The terms that a lemma names.
ghost use Rattle.std.specs.Prelude.{◌≡◌, ◌++◌, map, OnOk};
ghost use Rattle.std.specs.List.{flat_map};
ghost use Rattle.ct_kept.specs.Lemmas.{pair_terms, step_terms, close_terms, lemma_terms};

use ct_log::{Close, EqStep, Hop, Pair};
use ct_terms::{Lit, TermId};
use std::alloc::AllocError;

/// Puts the terms of a lemma with this clause and explanation at the end of the list.
pub(crate) fn push_terms(
    terms: &mut Vec<TermId>,
    clause: &[Lit],
    steps: &[EqStep],
    close: &Close,
) -> Result<(), AllocError>
    ensures terms { OnOk result (terms.new.items ≡ terms.old.items ++ lemma_terms (record { clause = clause.now; steps = steps.now; close = close.now })) }
{
    push_literals(terms, clause)?;
    push_steps(terms, steps)?;
    push_close(terms, close)
}

// Those of the literals.
fn push_literals(terms: &mut Vec<TermId>, clause: &[Lit]) -> Result<(), AllocError>
    ensures terms { OnOk result (terms.new.items ≡ terms.old.items ++ map (λ l. l.term) clause.now) }
{
    for literal in clause {
        terms.push(literal.term)?;
    }
    Ok(())
}

// Those of the steps.
fn push_steps(terms: &mut Vec<TermId>, steps: &[EqStep]) -> Result<(), AllocError>
    ensures terms { OnOk result (terms.new.items ≡ terms.old.items ++ flat_map step_terms steps.now) }
{
    for step in steps {
        push_step(terms, step)?;
    }
    Ok(())
}

// Those of one step.
fn push_step(terms: &mut Vec<TermId>, step: &EqStep) -> Result<(), AllocError>
    ensures terms { OnOk result (terms.new.items ≡ terms.old.items ++ step_terms step.now) }
{
    match step {
        EqStep::Hyp(l) => terms.extend_from_slice(&[l.term]),
        EqStep::Refl(t) => terms.extend_from_slice(&[*t]),
        EqStep::Sym(_) => Ok(()),
        EqStep::Trans(_, _) => Ok(()),
        EqStep::Cong(t, u, _) => terms.extend_from_slice(&[*t, *u]),
        EqStep::Inject(_, _) => Ok(()),
        EqStep::Sel(t, _) => terms.extend_from_slice(&[*t]),
        EqStep::Test(t, _) => terms.extend_from_slice(&[*t]),
        EqStep::Expand(_, c) => terms.extend_from_slice(&[*c]),
        EqStep::EqualIn(t, _) => terms.extend_from_slice(&[*t]),
        EqStep::EqualOut(_) => Ok(()),
        EqStep::Neg(t, _) => terms.extend_from_slice(&[*t]),
        EqStep::Single(t, u) => terms.extend_from_slice(&[*t, *u]),
        EqStep::Unique(_, pairs) => push_pairs(terms, pairs.as_slice()),
    }
}

// Those of the pairs.
fn push_pairs(terms: &mut Vec<TermId>, pairs: &[Pair]) -> Result<(), AllocError>
    ensures terms { OnOk result (terms.new.items ≡ terms.old.items ++ flat_map pair_terms pairs.now) }
{
    for pair in pairs {
        terms.extend_from_slice(&[pair.left, pair.right])?;
    }
    Ok(())
}

// Those of the closing rule.
fn push_close(terms: &mut Vec<TermId>, close: &Close) -> Result<(), AllocError>
    ensures terms { OnOk result (terms.new.items ≡ terms.old.items ++ close_terms close.now) }
{
    match close {
        Close::Clash(_) => Ok(()),
        Close::Cycle(hops) => push_hops(terms, hops.as_slice()),
    }
}

// Those of the hops.
fn push_hops(terms: &mut Vec<TermId>, hops: &[Hop]) -> Result<(), AllocError>
    ensures terms { OnOk result (terms.new.items ≡ terms.old.items ++ map (λ h. h.con) hops.now) }
{
    for hop in hops {
        terms.push(hop.con)?;
    }
    Ok(())
}
