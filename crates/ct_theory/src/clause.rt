//! The clause of a line of the theory: the opposites of the hypotheses that its steps name.
//!
//! Each literal has a stamp, which says whether its opposite stands in the clause, so that the time is linear in the steps.
ghost use Rattle.std.specs.Prelude.{◌≡◌, ◌<◌, ◌*◌, ◌∷◌, [], ◌++◌, length, Contains, List, IfOk, OnOk};
ghost use Rattle.ct_terms.specs.declared.ids.Lit.{Lit};
ghost use Rattle.ct_terms.specs.Literal as literal;
ghost use Rattle.ct_log.specs.declared.rules.EqStep.{EqStep};
ghost use Rattle.ct_log.specs.declared.rules.EqStep.TheVariants.{Hyp};
ghost use Rattle.ct_theory.specs.Steps.{stamp_index, IsClauseOf, AreStamped};

use crate::error::TheoryError;
use ct_log::EqStep;
use ct_terms::Lit;
use std::alloc::Global;

/// The opposite of each literal that a step names, once. The terms are so many.
pub(crate) fn clause_of(
    alloc: Global,
    terms: u32,
    steps: &[EqStep],
) -> Result<Vec<Lit>, TheoryError>
    requires inside { (l : Lit) → Contains steps.now (Hyp l) → l.term.0 < terms }
    ensures clause { IfOk result (λ clause. IsClauseOf steps.now clause.items) }
{
    let mut stamps = vec![in alloc; false; terms as usize * 2]?;
    let mut clause = Vec::new(alloc);
    for step in steps {
        put_named(step, &mut stamps, &mut clause)?;
    }
    Ok(clause)
}

// Puts the opposite of the literal that the step names into the clause.
fn put_named(
    step: &EqStep,
    stamps: &mut Vec<bool>,
    clause: &mut Vec<Lit>,
) -> Result<(), TheoryError>
    requires inside { (l : Lit) → step.now ≡ Hyp l → stamp_index l < length stamps.old.items }
    requires stamped { AreStamped stamps.old.items clause.old.items }
    ensures long { length stamps.new.items ≡ length stamps.old.items }
    ensures stamped { OnOk result (AreStamped stamps.new.items clause.new.items) }
    ensures clause { OnOk result ((steps : List EqStep) → IsClauseOf steps clause.old.items → IsClauseOf (steps ++ step.now ∷ []) clause.new.items) }
{
    match step {
        EqStep::Hyp(l) => {
            put(*l, stamps, clause)?;
            Ok(())
        }
        _ => Ok(()),
    }
}

// Puts the opposite of the literal into the clause, unless it stands there.
fn put(l: Lit, stamps: &mut Vec<bool>, clause: &mut Vec<Lit>) -> Result<(), TheoryError>
    requires inside { stamp_index l < length stamps.old.items }
    requires stamped { AreStamped stamps.old.items clause.old.items }
    ensures long { length stamps.new.items ≡ length stamps.old.items }
    ensures stamped { OnOk result (AreStamped stamps.new.items clause.new.items) }
    ensures clause { OnOk result ((steps : List EqStep) → IsClauseOf steps clause.old.items → IsClauseOf (steps ++ Hyp l ∷ []) clause.new.items) }
{
    let index = index_of(l);
    if stamps[index] {
        return Ok(());
    }
    clause.push(opposite(l))?;
    stamps[index] = true;
    Ok(())
}

// Where the stamp of the literal stands.
fn index_of(l: Lit) -> usize
    ensures value { result ≡ stamp_index l }
{
    let first = l.term.0 as usize * 2;
    if l.positive {
        return first + 1;
    }
    first
}

// The literal with the other sign.
fn opposite(l: Lit) -> Lit
    ensures value { result ≡ literal.opposite l }
{
    Lit {
        term: l.term,
        positive: !l.positive,
    }
}
