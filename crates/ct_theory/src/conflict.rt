//! Conflicts: a contradiction in closed classes, as a line of the theory.
ghost use Rattle.std.specs.Prelude.{◌<◌, [], length, Contains, IfOk, OnOk};
ghost use Rattle.ct_terms.specs.declared.ids.Lit.{Lit};
ghost use Rattle.ct_terms.specs.Literal.{IsStripped};
ghost use Rattle.ct_log.specs.Closing.{Closes};
ghost use Rattle.ct_congr.specs.State.{IsClash};
ghost use Rattle.ct_explain.specs.Trees.{IsForestOfFirst};
ghost use Rattle.ct_theory.specs.Entailment.{IsConflictOf};
ghost use Rattle.ct_theory.specs.Steps.{Adds};

use crate::clause::clause_of;
use crate::error::TheoryError;
use ct_congr::Classes;
use ct_explain::{EqProof, Forest};
use ct_log::{Close, EqStep};
use ct_sorts::Items;
use ct_terms::{Lit, TermId};
use std::alloc::Global;

/// A line of the theory: literals of which one is true in every model, with steps from their opposites to a contradiction.
#[derive(Debug, Drop)]
pub struct Conflict {
    /// The clause: opposites of literals that do not hold together, each once.
    pub clause: Items<Lit>,
    /// The steps, numbered from 0.
    pub steps: Items<EqStep>,
    /// How the equations of the steps contradict each other.
    pub close: Close,
}

/// The conflict of two terms of one class with different constructors. The forest grows to the merges of the classes.
pub(crate) fn clash(
    alloc: Global,
    classes: &Classes,
    forest: &mut Forest,
    a: TermId,
    b: TermId,
) -> Result<Conflict, TheoryError>
    requires clash { IsClash classes.now a b }
    requires forest { IsForestOfFirst classes.now forest.old }
    requires stripped { (l : Lit) → Contains classes.now.hypotheses l → IsStripped classes.now.terms l.term }
    ensures conflict { IfOk result (λ c. IsConflictOf classes.now.declarations classes.now.terms classes.now.hypotheses c.clause c.steps c.close) }
    ensures forest { OnOk result (IsForestOfFirst classes.now forest.new) }
{
    forest.grow(classes)?;
    let mut proof = EqProof {
        steps: Vec::new(alloc),
    };
    let step = forest.explain(classes, a, b, &mut proof)?;
    conflict_of(alloc, classes, proof, Close::Clash(step))
}

/// The conflict of steps to equations that contradict each other.
pub(crate) fn conflict_of(
    alloc: Global,
    classes: &Classes,
    proof: EqProof,
    close: Close,
) -> Result<Conflict, TheoryError>
    requires adds { Adds classes.now [] proof.steps.items (λ given. Closes classes.now.declarations classes.now.terms given close) }
    requires stripped { (l : Lit) → Contains classes.now.hypotheses l → IsStripped classes.now.terms l.term }
    ensures conflict { IfOk result (λ c. IsConflictOf classes.now.declarations classes.now.terms classes.now.hypotheses c.clause c.steps c.close) }
{
    let clause = clause_of(alloc, classes.table().len(), &proof.steps)?;
    Ok(Conflict {
        clause: Items::new(clause),
        steps: Items::new(proof.steps),
        close,
    })
}
