//! Explanations, asked for and judged.
ghost use Rattle.std.specs.Prelude.{IfOk};
ghost use Rattle.ct_explain.specs.Trees.{IsForestOfClasses};

use crate::prepare::are_equal;
use ct_cases::CaseError;
use ct_congr::Classes;
use ct_explain::{EqProof, ExplainError, Forest};
use ct_log::{Close, EqStep};
use ct_terms::{Lit, TermId};
use std::alloc::Global;

/// With how many terms after it in the list of its class each term is explained to be equal.
const SOON: usize = 16;

/// An explained equation, and the number of the step that states it.
#[derive(Clone, Copy, Debug)]
pub struct Explained {
    /// The left side.
    pub left: TermId,
    /// The right side.
    pub right: TermId,
    /// The step.
    pub step: u64,
}

/// The forest of the classes.
pub fn forest_of(alloc: Global, classes: &Classes) -> Result<Forest, CaseError>
    ensures forest { IfOk result (IsForestOfClasses classes.now) }
{
    match Forest::new(alloc, classes) {
        Ok(forest) => Ok(forest),
        Err(ExplainError) => Err(CaseError::NoMemory),
    }
}

/// Explains the equation of any two terms that are of one class.
pub fn explain(
    classes: &Classes,
    forest: &Forest,
    left: TermId,
    right: TermId,
    proof: &mut EqProof,
) -> Result<u64, CaseError>
    requires forest { IsForestOfClasses classes.now forest.now }
{
    if !are_equal(classes, left, right) {
        return Err(CaseError::Bad);
    }
    match forest.explain(classes, left, right, proof) {
        Ok(step) => Ok(step),
        Err(ExplainError) => Err(CaseError::NoMemory),
    }
}

/// Explains the equations of all pairs of terms in each class of up to seventeen, and in larger ones enough that all equations
/// follow from these.
pub fn explain_all(
    alloc: Global,
    classes: &Classes,
    forest: &Forest,
    proof: &mut EqProof,
) -> Result<Vec<Explained>, CaseError>
    requires forest { IsForestOfClasses classes.now forest.now }
{
    let mut all = Vec::new(alloc);
    for t in 0..classes.table().len() {
        let t = TermId(t);
        if classes.rep(t) == t {
            explain_class(classes, forest, classes.class(t), proof, &mut all)?;
        }
    }
    Ok(all)
}

/// Explains that each term of this list of one class is equal to those that come soon after it.
fn explain_class(
    classes: &Classes,
    forest: &Forest,
    members: &[TermId],
    proof: &mut EqProof,
    all: &mut Vec<Explained>,
) -> Result<(), CaseError>
    requires forest { IsForestOfClasses classes.now forest.now }
{
    for k in 0..members.len() {
        explain_equal(classes, forest, members[k], &members[k + 1..], proof, all)?;
    }
    Ok(())
}

/// Explains that the term is equal to the first of these terms of its class.
fn explain_equal(
    classes: &Classes,
    forest: &Forest,
    left: TermId,
    others: &[TermId],
    proof: &mut EqProof,
    all: &mut Vec<Explained>,
) -> Result<(), CaseError>
    requires forest { IsForestOfClasses classes.now forest.now }
{
    for k in 0..others.len().min(SOON) {
        let right = others[k];
        let step = explain(classes, forest, left, right, proof)?;
        all.push(Explained { left, right, step })?;
    }
    Ok(())
}

/// Adds steps that are accepted only where the step of each explanation states its equation.
pub fn state_all(all: &[Explained], proof: &mut EqProof) -> Result<(), CaseError> {
    for e in all {
        state(*e, proof)?;
    }
    Ok(())
}

/// Adds that from the left side the step leads on, and that it leads to the right side.
fn state(e: Explained, proof: &mut EqProof) -> Result<(), CaseError> {
    let left = push(EqStep::Refl(e.left), proof)?;
    let right = push(EqStep::Refl(e.right), proof)?;
    push(EqStep::Trans(left, e.step), proof)?;
    push(EqStep::Trans(e.step, right), proof)?;
    Ok(())
}

/// Adds that `true` is `false`, for a line whose clause has the literal `true`.
pub fn contradict(proof: &mut EqProof) -> Result<Close, CaseError> {
    let never = Lit {
        term: TermId(0),
        positive: false,
    };
    Ok(Close::Clash(push(EqStep::Hyp(never), proof)?))
}

/// Adds a step. The answer is its number.
fn push(step: EqStep, proof: &mut EqProof) -> Result<u64, CaseError> {
    let number = proof.steps.len() as u64;
    proof.steps.push(step)?;
    Ok(number)
}
