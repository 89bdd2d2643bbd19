//! What the theory implies before the first decision: a variable whose class is that of a truth value has it under every
//! decision. The value is explained once, over those that were explained before it, and its clause is a unit under the trail.
ghost use Rattle.std.specs.Prelude.{◌<◌, length, IsErrOf};

use crate::course::Course;
use crate::draft::contradict;
use crate::error::SolveError;
use ct_congr::Classes;
use ct_explain::{EqProof, Implied, Layers};
use ct_terms::{Core, TermId, TermTable};
use std::alloc::Global;

/// With so many steps the contradiction of a value and its opposite is told.
const LAST_STEPS: usize = 3;

/// The steps of a line of at most so many for each variable to which the classes give a value that it had not before, the line
/// that rests on most others first. The layers follow the classes, and are begun where some variable without a value on the trail
/// has one by the classes.
pub(crate) fn implied_drafts(
    alloc: Global,
    course: &Course,
    classes: &Classes,
    layers: &mut Option<Layers>,
    most: usize,
) -> Result<Vec<EqProof>, SolveError>
    ensures err { IsErrOf result SolveError.TooLarge → ⊥ }
{
    if layers.is_none() {
        let has_value = valued(alloc, course)?;
        if !is_one_implied(&has_value, classes) {
            return Ok(Vec::new(alloc));
        }
        *layers = Some(Layers::new(alloc, classes, most.saturating_sub(LAST_STEPS))?);
    }
    match layers {
        Some(layers) => drafts_of(alloc, layers, classes),
        None => Ok(Vec::new(alloc)),
    }
}

// The same, of layers that were begun.
fn drafts_of(
    alloc: Global,
    layers: &mut Layers,
    classes: &Classes,
) -> Result<Vec<EqProof>, SolveError>
    ensures err { IsErrOf result SolveError.TooLarge → ⊥ }
{
    let mut implied = layers.follow(classes)?;
    let mut drafts = Vec::new(alloc);
    for _ in 0..implied.len() {
        if let Some(found) = implied.pop() {
            drafts.push(draft_of(found)?)?;
        }
    }
    Ok(drafts)
}

// Steps to a contradiction of the value and the other one.
fn draft_of(implied: Implied) -> Result<EqProof, SolveError>
    ensures err { IsErrOf result SolveError.TooLarge → ⊥ }
{
    let mut proof = implied.proof;
    let literal = implied.literal;
    contradict(&mut proof, implied.number, literal.term, literal.positive)?;
    Ok(proof)
}

// Whether each term has a value on the trail.
fn valued(alloc: Global, course: &Course) -> Result<Vec<bool>, SolveError>
    ensures err { IsErrOf result SolveError.TooLarge → ⊥ }
{
    let mut has_value = vec![in alloc; false; course.derivation.rec().table().len() as usize]?;
    for literal in course.search.trail() {
        let place = literal.term.0 as usize;
        if place < has_value.len() {
            has_value[place] = true;
        }
    }
    Ok(has_value)
}

// Whether the classes give a value to some variable without one.
fn is_one_implied(has_value: &[bool], classes: &Classes) -> bool {
    for number in 0..classes.table().len() {
        let t = TermId(number);
        if is_open(has_value, classes.table(), t) && has_truth_value(classes, t) {
            return true;
        }
    }
    false
}

// Whether the term is a variable without a value.
fn is_open(has_value: &[bool], table: &TermTable, t: TermId) -> bool
    requires inside { t.0 < length table.now }
{
    let place = t.0 as usize;
    if place >= has_value.len() || has_value[place] || table.sort(t).0 != 0 {
        return false;
    }
    match table.core(t) {
        Core::Not(_) => false,
        _ => true,
    }
}

// Whether the term is of the class of a truth value.
fn has_truth_value(classes: &Classes, t: TermId) -> bool
    requires inside { t.0 < length classes.now.terms }
{
    prove!(classes.table().len() >= 2);
    classes.rep(t) == classes.rep(TermId(0)) || classes.rep(t) == classes.rep(TermId(1))
}
