//! A second conflict among literals, from classes that received all of them at once. Classes that received them one by one,
//! each after the consequences of those before, explain some conflicts with many more literals.
ghost use Rattle.std.specs.Prelude.{◌≡◌, Contains, IfOk, OnOk};
ghost use Rattle.ct_terms.specs.declared.ids.Lit.{Lit};
ghost use Rattle.ct_terms.specs.Literal.{IsStripped};
ghost use Rattle.ct_explain.specs.Trees.{IsForestOfFirst};
ghost use Rattle.ct_theory.specs.Entailment.{IsConflictOf};
ghost use Rattle.ct_theory.specs.Consulting.{IsReady, IsConsulted, IsSpareOf, MayBeSpareOf};

use crate::answer::{answer, keep};
use crate::asking::Consulted;
use crate::conflict::Conflict;
use crate::error::TheoryError;
use crate::pace::Pace;
use crate::telling::{fresh_of, planted_of, turn_to};
use ct_congr::{Classes, Closed};
use ct_explain::Forest;
use ct_terms::Lit;
use std::alloc::Global;

// Clauses of no more literals than this are kept.
const SHORT: usize = 3;

/// Classes that are told all literals of a second answer at once.
#[derive(Drop)]
pub(crate) struct Spare {
    /// The classes.
    pub(crate) classes: Box<Classes>,
    /// How many literals they had been told at their mark: none.
    pub(crate) told: Vec<usize>,
    /// A forest of their first merges.
    pub(crate) forest: Forest,
}

/// The shorter one of a conflict of the literals and of a second one, where the pace says that this is due. The spare classes are
/// made where there are none.
pub(crate) fn shorter(
    alloc: Global,
    classes: &Classes,
    pace: &mut Pace,
    spare: &mut Option<Spare>,
    literals: &[Lit],
    first: Conflict,
) -> Result<Conflict, TheoryError>
    requires spare { MayBeSpareOf classes.now spare.old }
    requires stripped { (l : Lit) → Contains literals.now l → IsStripped classes.now.terms l.term }
    requires conflict { IsConflictOf classes.now.declarations classes.now.terms literals.now first.clause first.steps first.close }
    ensures spare { OnOk result (MayBeSpareOf classes.now spare.new) }
    ensures conflict { IfOk result (λ c. IsConflictOf classes.now.declarations classes.now.terms literals.now c.clause c.steps c.close) }
{
    if first.clause.len() <= SHORT {
        return Ok(first);
    }
    if !pace.is_due() {
        return Ok(first);
    }
    let mut other = taken(alloc, classes, spare)?;
    let second = anew(alloc, &mut other, literals)?;
    *spare = Some(other);
    match second {
        Consulted::Saturated(_) => Ok(first),
        Consulted::Conflict(second) => {
            let gained = second.clause.len() < first.clause.len();
            pace.note(gained);
            if gained {
                return Ok(second);
            }
            Ok(first)
        }
    }
}

// The spare classes, which are made where there are none.
fn taken(alloc: Global, classes: &Classes, spare: &mut Option<Spare>) -> Result<Spare, TheoryError>
    requires spare { MayBeSpareOf classes.now spare.old }
    ensures spare { IfOk result (IsSpareOf classes.now) }
{
    match spare.take() {
        Some(spare) => Ok(spare),
        None => spare_of(alloc, classes),
    }
}

// Spare classes of the same terms, marked where no literal is told.
fn spare_of(alloc: Global, classes: &Classes) -> Result<Spare, TheoryError>
    ensures spare { IfOk result (IsSpareOf classes.now) }
{
    let mut told = Vec::new(alloc);
    let fresh = first_of(alloc, classes, &mut told)?;
    let forest = planted_of(alloc, &fresh)?;
    Ok(Spare {
        classes: fresh,
        told,
        forest,
    })
}

// New classes of the same terms that were told nothing, closed and marked.
fn first_of(
    alloc: Global,
    classes: &Classes,
    told: &mut Vec<usize>,
) -> Result<Box<Classes>, TheoryError>
    ensures ready { IfOk result (λ first. IsReady first.value) }
    ensures declarations { IfOk result (λ first. first.value.declarations ≡ classes.now.declarations) }
    ensures terms { IfOk result (λ first. first.value.terms ≡ classes.now.terms) }
{
    let mut fresh = fresh_of(alloc, classes, &[])?;
    close_first(&mut fresh, told)?;
    Ok(Box::new(alloc, fresh)?)
}

// Closes new classes, and marks them unless two constructors meet.
fn close_first(classes: &mut Classes, told: &mut Vec<usize>) -> Result<(), TheoryError>
    requires ready { IsReady classes.old }
    ensures declarations { OnOk result (classes.new.declarations ≡ classes.old.declarations) }
    ensures terms { OnOk result (classes.new.terms ≡ classes.old.terms) }
    ensures ready { OnOk result (IsReady classes.new) }
{
    match classes.close_or_clash()? {
        Closed::Quiet => keep(classes, told),
        Closed::Clash(_, _) => Ok(()),
    }
}

// The answer of the spare classes.
fn anew(alloc: Global, spare: &mut Spare, literals: &[Lit]) -> Result<Consulted, TheoryError>
    requires ready { IsReady spare.old.classes.value }
    requires forest { IsForestOfFirst spare.old.classes.value spare.old.forest }
    requires stripped { (l : Lit) → Contains literals.now l → IsStripped spare.old.classes.value.terms l.term }
    ensures declarations { OnOk result (spare.new.classes.value.declarations ≡ spare.old.classes.value.declarations) }
    ensures terms { OnOk result (spare.new.classes.value.terms ≡ spare.old.classes.value.terms) }
    ensures ready { OnOk result (IsReady spare.new.classes.value) }
    ensures forest { OnOk result (IsForestOfFirst spare.new.classes.value spare.new.forest) }
    ensures consulted { IfOk result (IsConsulted spare.old.classes.value.declarations spare.old.classes.value.terms literals.now spare.new.classes.value) }
{
    answer_at_once(
        alloc,
        &mut spare.classes,
        &mut spare.told,
        &mut spare.forest,
        literals,
    )
}

// The answer on the literals, all of which are told before the classes are closed.
fn answer_at_once(
    alloc: Global,
    classes: &mut Classes,
    told: &mut Vec<usize>,
    forest: &mut Forest,
    literals: &[Lit],
) -> Result<Consulted, TheoryError>
    requires ready { IsReady classes.old }
    requires forest { IsForestOfFirst classes.old forest.old }
    requires stripped { (l : Lit) → Contains literals.now l → IsStripped classes.old.terms l.term }
    ensures declarations { OnOk result (classes.new.declarations ≡ classes.old.declarations) }
    ensures terms { OnOk result (classes.new.terms ≡ classes.old.terms) }
    ensures ready { OnOk result (IsReady classes.new) }
    ensures forest { OnOk result (IsForestOfFirst classes.new forest.new) }
    ensures consulted { IfOk result (IsConsulted classes.old.declarations classes.old.terms literals.now classes.new) }
{
    turn_to(alloc, classes, told, forest, &[], 0)?;
    turn_to(alloc, classes, told, forest, literals, 0)?;
    let answered = answer(alloc, classes, forest)?;
    Ok(answered)
}
