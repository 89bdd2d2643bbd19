//! Moves classes from one list of literals to another: goes back, and adds the rest.
ghost use Rattle.std.specs.Prelude.{◌≡◌, ◌≤◌, ◌++◌, ◌∷◌, [], ℕ, length, slice_get, Contains, IfOk, IfSome, OnOk};
ghost use Rattle.ct_sorts.specs.Grown.{Begins};
ghost use Rattle.ct_terms.specs.declared.ids.TermId.{TermId};
ghost use Rattle.ct_terms.specs.declared.ids.Lit.{Lit};
ghost use Rattle.ct_terms.specs.Literal.{IsStripped};
ghost use Rattle.ct_rules.specs.Rules.{truth_term};
ghost use Rattle.ct_congr.specs.State.{Marked, IsFirstMark};
ghost use Rattle.ct_explain.specs.Trees.{IsForestOfFirst};
ghost use Rattle.ct_theory.specs.Consulting.{KeepsForests, IsReady, HaveInCommon};

use crate::aside::kept_forests;
use crate::error::TheoryError;
use ct_card::Sizes;
use ct_congr::{ClassMark, Classes, Reason};
use ct_explain::Forest;
use ct_terms::{Lit, TermId};
use std::alloc::Global;

/// Takes back what the classes were told beyond so many literals, which are the first ones of these, and tells them the rest.
/// They were told so many literals at each of their marks; where none of these will do, they begin anew. The forest goes back with them.
pub(crate) fn turn_to(
    alloc: Global,
    classes: &mut Classes,
    told: &mut Vec<usize>,
    forest: &mut Forest,
    literals: &[Lit],
    shared: usize,
) -> Result<(), TheoryError>
    requires ready { IsReady classes.old }
    requires forest { IsForestOfFirst classes.old forest.old }
    requires shared { HaveInCommon shared classes.old.hypotheses literals.now }
    requires stripped { (l : Lit) → Contains literals.now l → IsStripped classes.old.terms l.term }
    ensures ready { OnOk result (IsReady classes.new) }
    ensures forest { OnOk result (IsForestOfFirst classes.new forest.new) }
    ensures declarations { OnOk result (classes.new.declarations ≡ classes.old.declarations) }
    ensures terms { OnOk result (classes.new.terms ≡ classes.old.terms) }
    ensures hypotheses { OnOk result (classes.new.hypotheses ≡ literals.now) }
{
    keep_shared(alloc, classes, told, forest, literals, shared)?;
    let stand = classes.hypotheses().len();
    tell(classes, &literals[stand..])?;
    Ok(())
}

// Takes back what the classes were told beyond so many literals, which are the first ones of these.
fn keep_shared(
    alloc: Global,
    classes: &mut Classes,
    told: &mut Vec<usize>,
    forest: &mut Forest,
    literals: &[Lit],
    shared: usize,
) -> Result<(), TheoryError>
    requires ready { IsReady classes.old }
    requires forest { IsForestOfFirst classes.old forest.old }
    requires shared { HaveInCommon shared classes.old.hypotheses literals.now }
    ensures ready { OnOk result (IsReady classes.new) }
    ensures forest { OnOk result (IsForestOfFirst classes.new forest.new) }
    ensures declarations { OnOk result (classes.new.declarations ≡ classes.old.declarations) }
    ensures terms { OnOk result (classes.new.terms ≡ classes.old.terms) }
    ensures begins { OnOk result (Begins classes.new.hypotheses literals.now) }
{
    prove!(shared <= literals.len());
    go_back(classes, told, forest, shared);
    renew(alloc, classes, forest, shared)?;
    Ok(())
}

// Goes back to the last mark at which the classes had been told no more than so many literals.
fn go_back(classes: &mut Classes, told: &mut Vec<usize>, forest: &mut Forest, most: usize)
    requires forest { IsForestOfFirst classes.old forest.old }
    requires ready { IsReady classes.old }
    ensures forest { IsForestOfFirst classes.new forest.new }
    ensures ready { IsReady classes.new }
    ensures declarations { classes.new.declarations ≡ classes.old.declarations }
    ensures terms { classes.new.terms ≡ classes.old.terms }
    ensures begins { Begins classes.new.hypotheses classes.old.hypotheses }
{
    kept_forests();
    if classes.hypotheses().len() <= most {
        return;
    }
    forget(told, most);
    match mark_before(classes, told.len()) {
        None => {}
        Some(mark) => {
            classes.back_to(&mark);
            forest.back_to(mark.merges);
        }
    }
}

// Drops the numbers at the end that are greater than this one.
fn forget(told: &mut Vec<usize>, most: usize) {
    while let Some(last) = told.last() {
        if *last <= most {
            return;
        }
        told.pop();
    }
}

// The last of so many marks.
fn mark_before(classes: &Classes, count: usize) -> Option<ClassMark>
    ensures kept { IfSome result (λ mark. (k : ℕ) × (at : Marked) × IsFirstMark classes.now.marks mark.merges k at) }
{
    if count == 0 {
        return None;
    }
    mark_at(classes.marks(), count - 1)
}

// The mark with this number.
fn mark_at(marks: &[ClassMark], index: usize) -> Option<ClassMark>
    ensures value { result ≡ slice_get marks.now index }
{
    marks.get(index).copied()
}

// Begins anew where the classes were told more than so many literals.
fn renew(
    alloc: Global,
    classes: &mut Classes,
    forest: &mut Forest,
    most: usize,
) -> Result<(), TheoryError>
    requires forest { IsForestOfFirst classes.old forest.old }
    requires ready { IsReady classes.old }
    ensures forest { OnOk result (IsForestOfFirst classes.new forest.new) }
    ensures ready { OnOk result (IsReady classes.new) }
    ensures declarations { OnOk result (classes.new.declarations ≡ classes.old.declarations) }
    ensures terms { OnOk result (classes.new.terms ≡ classes.old.terms) }
    ensures begins { OnOk result (Begins classes.new.hypotheses classes.old.hypotheses) }
    ensures few { OnOk result (length classes.new.hypotheses ≤ most) }
{
    if classes.hypotheses().len() > most {
        begin_anew(alloc, classes, forest)?;
    }
    Ok(())
}

// Puts new classes that were told nothing in the place of these.
fn begin_anew(alloc: Global, classes: &mut Classes, forest: &mut Forest) -> Result<(), TheoryError>
    ensures forest { OnOk result (IsForestOfFirst classes.new forest.new) }
    ensures ready { OnOk result (IsReady classes.new) }
    ensures declarations { OnOk result (classes.new.declarations ≡ classes.old.declarations) }
    ensures terms { OnOk result (classes.new.terms ≡ classes.old.terms) }
    ensures hypotheses { OnOk result (classes.new.hypotheses ≡ []) }
{
    put_anew(alloc, classes)?;
    *forest = planted_of(alloc, &*classes)?;
    Ok(())
}

// The same without the forest.
fn put_anew(alloc: Global, classes: &mut Classes) -> Result<(), TheoryError>
    ensures ready { OnOk result (IsReady classes.new) }
    ensures declarations { OnOk result (classes.new.declarations ≡ classes.old.declarations) }
    ensures terms { OnOk result (classes.new.terms ≡ classes.old.terms) }
    ensures hypotheses { OnOk result (classes.new.hypotheses ≡ []) }
{
    let fresh = fresh_of(alloc, classes, &[])?;
    *classes = fresh;
    Ok(())
}

/// A forest of the merges of the classes.
pub(crate) fn planted_of(alloc: Global, classes: &Classes) -> Result<Forest, TheoryError>
    ensures forest { IfOk result (IsForestOfFirst classes.now) }
{
    kept_forests();
    let forest = Forest::new(alloc, classes)?;
    Ok(forest)
}

/// New classes of the same terms under these literals.
pub(crate) fn fresh_of(
    alloc: Global,
    classes: &Classes,
    literals: &[Lit],
) -> Result<Classes, TheoryError>
    requires stripped { (l : Lit) → Contains literals.now l → IsStripped classes.now.terms l.term }
    ensures ready { IfOk result IsReady }
    ensures declarations { IfOk result (λ fresh. fresh.declarations ≡ classes.now.declarations) }
    ensures terms { IfOk result (λ fresh. fresh.terms ≡ classes.now.terms) }
    ensures hypotheses { IfOk result (λ fresh. fresh.hypotheses ≡ literals.now) }
{
    let Ok(sizes) = Sizes::new(alloc, classes.signature()) else {
        return Err(TheoryError);
    };
    let fresh = Classes::new(
        alloc,
        classes.signature(),
        &sizes,
        classes.table(),
        literals,
    )?;
    Ok(fresh)
}

// Tells the classes the literals.
fn tell(classes: &mut Classes, literals: &[Lit]) -> Result<(), TheoryError>
    requires ready { IsReady classes.old }
    requires stripped { (l : Lit) → Contains literals.now l → IsStripped classes.old.terms l.term }
    ensures forests { OnOk result (KeepsForests classes.old classes.new) }
    ensures ready { OnOk result (IsReady classes.new) }
    ensures declarations { OnOk result (classes.new.declarations ≡ classes.old.declarations) }
    ensures terms { OnOk result (classes.new.terms ≡ classes.old.terms) }
    ensures hypotheses { OnOk result (classes.new.hypotheses ≡ classes.old.hypotheses ++ literals.now) }
{
    for literal in literals {
        tell_one(classes, *literal)?;
    }
    Ok(())
}

// Tells the classes the literal.
fn tell_one(classes: &mut Classes, literal: Lit) -> Result<(), TheoryError>
    requires ready { IsReady classes.old }
    requires stripped { IsStripped classes.old.terms literal.term }
    ensures forests { OnOk result (KeepsForests classes.old classes.new) }
    ensures ready { OnOk result (IsReady classes.new) }
    ensures declarations { OnOk result (classes.new.declarations ≡ classes.old.declarations) }
    ensures terms { OnOk result (classes.new.terms ≡ classes.old.terms) }
    ensures hypotheses { OnOk result (classes.new.hypotheses ≡ classes.old.hypotheses ++ literal ∷ []) }
{
    kept_forests();
    classes.merge(literal.term, truth(literal.positive), Reason::Hyp(literal))?;
    Ok(())
}

// The truth value as a term.
fn truth(positive: bool) -> TermId
    ensures value { result ≡ truth_term positive }
{
    if positive { TermId(0) } else { TermId(1) }
}
