//! The turns up to an answer, and setting a mark on classes without a contradiction.
ghost use Rattle.std.specs.Prelude.{◌≡◌, ℕ, List, Contains, IfOk, OnOk};
ghost use Rattle.ct_sorts.specs.Declarations.{Declarations};
ghost use Rattle.ct_terms.specs.declared.ids.TermId.{TermId};
ghost use Rattle.ct_terms.specs.declared.ids.Lit.{Lit};
ghost use Rattle.ct_terms.specs.Literal.{IsStripped};
ghost use Rattle.ct_terms.specs.Terms.{Terms};
ghost use Rattle.ct_congr.specs.State.{IsQuiet};
ghost use Rattle.ct_explain.specs.Trees.{IsForestOfFirst};
ghost use Rattle.ct_theory.specs.Entailment.{IsSaturation};
ghost use Rattle.ct_theory.specs.Consulting.{KeepsForests, IsReady, IsConsulted};

use crate::asking::Consulted;
use crate::error::TheoryError;
use crate::turn::{Turn, take_turn};
use ct_congr::Classes;
use ct_explain::Forest;
use std::alloc::Global;

/// Closes the classes, and makes bisimilar ones one, until their literals contradict each other or no rule is left.
pub(crate) fn answer(
    alloc: Global,
    classes: &mut Classes,
    forest: &mut Forest,
) -> Result<Consulted, TheoryError>
    requires ready { IsReady classes.old }
    requires forest { IsForestOfFirst classes.old forest.old }
    requires stripped { (l : Lit) → Contains classes.old.hypotheses l → IsStripped classes.old.terms l.term }
    ensures declarations { OnOk result (classes.new.declarations ≡ classes.old.declarations) }
    ensures terms { OnOk result (classes.new.terms ≡ classes.old.terms) }
    ensures forest { OnOk result (IsForestOfFirst classes.new forest.new) }
    ensures hypotheses { OnOk result (classes.new.hypotheses ≡ classes.old.hypotheses) }
    ensures ready { OnOk result (IsReady classes.new) }
    ensures consulted { IfOk result (IsConsulted classes.old.declarations classes.old.terms classes.old.hypotheses classes.new) }
{
    'turns: loop {
        match take_turn(alloc, classes, forest)? {
            Turn::Conflict(conflict) => return Ok(Consulted::Conflict(conflict)),
            Turn::Saturated(order) => return Ok(Consulted::Saturated(order)),
            Turn::Merged => {}
        }
    }
}

/// Marks the classes, to which no rule adds, unless nothing was merged since the last mark.
pub(crate) fn keep(classes: &mut Classes, told: &mut Vec<usize>) -> Result<(), TheoryError>
    requires quiet { IsQuiet classes.old }
    requires ready { IsReady classes.old }
    ensures declarations { OnOk result (classes.new.declarations ≡ classes.old.declarations) }
    ensures terms { OnOk result (classes.new.terms ≡ classes.old.terms) }
    ensures forests { OnOk result (KeepsForests classes.old classes.new) }
    ensures hypotheses { OnOk result (classes.new.hypotheses ≡ classes.old.hypotheses) }
    ensures ready { OnOk result (IsReady classes.new) }
    ensures saturation { OnOk result ((d : Declarations) (terms : Terms) (literals : List Lit) (order : List TermId)
        → IsSaturation d terms literals classes.old order
        → IsSaturation d terms literals classes.new order) }
{
    if is_marked(classes) {
        return Ok(());
    }
    told.push(classes.hypotheses().len())?;
    classes.mark()?;
    Ok(())
}

// Whether nothing was merged since the last mark.
fn is_marked(classes: &Classes) -> bool {
    match classes.marks().last() {
        Some(mark) => mark.merges == classes.merges().len() as u64,
        None => false,
    }
}
