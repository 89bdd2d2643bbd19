//! A question that costs only what is new: the rules are applied, and the classes are marked if there is no contradiction.
ghost use Rattle.std.specs.Prelude.{◌≡◌, Contains, IfOk, IfSome, OnOk, MatchOption};
ghost use Rattle.ct_terms.specs.declared.ids.Lit.{Lit};
ghost use Rattle.ct_terms.specs.Literal.{IsStripped};
ghost use Rattle.ct_congr.specs.State.{IsQuiet};
ghost use Rattle.ct_explain.specs.Trees.{IsForestOfFirst};
ghost use Rattle.ct_theory.specs.Entailment.{IsConflictOf};
ghost use Rattle.ct_theory.specs.Consulting.{IsReady, HaveInCommon, IsAsideOf};

use crate::answer::{answer, keep};
use crate::aside::{Aside, kept_forests};
use crate::asking::Consulted;
use crate::conflict::{Conflict, clash};
use crate::error::TheoryError;
use crate::shorter::shorter;
use crate::telling::turn_to;
use crate::watched::{Watch, calls_for_look};
use ct_congr::{Classes, Closed};
use ct_explain::Forest;
use ct_terms::Lit;
use std::alloc::Global;

/// A contradiction among the literals, if a quick look finds one. The classes had been told so many literals at each of their
/// marks.
pub(crate) fn refute(
    alloc: Global,
    classes: &mut Classes,
    told: &mut Vec<usize>,
    watch: &mut Watch,
    aside: &mut Aside,
    literals: &[Lit],
    shared: usize,
) -> Result<Option<Conflict>, TheoryError>
    requires ready { IsReady classes.old }
    requires aside { IsAsideOf classes.old aside.old }
    requires shared { HaveInCommon shared classes.old.hypotheses literals.now }
    requires stripped { (l : Lit) → Contains literals.now l → IsStripped classes.old.terms l.term }
    ensures declarations { OnOk result (classes.new.declarations ≡ classes.old.declarations) }
    ensures terms { OnOk result (classes.new.terms ≡ classes.old.terms) }
    ensures aside { OnOk result (IsAsideOf classes.new aside.new) }
    ensures told { OnOk result (classes.new.hypotheses ≡ literals.now) }
    ensures ready { OnOk result (IsReady classes.new) }
    ensures conflict { IfOk result (λ found. IfSome found (λ c. IsConflictOf classes.new.declarations classes.new.terms literals.now c.clause c.steps c.close)) }
{
    turn_to(alloc, classes, told, &mut aside.forest, literals, shared)?;
    match look(alloc, classes, watch, &mut aside.forest)? {
        Some(conflict) => {
            let short = shorter(
                alloc,
                &*classes,
                &mut aside.pace,
                &mut aside.spare,
                literals,
                conflict,
            )?;
            Ok(Some(short))
        }
        None => {
            keep(classes, told)?;
            Ok(None)
        }
    }
}

// A contradiction among the hypotheses of the classes, if one is found; else no rule but uniqueness adds to them.
fn look(
    alloc: Global,
    classes: &mut Classes,
    watch: &mut Watch,
    forest: &mut Forest,
) -> Result<Option<Conflict>, TheoryError>
    requires ready { IsReady classes.old }
    requires forest { IsForestOfFirst classes.old forest.old }
    requires stripped { (l : Lit) → Contains classes.old.hypotheses l → IsStripped classes.old.terms l.term }
    ensures declarations { OnOk result (classes.new.declarations ≡ classes.old.declarations) }
    ensures terms { OnOk result (classes.new.terms ≡ classes.old.terms) }
    ensures forest { OnOk result (IsForestOfFirst classes.new forest.new) }
    ensures hypotheses { OnOk result (classes.new.hypotheses ≡ classes.old.hypotheses) }
    ensures ready { OnOk result (IsReady classes.new) }
    ensures found { IfOk result (λ found. MatchOption found
        (IsQuiet classes.new)
        (λ c. IsConflictOf classes.old.declarations classes.old.terms classes.old.hypotheses c.clause c.steps c.close)) }
{
    kept_forests();
    match classes.close_or_clash()? {
        Closed::Clash(a, b) => Ok(Some(clash(alloc, &*classes, forest, a, b)?)),
        Closed::Quiet => look_on(alloc, classes, watch, forest),
    }
}

// The same for closed classes without a clash.
fn look_on(
    alloc: Global,
    classes: &mut Classes,
    watch: &mut Watch,
    forest: &mut Forest,
) -> Result<Option<Conflict>, TheoryError>
    requires quiet { IsQuiet classes.old }
    requires ready { IsReady classes.old }
    requires forest { IsForestOfFirst classes.old forest.old }
    requires stripped { (l : Lit) → Contains classes.old.hypotheses l → IsStripped classes.old.terms l.term }
    ensures declarations { OnOk result (classes.new.declarations ≡ classes.old.declarations) }
    ensures terms { OnOk result (classes.new.terms ≡ classes.old.terms) }
    ensures forest { OnOk result (IsForestOfFirst classes.new forest.new) }
    ensures hypotheses { OnOk result (classes.new.hypotheses ≡ classes.old.hypotheses) }
    ensures ready { OnOk result (IsReady classes.new) }
    ensures found { IfOk result (λ found. MatchOption found
        (IsQuiet classes.new)
        (λ c. IsConflictOf classes.old.declarations classes.old.terms classes.old.hypotheses c.clause c.steps c.close)) }
{
    if !calls_for_look(&*classes, watch)? {
        return Ok(None);
    }
    match answer(alloc, classes, forest)? {
        Consulted::Conflict(conflict) => Ok(Some(conflict)),
        Consulted::Saturated(_) => Ok(None),
    }
}
