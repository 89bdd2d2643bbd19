//! One turn of asking the theory: close the classes, look for a contradiction, and merge two bisimilar classes.
ghost use Rattle.std.specs.Prelude.{◌≡◌, ℕ, List, Contains, IfOk, OnOk};
ghost use Rattle.ct_sorts.specs.Declarations.{Declarations};
ghost use Rattle.ct_terms.specs.declared.ids.TermId.{TermId};
ghost use Rattle.ct_terms.specs.declared.ids.Lit.{Lit};
ghost use Rattle.ct_terms.specs.Literal.{IsStripped};
ghost use Rattle.ct_terms.specs.Terms.{Terms};
ghost use Rattle.ct_rules.specs.Cycle.{IsCycle};
ghost use Rattle.ct_congr.specs.State.{AreEqual, IsQuiet};
ghost use Rattle.ct_acyclic.specs.Order.{IsClassOrder};
ghost use Rattle.ct_explain.specs.Trees.{IsForestOfFirst};
ghost use Rattle.ct_theory.specs.Consulting.{KeepsForests, IsUnderWay, IsTurn};

use crate::aside::kept_forests;
use crate::conflict::{Conflict, clash};
use crate::cycle::cycle;
use crate::error::TheoryError;
use crate::finite::{are_finite, finite_classes};
use ct_acyclic::{Order, OrderError, order};
use ct_congr::{Classes, Closed, Reason, classes_of_merges};
use ct_explain::Forest;
use ct_unique::{coarsest, pairs};
use std::alloc::Global;

/// What a turn came to.
#[derive(Debug, Drop)]
pub(crate) enum Turn {
    /// The literals do not hold together.
    Conflict(Conflict),
    /// No rule adds to the classes. The classes of datatypes have this order.
    Saturated(Order),
    /// Two classes were made one by uniqueness.
    Merged,
}

/// Closes the classes, unless two constructors meet, and looks what they come to. After an error the classes are to be dropped.
pub(crate) fn take_turn(
    alloc: Global,
    classes: &mut Classes,
    forest: &mut Forest,
) -> Result<Turn, TheoryError>
    requires forest { IsForestOfFirst classes.old forest.old }
    requires stripped { (l : Lit) → Contains classes.old.hypotheses l → IsStripped classes.old.terms l.term }
    ensures forest { OnOk result (IsForestOfFirst classes.new forest.new) }
    ensures marks { OnOk result (classes.new.marks ≡ classes.old.marks) }
    ensures under_way { OnOk result ((d : Declarations) (terms : Terms) (literals : List Lit)
        → IsUnderWay d terms literals classes.old
        → IsUnderWay d terms literals classes.new) }
    ensures turn { IfOk result (λ turn. (d : Declarations) (terms : Terms) (literals : List Lit)
        → IsUnderWay d terms literals classes.old
        → IsTurn d terms literals classes.old classes.new turn) }
{
    kept_forests();
    classes_of_merges();
    prove!(classes.merges().len() >= 0);
    let closed = classes.close_or_clash()?;
    prove!(classes.merges().len() >= 0);
    match closed {
        Closed::Clash(a, b) => Ok(Turn::Conflict(clash(alloc, &*classes, forest, a, b)?)),
        Closed::Quiet => turn_of_quiet(alloc, classes, forest),
    }
}

// The same for closed classes without a clash.
fn turn_of_quiet(
    alloc: Global,
    classes: &mut Classes,
    forest: &mut Forest,
) -> Result<Turn, TheoryError>
    requires quiet { IsQuiet classes.old }
    requires forest { IsForestOfFirst classes.old forest.old }
    requires stripped { (l : Lit) → Contains classes.old.hypotheses l → IsStripped classes.old.terms l.term }
    ensures forest { OnOk result (IsForestOfFirst classes.new forest.new) }
    ensures marks { OnOk result (classes.new.marks ≡ classes.old.marks) }
    ensures under_way { OnOk result ((d : Declarations) (terms : Terms) (literals : List Lit)
        → IsUnderWay d terms literals classes.old
        → IsUnderWay d terms literals classes.new) }
    ensures turn { IfOk result (λ turn. (d : Declarations) (terms : Terms) (literals : List Lit)
        → IsUnderWay d terms literals classes.old
        → IsTurn d terms literals classes.old classes.new turn) }
{
    match order(alloc, &*classes) {
        Ok(found) => unify(alloc, classes, found),
        Err(OrderError::Cycle(hops)) => Ok(Turn::Conflict(cycle(alloc, &*classes, forest, &hops)?)),
        Err(OrderError::NoMemory) => Err(TheoryError),
    }
}

// Makes two bisimilar classes one, where there are any. The classes of datatypes have this order.
fn unify(alloc: Global, classes: &mut Classes, found: Order) -> Result<Turn, TheoryError>
    requires quiet { IsQuiet classes.old }
    requires ordered { IsClassOrder classes.old found.reps.items }
    requires acyclic { (hops : List (TermId × ℕ)) → IsCycle classes.old.declarations classes.old.terms (AreEqual classes.old) hops → ⊥ }
    ensures forests { OnOk result (KeepsForests classes.old classes.new) }
    ensures marks { OnOk result (classes.new.marks ≡ classes.old.marks) }
    ensures under_way { OnOk result ((d : Declarations) (terms : Terms) (literals : List Lit)
        → IsUnderWay d terms literals classes.old
        → IsUnderWay d terms literals classes.new) }
    ensures turn { IfOk result (λ turn. (d : Declarations) (terms : Terms) (literals : List Lit)
        → IsUnderWay d terms literals classes.old
        → IsTurn d terms literals classes.old classes.new turn) }
{
    kept_forests();
    classes_of_merges();
    prove!(classes.merges().len() >= 0);
    if are_finite(classes.signature(), classes.table()) {
        finite_classes(&*classes, found.reps.as_slice());
        return Ok(Turn::Saturated(found));
    }
    let partition = coarsest(alloc, &*classes)?;
    match partition.first_pair(&*classes) {
        None => Ok(Turn::Saturated(found)),
        Some((a, b)) => {
            let listed = pairs(alloc, &partition, &*classes, a, b)?;
            classes.merge(a, b, Reason::Unique(listed))?;
            prove!(classes.merges().len() >= 0);
            Ok(Turn::Merged)
        }
    }
}
