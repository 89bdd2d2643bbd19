//! What is cached beside the classes of a theory, so that a conflict costs only what is new.
ghost use Rattle.std.specs.Prelude.{◌≡◌, ◌≤◌, ◌++◌, List, length, take, IfOk};
ghost use Rattle.ct_congr.specs.declared.merge.Merge.{Merge};
ghost use Rattle.ct_congr.specs.State.{State};
ghost use Rattle.ct_explain.specs.Trees.{Planted, IsForestOfFirst, IsForestOfClasses};
ghost use Rattle.ct_theory.specs.Consulting.{KeepsForests, IsAsideOf, MayBeAsideOf};

use crate::error::TheoryError;
use crate::pace::{Pace, first_pace};
use crate::shorter::Spare;
use crate::telling::planted_of;
use ct_congr::Classes;
use ct_explain::{Forest, forests};
use std::alloc::Global;

/// A forest of the first merges of the classes, classes for a second answer, where there was one, and when the next is due.
#[derive(Drop)]
pub(crate) struct Aside {
    /// The forest.
    pub(crate) forest: Forest,
    /// Classes for a second answer.
    pub(crate) spare: Option<Spare>,
    /// When a second answer is due.
    pub(crate) pace: Pace,
}

/// What was kept; a forest alone where nothing was.
pub(crate) fn taken(
    alloc: Global,
    classes: &Classes,
    aside: &mut Option<Aside>,
) -> Result<Aside, TheoryError>
    requires kept { MayBeAsideOf classes.now aside.old }
    ensures aside { IfOk result (IsAsideOf classes.now) }
{
    match aside.take() {
        Some(aside) => Ok(aside),
        None => beginning(alloc, classes),
    }
}

// A forest alone.
fn beginning(alloc: Global, classes: &Classes) -> Result<Aside, TheoryError>
    ensures aside { IfOk result (IsAsideOf classes.now) }
{
    let forest = planted_of(alloc, classes)?;
    Ok(Aside {
        forest,
        spare: None,
        pace: first_pace(),
    })
}

/// What becomes of forests of the first merges of classes, where these get more merges or go back to fewer. It does nothing: a
/// proof that needs this calls it.
pub(crate) fn kept_forests()
    ensures all { (state : State) (planted : Planted) → IsForestOfClasses state planted → IsForestOfFirst state planted }
    ensures more { (old new : State) (more : List Merge) → new.terms ≡ old.terms → new.merges ≡ old.merges ++ more → KeepsForests old new }
    ensures fewer { (old new : State) (planted : Planted) → new.terms ≡ old.terms → planted.count ≤ length new.merges
        → new.merges ≡ take (length new.merges) old.merges → IsForestOfFirst old planted → IsForestOfFirst new planted }
{
    forests();
}
