//! The graph of the classes of datatypes: the children of a class's representative are the representatives of the arguments of
//! its constructor term.
ghost use Rattle.std.specs.Prelude.{◌≡◌, ◌<◌, ◌-◌, ℕ, length, IfOk, OnOk};
ghost use Rattle.std.specs.List.{AllByRecursion};
ghost use Rattle.ct_sorts.specs.declared.ids.SortId.{SortId};
ghost use Rattle.ct_terms.specs.declared.ids.TermId.{TermId};
ghost use Rattle.ct_terms.specs.Terms.{IsOfSort};
ghost use Rattle.ct_congr.specs.State.{AreEqual, IsQuiet};
ghost use Rattle.ct_ordering.specs.Graph.{graph, ArePoints};
ghost use Rattle.ct_acyclic.specs.Edges.{AddsReps, AddsRow, AreRows, IsRow};

use crate::classes::is_data_class;
use ct_congr::Classes;
use ct_ordering::OrderingError;
use ct_terms::{Core, TermId};
use std::alloc::Global;

/// The kids of all terms, one after the other, and where those of each begin, with the end of the last.
#[derive(Debug, Drop)]
pub(crate) struct Adjacency {
    pub(crate) starts: Vec<usize>,
    pub(crate) kids: Vec<usize>,
}

/// The graph of the classes of datatypes.
pub(crate) fn edges(alloc: Global, classes: &Classes) -> Result<Adjacency, OrderingError>
    requires quiet { IsQuiet classes.now }
    ensures rows { IfOk result (λ edges. AreRows (length classes.now.terms) (IsRow classes.now) (length classes.now.terms) edges.starts.items edges.kids.items) }
    ensures long { length classes.now.reps ≡ length classes.now.terms }
    ensures one_sort { (x y : TermId) (s : SortId) → AreEqual classes.now x y → IsOfSort classes.now.terms x s → IsOfSort classes.now.terms y s }
    ensures formed { IfOk result (λ edges. ArePoints edges.starts.items edges.kids.items) }
{
    prove!(classes.merges().len() >= 0);
    let table = classes.table();
    let mut starts = Vec::new(alloc);
    let mut kids = Vec::new(alloc);
    starts.push(0)?;
    for t in 0..table.len() {
        add_row(classes, TermId(t), &mut kids)?;
        starts.push(kids.len())?;
    }
    Ok(Adjacency { starts, kids })
}

// Adds the kids of the term.
fn add_row(classes: &Classes, t: TermId, kids: &mut Vec<usize>) -> Result<(), OrderingError>
    requires quiet { IsQuiet classes.now }
    requires inside { t.0 < length classes.now.terms }
    ensures row { OnOk result (AddsRow classes.now t.0 kids.old.items kids.new.items) }
{
    let table = classes.table();
    if !is_data_class(classes, t) {
        return Ok(());
    }
    let Some(con) = classes.con_of(t) else {
        return Ok(());
    };
    let Core::Con(_, args) = table.core(con) else {
        return Ok(());
    };
    add_reps(classes, args.as_slice(), kids)?;
    Ok(())
}

// Adds the numbers of the representatives of the terms.
fn add_reps(classes: &Classes, terms: &[TermId], kids: &mut Vec<usize>) -> Result<(), OrderingError>
    requires inside { AllByRecursion (λ t. t.0 < length classes.now.terms) terms.now }
    ensures added { OnOk result (AddsReps classes.now.reps terms.now kids.old.items kids.new.items) }
{
    for t in terms {
        kids.push(classes.rep(*t).0 as usize)?;
    }
    Ok(())
}
