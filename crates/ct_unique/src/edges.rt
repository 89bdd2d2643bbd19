//! The children of the points: those of a class's representative are the representatives of the arguments of its constructor
//! term.
ghost use Rattle.std.specs.Prelude.{◌≡◌, ◌<◌, ℕ, length, IfOk, OnOk};
ghost use Rattle.std.specs.List.{AllByRecursion};
ghost use Rattle.ct_terms.specs.Terms.{AreSorted};
ghost use Rattle.ct_unique.specs.Nodes.{AddsReps, AddsRow, AreRows, IsRow};

use crate::error::UniqueError;
use crate::nodes::own_con;
use ct_congr::Classes;
use ct_terms::{Core, TermId};
use std::alloc::Global;

/// The children of all terms, one after the other, and where those of each begin, with the end of the last.
#[derive(Debug, Drop)]
pub(crate) struct Adjacency {
    pub(crate) starts: Vec<usize>,
    pub(crate) children: Vec<usize>,
}

/// The children of the terms.
pub(crate) fn rows(alloc: Global, classes: &Classes) -> Result<Adjacency, UniqueError>
    ensures rows { IfOk result (λ rows. AreRows (length classes.now.terms) (IsRow classes.now) (length classes.now.terms) rows.starts.items rows.children.items) }
    ensures long { length classes.now.reps ≡ length classes.now.terms }
    ensures sorted { AreSorted classes.now.declarations classes.now.terms }
{
    prove!(classes.merges().len() >= 0);
    let table = classes.table();
    let mut starts = Vec::new(alloc);
    let mut children = Vec::new(alloc);
    starts.push(0)?;
    for t in 0..table.len() {
        add_row(classes, TermId(t), &mut children)?;
        starts.push(children.len())?;
    }
    Ok(Adjacency { starts, children })
}

// Adds the children of the term.
fn add_row(classes: &Classes, t: TermId, children: &mut Vec<usize>) -> Result<(), UniqueError>
    requires inside { t.0 < length classes.now.terms }
    ensures row { OnOk result (AddsRow classes.now t.0 children.old.items children.new.items) }
{
    let table = classes.table();
    let Some(con) = own_con(classes, t) else {
        return Ok(());
    };
    let Core::Con(_, args) = table.core(con) else {
        return Ok(());
    };
    add_reps(classes, args.as_slice(), children)?;
    Ok(())
}

// Adds the numbers of the representatives of the terms.
fn add_reps(
    classes: &Classes,
    terms: &[TermId],
    children: &mut Vec<usize>,
) -> Result<(), UniqueError>
    requires inside { AllByRecursion (λ t. t.0 < length classes.now.terms) terms.now }
    ensures added { OnOk result (AddsReps classes.now.reps terms.now children.old.items children.new.items) }
{
    for t in terms {
        children.push(classes.rep(*t).0 as usize)?;
    }
    Ok(())
}
