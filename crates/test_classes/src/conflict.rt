//! What contradicts itself in closed classes, as the steps and the closing rule of a line.
ghost use Rattle.ct_explain.specs.Trees.{IsForestOfClasses};

use crate::explain::explain;
use ct_cases::CaseError;
use ct_congr::Classes;
use ct_explain::{EqProof, Forest};
use ct_log::{Close, Hop};
use ct_sorts::Items;
use ct_terms::{Core, TermId, TermTable};
use std::alloc::Global;

/// Explains two terms of different constructors in one class.
pub fn clash(
    classes: &Classes,
    forest: &Forest,
    a: TermId,
    b: TermId,
    proof: &mut EqProof,
) -> Result<Close, CaseError>
    requires forest { IsForestOfClasses classes.now forest.now }
{
    Ok(Close::Clash(explain(classes, forest, a, b, proof)?))
}

/// Explains each hop of a cycle: the argument equals the next constructor term.
pub fn cycle(
    alloc: Global,
    classes: &Classes,
    forest: &Forest,
    hops: &[(TermId, u32)],
    proof: &mut EqProof,
) -> Result<Close, CaseError>
    requires forest { IsForestOfClasses classes.now forest.now }
{
    let mut explained = Vec::new(alloc);
    for k in 0..hops.len() {
        let (con, place) = hops[k];
        let next = if k + 1 < hops.len() {
            hops[k + 1]
        } else {
            hops[0]
        };
        let argument = argument(classes.table(), con, place)?;
        let step = explain(classes, forest, argument, next.0, proof)?;
        explained.push(Hop {
            con,
            place: place as u64,
            step,
        })?;
    }
    Ok(Close::Cycle(Items::new(explained)))
}

/// The argument of the constructor term at this place.
fn argument(table: &TermTable, con: TermId, place: u32) -> Result<TermId, CaseError> {
    if con.0 >= table.len() {
        return Err(CaseError::Bad);
    }
    match table.core(con) {
        Core::Con(_, args) => args
            .as_slice()
            .get(place as usize)
            .copied()
            .ok_or(CaseError::Bad),
        _ => Err(CaseError::Bad),
    }
}
