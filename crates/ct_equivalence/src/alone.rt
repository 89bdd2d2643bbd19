//! Terms that are alone in their classes.
ghost use Rattle.std.specs.Prelude.{◌≡◌, ◌<◌, [], ◌∷◌, List, length, IfOk, slice_get, Some};
ghost use Rattle.ct_terms.specs.declared.ids.TermId.{TermId};
ghost use Rattle.ct_equivalence.specs.Partition.{AreAlone};
ghost use Rattle.ct_equivalence.specs.Parents.{IsOwnCon, AreOwnCons};

use crate::error::EquivalenceError;
use crate::rows::Rows;
use ct_terms::{Core, TermId, TermTable};
use std::alloc::Global;

/// So many terms, each its own representative.
pub(crate) fn own_representatives(
    alloc: Global,
    count: u32,
) -> Result<Vec<TermId>, EquivalenceError>
    ensures alone { IfOk result (λ reps. AreAlone count reps.items) }
{
    let mut reps = Vec::with_capacity(alloc, count as usize)?;
    for t in 0..count {
        reps.push(TermId(t))?;
    }
    Ok(reps)
}

/// So many rows, each of its own term alone.
pub(crate) fn own_rows(alloc: Global, count: u32) -> Result<Rows, EquivalenceError>
    ensures long { IfOk result (λ rows. length rows ≡ count) }
    ensures alone { IfOk result (λ rows. (t : TermId) (row : List TermId) → slice_get rows t.0 ≡ Some row → row ≡ t ∷ []) }
{
    let mut rows = Rows::new(alloc);
    for t in 0..count {
        rows.add_row()?;
        rows.push(TermId(t), TermId(t))?;
    }
    Ok(rows)
}

/// Each constructor term at its own number.
pub(crate) fn own_constructors(
    alloc: Global,
    table: &TermTable,
) -> Result<Vec<Option<TermId>>, EquivalenceError>
    ensures long { IfOk result (λ cons. length cons.items ≡ length table.now) }
    ensures cons { IfOk result (λ cons. AreOwnCons table.now cons.items) }
{
    let mut cons = Vec::with_capacity(alloc, table.len() as usize)?;
    for t in 0..table.len() {
        cons.push(own_constructor(table, TermId(t)))?;
    }
    Ok(cons)
}

// The term itself, if it is a constructor term.
fn own_constructor(table: &TermTable, t: TermId) -> Option<TermId>
    requires inside { t.0 < length table.now }
    ensures con { IsOwnCon table.now t result }
{
    match table.core(t) {
        Core::Con(_, _) => Some(t),
        _ => None,
    }
}
