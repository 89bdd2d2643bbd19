//! Turns a cycle of points into a cycle of constructor terms.
ghost use Rattle.std.specs.Prelude.{◌≡◌, ℕ, ◌<◌, length, Some, slice_get, IfOk};
ghost use Rattle.std.specs.List.{AllZip};
ghost use Rattle.ct_terms.specs.declared.ids.TermId.{TermId};
ghost use Rattle.ct_ordering.specs.declared.hop.Hop.{Hop};
ghost use Rattle.ct_acyclic.specs.Edges.{IsEntry, StoredLeads};

use crate::classes::term;
use ct_congr::Classes;
use ct_ordering::{Hop, OrderingError};
use ct_terms::TermId;
use std::alloc::Global;

/// The hops, each as the constructor term of its class and the place of the argument.
pub(crate) fn entries(
    alloc: Global,
    classes: &Classes,
    hops: &[Hop],
) -> Result<Vec<(TermId, u32)>, OrderingError>
    requires leads { (k : ℕ) (hop : Hop) → slice_get hops.now k ≡ Some hop → (next : TermId) × StoredLeads classes.now hop.point hop.place next }
    requires within { (k : ℕ) (hop : Hop) → slice_get hops.now k ≡ Some hop → hop.point < length classes.now.terms }
    ensures entries { IfOk result (λ list. AllZip (IsEntry classes.now) hops.now list.items) }
{
    let mut list = Vec::new(alloc);
    for hop in hops {
        list.push(entry(classes, *hop))?;
    }
    Ok(list)
}

// The same for one hop.
fn entry(classes: &Classes, hop: Hop) -> (TermId, u32)
    requires leads { (next : TermId) × StoredLeads classes.now hop.point hop.place next }
    requires within { hop.point < length classes.now.terms }
    ensures entry { IsEntry classes.now hop result }
{
    prove!(classes.table().len() > 0);
    prove!(classes.signature().sorts() > 0);
    match classes.con_of(term(classes, hop.point)) {
        Some(con) => (con, hop.place as u32),
        None => unreachable!(),
    }
}
