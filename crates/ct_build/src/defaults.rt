//! A default value for each sort.
ghost use Rattle.std.specs.Prelude.{◌≡◌, ◌<◌, ◌≤◌, length, IfOk};
ghost use Rattle.ct_sorts.specs.Grown.{Begins};
ghost use Rattle.ct_sorts.specs.Declarations.{IsSort};
ghost use Rattle.ct_values.specs.Fitting.{HasNodeSort};
ghost use Rattle.ct_values.specs.WellFormed.{IsWellFormedGraph};
ghost use Rattle.ct_card.specs.Sizes.{AreSizes};
ghost use Rattle.ct_build.specs.OpenClasses.{AreOfAllSorts};
ghost use Rattle.ct_build.specs.Nodes.{AreStored};

use crate::error::BuildError;
use ct_card::Sizes;
use ct_sorts::{Signature, SortId};
use ct_values::{Graph, NodeId, sort_of};
use std::alloc::Global;

/// A node of each sort, which are put after the graph. One default value brings nodes of other sorts with it, and these are
/// taken for those sorts, so that the graph grows by what one call puts there.
pub(crate) fn default_nodes(
    alloc: Global,
    sig: &Signature,
    sizes: &Sizes,
    g: &mut Graph,
) -> Result<Vec<NodeId>, BuildError>
    requires sizes { AreSizes sig.now sizes.now }
    ensures grown { Begins g.old g.new }
    ensures well_formed { IsWellFormedGraph sig.now g.old → IsWellFormedGraph sig.now g.new }
    ensures nodes { IfOk result (λ list. AreOfAllSorts sig.now g.new list.items) }
{
    let mut found = vec![in alloc; None; sig.sorts() as usize]?;
    let mut list = Vec::new(alloc);
    for s in 0..sig.sorts() {
        let n = node_of_sort(sig, sizes, g, &mut found, SortId(s))?;
        list.push(n)?;
    }
    Ok(list)
}

// The node that is stored for the sort, or a default value after the graph; the nodes that come with it are stored.
fn node_of_sort(
    sig: &Signature,
    sizes: &Sizes,
    g: &mut Graph,
    found: &mut Vec<Option<NodeId>>,
    s: SortId,
) -> Result<NodeId, BuildError>
    requires sizes { AreSizes sig.now sizes.now }
    requires inside { IsSort sig.now s }
    requires long { length found.old.items ≡ length sig.now.sorts }
    requires stored { AreStored sig.now g.old found.old.items }
    ensures grown { Begins g.old g.new }
    ensures well_formed { IsWellFormedGraph sig.now g.old → IsWellFormedGraph sig.now g.new }
    ensures sorted { IfOk result (λ n. HasNodeSort sig.now g.new n s) }
    ensures long { length found.new.items ≡ length sig.now.sorts }
    ensures stored { AreStored sig.now g.new found.new.items }
{
    if let Some(n) = found[s.0 as usize] {
        return Ok(n);
    }
    let from = g.len();
    let n = sizes.default_value(sig, g, s)?;
    store(sig, g, from, found);
    Ok(n)
}

// Stores the nodes from this number on for their sorts.
fn store(sig: &Signature, g: &Graph, from: u64, found: &mut Vec<Option<NodeId>>)
    requires stored { AreStored sig.now g.now found.old.items }
    ensures long { length found.new.items ≡ length found.old.items }
    ensures stored { AreStored sig.now g.now found.new.items }
{
    for n in from..g.len() {
        store_node(sig, g, NodeId(n), found);
    }
}

// Stores the node for its sort.
fn store_node(sig: &Signature, g: &Graph, n: NodeId, found: &mut Vec<Option<NodeId>>)
    requires stored { AreStored sig.now g.now found.old.items }
    ensures long { length found.new.items ≡ length found.old.items }
    ensures stored { AreStored sig.now g.now found.new.items }
{
    let Some(s) = sort_of(sig, g, n) else {
        return;
    };
    if s.0 as usize >= found.len() {
        return;
    }
    found[s.0 as usize] = Some(n);
}
