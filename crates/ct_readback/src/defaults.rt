//! Default values of sorts, which are the tables of selectors that are never wrongly applied.
ghost use Rattle.std.specs.Prelude.{◌≡◌, slice_get, IfOk, OnOk};
ghost use Rattle.ct_sorts.specs.Declarations.{Declarations, IsSort};
ghost use Rattle.ct_sorts.specs.Grown.{Begins};
ghost use Rattle.ct_values.specs.Graph.{Nodes};
ghost use Rattle.ct_values.specs.WellFormed.{IsWellFormedGraph};
ghost use Rattle.ct_card.specs.Sizes.{AreSizes, Table as SizesTable};
ghost use Rattle.ct_readback.specs.Progress.{AreDefaults, IsDefaultNode, IsOtherTable};

use crate::pool::Pool;
use ct_card::{CardError, Sizes};
use ct_eval::{Rows, Table};
use ct_sorts::{Signature, SortId};
use ct_values::NodeId;
use std::alloc::Global;

/// For each sort the node with its default value, once one was asked for.
#[derive(Debug, Drop)]
pub(crate) struct Defaults {
    nodes: Vec<NodeId>,
}

/// None yet. Takes no memory.
pub(crate) fn no_defaults(alloc: Global) -> Defaults
    ensures defaults { (d : Declarations) (sizes : SizesTable) (g : Nodes) → AreDefaults d sizes g result.nodes.items }
{
    Defaults {
        nodes: Vec::new(alloc),
    }
}

// The node of the sort, where they were made.
fn made(defaults: &Defaults, s: SortId) -> Option<NodeId>
    ensures value { result ≡ slice_get defaults.now.nodes.items s.0 }
{
    defaults.nodes.get(s.0 as usize).copied()
}

// The node with the default value of the sort. Those of all sorts are made the first time.
fn default_of(
    sig: &Signature,
    sizes: &Sizes,
    s: SortId,
    graph: &mut Pool,
    defaults: &mut Defaults,
) -> Result<NodeId, CardError>
    requires sizes { AreSizes sig.now sizes.now }
    requires inside { IsSort sig.now s }
    requires well_formed { IsWellFormedGraph sig.now graph.old }
    requires defaults { AreDefaults sig.now sizes.now graph.old defaults.old.nodes.items }
    ensures grown { Begins graph.old graph.new }
    ensures well_formed { IsWellFormedGraph sig.now graph.new }
    ensures defaults { OnOk result (AreDefaults sig.now sizes.now graph.new defaults.new.nodes.items) }
    ensures default { IfOk result (IsDefaultNode sig.now sizes.now graph.new s) }
{
    if let Some(n) = made(defaults, s) {
        return Ok(n);
    }
    let nodes = graph.append_defaults(sig, sizes)?;
    let n = nodes[s.0 as usize];
    defaults.nodes = nodes;
    Ok(n)
}

/// The table without rows whose default is that of the sort.
pub(crate) fn default_table(
    alloc: Global,
    sig: &Signature,
    sizes: &Sizes,
    s: SortId,
    graph: &mut Pool,
    defaults: &mut Defaults,
) -> Result<Table, CardError>
    requires sizes { AreSizes sig.now sizes.now }
    requires inside { IsSort sig.now s }
    requires well_formed { IsWellFormedGraph sig.now graph.old }
    requires defaults { AreDefaults sig.now sizes.now graph.old defaults.old.nodes.items }
    ensures grown { Begins graph.old graph.new }
    ensures well_formed { IsWellFormedGraph sig.now graph.new }
    ensures defaults { OnOk result (AreDefaults sig.now sizes.now graph.new defaults.new.nodes.items) }
    ensures table { IfOk result (IsOtherTable sig.now sizes.now graph.new s) }
{
    let default = default_of(sig, sizes, s, graph, defaults)?;
    Ok(Table {
        rows: Rows::new(Vec::new(alloc)),
        default,
    })
}
