//! Values of open classes: the first of them have a node each.
ghost use Rattle.std.specs.Prelude.{◌≡◌, ◌<◌, List, length, IfOk, OnOk};
ghost use Rattle.ct_values.specs.declared.node.NodeId.{NodeId};
ghost use Rattle.ct_card.specs.Made.{IsPrepared};
ghost use Rattle.ct_card.specs.Nth.{IsNth};
ghost use Rattle.ct_card.specs.Sizes.{AreSizes};
ghost use Rattle.ct_build.specs.OpenClasses.{AreOpenClasses};
ghost use Rattle.ct_build.specs.Chosen.{AreChosen, IsPushed};

use crate::error::BuildError;
use crate::open_classes::{OpenClass, term_sort};
use ct_card::{Prepared, Sizes};
use ct_congr::Classes;
use ct_values::{Graph, NodeId};
use std::alloc::Global;

/// A graph with nodes for the first open classes, in their order.
#[derive(Debug, Drop)]
pub(crate) struct Chosen {
    pub(crate) graph: Graph,
    /// What values are made of there, and values that were made.
    pub(crate) prepared: Prepared,
    pub(crate) nodes: Vec<NodeId>,
}

/// Equal values.
pub(crate) fn copy(alloc: Global, chosen: &Chosen) -> Result<Chosen, BuildError>
    ensures graph { IfOk result (λ copy. copy.graph ≡ chosen.now.graph) }
    ensures prepared { IfOk result (λ copy. copy.prepared ≡ chosen.now.prepared) }
    ensures nodes { IfOk result (λ copy. copy.nodes.items ≡ chosen.now.nodes.items) }
{
    let nodes = Vec::from_slice(alloc, &chosen.nodes)?;
    let prepared = chosen.prepared.copy()?;
    let graph = chosen.graph.copy()?;
    Ok(Chosen {
        graph,
        prepared,
        nodes,
    })
}

/// Chooses the value with this number for the next open class: its node is put after the graph.
pub(crate) fn push_value(
    sizes: &Sizes,
    classes: &Classes,
    unbuilt: &[OpenClass],
    number: u64,
    chosen: &mut Chosen,
) -> Result<(), BuildError>
    requires sizes { AreSizes classes.now.declarations sizes.now }
    requires classes { AreOpenClasses classes.now unbuilt.now }
    requires more { length chosen.old.nodes.items < length unbuilt.now }
    requires prepared { IsPrepared classes.now.declarations sizes.now chosen.old.graph chosen.old.prepared }
    ensures prepared { OnOk result (IsPrepared classes.now.declarations sizes.now chosen.new.graph chosen.new.prepared) }
    ensures pushed { OnOk result (IsPushed classes.now (λ s n p. IsNth classes.now.declarations sizes.now s.0 n p) unbuilt.now chosen.old.graph chosen.old.nodes.items number chosen.new.graph chosen.new.nodes.items) }
    ensures chosen { OnOk result ((defaults : List NodeId)
        → AreChosen classes.now chosen.old.graph defaults unbuilt.now chosen.old.nodes.items
        → AreChosen classes.now chosen.new.graph defaults unbuilt.now chosen.new.nodes.items) }
{
    let rep = unbuilt[chosen.nodes.len()].rep;
    let s = term_sort(classes, rep);
    let n = sizes.nth_over(
        classes.signature(),
        &mut chosen.graph,
        &mut chosen.prepared,
        s,
        number,
    )?;
    chosen.nodes.push(n)?;
    Ok(())
}
