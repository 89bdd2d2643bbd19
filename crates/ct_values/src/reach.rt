//! The part of a graph that one or two nodes reach, as a graph of its own.
//!
//! Only the nodes that are reached are looked at: each is numbered when it is first met, as a root or as a
//! child, and copied with the numbers of its children when its turn comes. So from one root they are numbered
//! breadth first. The time is near-linear in these nodes and their children.
ghost use Rattle.std.specs.Prelude.{◌≡◌, ◌<◌, [], ◌∷◌, length, map, Some, slice_get, IfOk, All};
ghost use Rattle.ct_values.specs.Agreement.{node_point, AgreeAlways};
ghost use Rattle.ct_values.specs.Minimal.{IsBreadthFirst};
ghost use Rattle.ct_values.specs.Numbering.{CountsUp, IsInOrder};
ghost use Rattle.ct_values.specs.Renumbering.{IsNumbering, Stay, StandFor, AreRenumbered, IsPart};

use crate::error::ValueError;
use crate::graph::Graph;
use crate::node::NodeId;
use crate::packed::{PackedGraph, PackedNodes};
use indexmap::IndexSet;
use std::alloc::Global;

/// The part of a graph that two nodes reach, with the numbers of the two in it.
#[derive(Drop)]
pub(crate) struct Part {
    pub(crate) graph: PackedGraph,
    pub(crate) first: NodeId,
    pub(crate) second: NodeId,
}

/// The part of the graph that this node reaches. Its number there is 0.
pub(crate) fn reached_from(
    alloc: Global,
    g: &Graph,
    root: NodeId,
) -> Result<PackedGraph, ValueError>
    requires within { root.0 < length g.now }
    ensures part { IfOk result (λ part. IsPart g.now root.0 part) }
    ensures breadth_first { IfOk result (λ part. IsBreadthFirst part) }
{
    let mut ids = IndexSet::new(alloc);
    let _ = number(g, &mut ids, root)?;
    let nodes = renumber_all(alloc, g, &mut ids)?;
    Ok(PackedGraph::from_nodes(nodes))
}

/// The part of the graph that these two nodes reach.
pub(crate) fn reached(alloc: Global, g: &Graph, a: NodeId, b: NodeId) -> Result<Part, ValueError>
    requires a_within { a.0 < length g.now }
    requires b_within { b.0 < length g.now }
    ensures first_within { IfOk result (λ part. part.first.0 < length part.graph) }
    ensures second_within { IfOk result (λ part. part.second.0 < length part.graph) }
    ensures first { IfOk result (λ part. AgreeAlways (node_point part.graph part.first) (node_point g.now a)) }
    ensures second { IfOk result (λ part. AgreeAlways (node_point part.graph part.second) (node_point g.now b)) }
{
    let mut ids = IndexSet::new(alloc);
    let first = number(g, &mut ids, a)?;
    let second = number(g, &mut ids, b)?;
    let nodes = renumber_all(alloc, g, &mut ids)?;
    Ok(Part {
        graph: PackedGraph::from_nodes(nodes),
        first,
        second,
    })
}

// The numbered nodes and those that they reach, with the new numbers of their children.
fn renumber_all(
    alloc: Global,
    g: &Graph,
    ids: &mut IndexSet<u64>,
) -> Result<PackedNodes, ValueError>
    requires numbering { IsNumbering (length g.now) ids.old }
    ensures stay { IfOk result (λ nodes. Stay ids.old.keys ids.new.keys) }
    ensures numbering { IfOk result (λ nodes. IsNumbering (length g.now) ids.new) }
    ensures renumbered { IfOk result (λ nodes. AreRenumbered g.now ids.new.keys nodes) }
    ensures all { IfOk result (λ nodes. length nodes ≡ length ids.new.keys) }
    ensures in_order { IfOk result (λ nodes. IsInOrder (length ids.old.keys) 0 nodes (length ids.new.keys)) }
{
    let mut nodes = PackedNodes::new(alloc);
    while let Some(id) = ids.get_index(nodes.len()).copied() {
        let n = NodeId(id);
        let children = number_all(alloc, g, ids, g.children(n))?;
        nodes.push(g.head(n), &children)?;
    }
    Ok(nodes)
}

// The new numbers of these nodes. Those that have none yet get one.
fn number_all(
    alloc: Global,
    g: &Graph,
    ids: &mut IndexSet<u64>,
    nodes: &[NodeId],
) -> Result<Vec<NodeId>, ValueError>
    requires within { All (λ n. n.0 < length g.now) nodes.now }
    requires numbering { IsNumbering (length g.now) ids.old }
    ensures stay { IfOk result (λ indices. Stay ids.old.keys ids.new.keys) }
    ensures numbering { IfOk result (λ indices. IsNumbering (length g.now) ids.new) }
    ensures stand { IfOk result (λ indices. StandFor ids.new.keys indices.items nodes.now) }
    ensures counts { IfOk result (λ indices.
        CountsUp (length ids.old.keys) (map (λ index. index.0) indices.items) (length ids.new.keys)) }
{
    let mut indices = Vec::with_capacity(alloc, nodes.len())?;
    for n in nodes {
        indices.push(number(g, ids, *n)?)?;
    }
    Ok(indices)
}

// The new number of a node, which it gets here where it has none yet.
fn number(g: &Graph, ids: &mut IndexSet<u64>, n: NodeId) -> Result<NodeId, ValueError>
    requires within { n.0 < length g.now }
    requires numbering { IsNumbering (length g.now) ids.old }
    ensures stay { IfOk result (λ index. Stay ids.old.keys ids.new.keys) }
    ensures numbering { IfOk result (λ index. IsNumbering (length g.now) ids.new) }
    ensures at { IfOk result (λ index. slice_get ids.new.keys index.0 ≡ Some n.0) }
    ensures counts { IfOk result (λ index. CountsUp (length ids.old.keys) (index.0 ∷ []) (length ids.new.keys)) }
{
    let (index, _) = ids.insert_full(n.0)?;
    Ok(NodeId(index as u64))
}
