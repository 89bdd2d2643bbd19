//! Whether two nodes of a graph are equal values: whether they agree at every depth.
//!
//! The part of the graph that the two nodes reach is copied, and its nodes are put into classes
//! (`bisimilarity.rt`): its finite trees children before parents, and the others by partition
//! refinement. So the time is near n log n in the nodes of that part and their children, and
//! near-linear where no cycle is reached. Nothing outside the part is looked at, and nothing
//! recurses.
ghost use Rattle.std.specs.Prelude.{◌≡◌, ◌↔◌, ◌<◌, length, IfOk, IsTrue};
ghost use Rattle.ct_values.specs.Agreement.{node_point, AgreeAlways};

use crate::bisimilarity::classes;
use crate::error::ValueError;
use crate::graph::Graph;
use crate::node::NodeId;
use crate::packed::PackedGraph;
use crate::reach::reached;
use std::alloc::Global;

/// Whether the two nodes are equal values.
pub fn same(alloc: Global, g: &Graph, a: NodeId, b: NodeId) -> Result<bool, ValueError>
    requires a_within { a.0 < length g.now }
    requires b_within { b.0 < length g.now }
    ensures value { IfOk result (λ r. IsTrue r ↔ AgreeAlways (node_point g.now a) (node_point g.now b)) }
{
    let part = reached(alloc, g, a, b)?;
    decide(alloc, &part.graph, part.first, part.second)
}

// Whether the two nodes are equal, by their classes.
fn decide(alloc: Global, graph: &PackedGraph, a: NodeId, b: NodeId) -> Result<bool, ValueError>
    requires a_within { a.0 < length graph.now }
    requires b_within { b.0 < length graph.now }
    ensures value { IfOk result (λ r. IsTrue r ↔ AgreeAlways (node_point graph.now a) (node_point graph.now b)) }
{
    let classes = classes(alloc, graph)?;
    Ok(classes[a.0 as usize] == classes[b.0 as usize])
}
