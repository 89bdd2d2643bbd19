//! The classes of the nodes that agree at every depth.
//!
//! The finite trees get theirs first, from the leaves upward (`finite.rt`). Where all nodes are finite trees, each class
//! is then named for its least node, and nothing else is done: the time is near-linear in the nodes and their children.
//! Otherwise the finite trees are points without children in a partition of all nodes (`points.rt`), the coarsest one in
//! which the nodes of a class have one constructor and children in the same classes. With n nodes outside of these
//! trees, which have e children in all, and no more than w each, the time beyond the part that is near-linear in all
//! nodes is near (n + w e) log n.
ghost use Rattle.std.specs.Prelude.{IfOk};
ghost use Rattle.ct_values.specs.Sharing.{AreClasses};

use crate::error::ValueError;
use crate::finite::finite_classes;
use crate::least::{are_positive, least_of};
use crate::packed::PackedGraph;
use crate::points::nodes_as_points;
use ct_partition::coarsest;
use std::alloc::Global;

/// For each node the number of its class, which is that of the least node that it agrees with at every depth.
pub(crate) fn classes(alloc: Global, graph: &PackedGraph) -> Result<Vec<usize>, ValueError>
    ensures classes { IfOk result (λ classes. AreClasses graph.now classes.items) }
{
    prove!(graph.len() >= 0);
    let settled = finite_classes(alloc, graph)?;
    if are_positive(&settled) {
        return least_of(alloc, &settled);
    }
    let points = nodes_as_points(alloc, graph, &settled)?;
    let classes = coarsest(alloc, &points.labels, &points.starts, &points.children)?;
    Ok(classes)
}
