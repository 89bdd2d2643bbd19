//! The classes of the nodes that represent finite trees, made from the leaves upward.
//!
//! A node is settled once all of its children are: the number of its shape, which is its head over the classes of
//! its children, then makes its class. What is never settled reaches a cycle, and stays in the class 0. A pass
//! goes over all nodes, in an order in which children come before their parents where no cycle stands against it, so
//! that one pass settles all that can be settled, and a second one, if any, sees that. So the time is near-linear in the nodes
//! and their children.
ghost use Rattle.std.specs.Prelude.{◌≡◌, ◌<◌, ◌||◌, length, replicate, IfOk, All, MatchBool};
ghost use Rattle.ct_values.specs.Partition.{class_at};
ghost use Rattle.ct_values.specs.Postorder.{HasEach};
ghost use Rattle.ct_values.specs.Settled.{IsSettling, IsTried, AreTried, TellsTrees, unsettled};

use crate::error::ValueError;
use crate::node::NodeId;
use crate::packed::PackedGraph;
use crate::postorder::postorder;
use crate::shape::{ShapeStep, shape};
use indexmap::IndexSet;
use std::alloc::Global;

/// The classes of the finite trees, by the numbers of their shapes from 1 on, and 0 for what reaches a cycle.
pub(crate) fn finite_classes(alloc: Global, graph: &PackedGraph) -> Result<Vec<usize>, ValueError>
    ensures trees { IfOk result (λ classes. TellsTrees graph.now classes.items) }
{
    let order = postorder(alloc, graph)?;
    let mut classes = all_unsettled(alloc, graph.len() as usize)?;
    let mut steps = IndexSet::new(alloc);
    'passes: while settle_all(graph, &order, &mut classes, &mut steps)? {}
    Ok(classes)
}

// One pass over all nodes: whether it has settled one. Where it has not, no node can be settled.
fn settle_all(
    graph: &PackedGraph,
    order: &[NodeId],
    classes: &mut Vec<usize>,
    steps: &mut IndexSet<ShapeStep>,
) -> Result<bool, ValueError>
    requires within { All (λ n. n.0 < length graph.now) order.now }
    requires each { HasEach (length graph.now) order.now }
    requires settling { IsSettling graph.now classes.old.items steps.old }
    ensures settling { IfOk result (λ more. IsSettling graph.now classes.new.items steps.new) }
    ensures more { IfOk result (λ more. MatchBool more
        (unsettled classes.new.items < unsettled classes.old.items)
        (AreTried graph.now classes.new.items)) }
{
    let mut more = false;
    for n in order {
        let done = settle(graph, classes, steps, *n)?;
        more = either(more, done);
    }
    Ok(more)
}

// Settles a node, if its children are settled and it is not: whether it has.
fn settle(
    graph: &PackedGraph,
    classes: &mut Vec<usize>,
    steps: &mut IndexSet<ShapeStep>,
    n: NodeId,
) -> Result<bool, ValueError>
    requires within { n.0 < length graph.now }
    requires settling { IsSettling graph.now classes.old.items steps.old }
    ensures settling { IfOk result (λ done. IsSettling graph.now classes.new.items steps.new) }
    ensures done { IfOk result (λ done. MatchBool done
        (unsettled classes.new.items < unsettled classes.old.items)
        ((classes.new.items ≡ classes.old.items) × IsTried graph.now classes.new.items n.0)) }
{
    let index = n.0 as usize;
    if classes[index] > 0 {
        return Ok(false);
    }
    let parts = graph.children(n);
    if !are_settled(classes, parts) {
        return Ok(false);
    }
    let number = shape(steps, graph.head(n), classes, parts)?;
    prove!(number < steps.len());
    classes[index] = number + 1;
    Ok(true)
}

// Whether these nodes are all settled.
fn are_settled(classes: &[usize], nodes: &[NodeId]) -> bool
    requires within { All (λ n. n.0 < length classes.now) nodes.now }
    ensures value { MatchBool result
        (All (λ n. 0 < class_at classes.now n.0) nodes.now)
        (All (λ n. 0 < class_at classes.now n.0) nodes.now → ⊥) }
{
    for n in nodes {
        if classes[n.0 as usize] == 0 {
            return false;
        }
    }
    true
}

// Whether one of the two is true.
fn either(a: bool, b: bool) -> bool
    ensures value { result ≡ (a || b) }
{
    a || b
}

// No node of this many is settled.
fn all_unsettled(alloc: Global, count: usize) -> Result<Vec<usize>, ValueError>
    ensures value { IfOk result (λ classes. classes.items ≡ replicate count 0) }
{
    let mut classes = Vec::with_capacity(alloc, count)?;
    for _ in 0..count {
        classes.push(0)?;
    }
    Ok(classes)
}
