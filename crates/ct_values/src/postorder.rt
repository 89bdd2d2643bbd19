//! An order of the nodes of a graph in which children come before their parents, unless a cycle prevents it.
//!
//! From each node that was not met a walk goes down, depth first, from a stack: a node is met when it is taken from the
//! stack for the first time, and has its turn when what was put onto the stack for it is done. The time and the memory are
//! linear in the nodes and their children, and nothing recurses.
ghost use Rattle.std.specs.Prelude.{◌≡◌, ◌<◌, false, length, replicate, OnOk, IfOk, All};
ghost use Rattle.ct_values.specs.Postorder.{HasEach, EachMetStands, StayMet, IsMet, IsMeeting, IsStep, AreAdded, visited};

use crate::error::ValueError;
use crate::node::NodeId;
use crate::packed::PackedGraph;
use std::alloc::Global;

/// What is still to be done.
#[derive(Clone, Copy, Debug)]
pub(crate) enum Visit {
    /// To meet a node, and what it reaches.
    Meet(NodeId),
    /// To give a node its turn.
    Turn(NodeId),
}

/// Every node of the graph, the children of each before it where that can be.
pub(crate) fn postorder(alloc: Global, graph: &PackedGraph) -> Result<Vec<NodeId>, ValueError>
    ensures within { IfOk result (λ order. All (λ n. n.0 < length graph.now) order.items) }
    ensures each { IfOk result (λ order. HasEach (length graph.now) order.items) }
{
    let mut met = none_met(alloc, graph.len() as usize)?;
    let mut order = Vec::with_capacity(alloc, graph.len() as usize)?;
    for n in 0..graph.len() {
        if !met[n as usize] {
            walk(alloc, graph, NodeId(n), &mut met, &mut order)?;
        }
    }
    Ok(order)
}

// Meets a node and what it reaches that was not met, and gives all of these their turns.
fn walk(
    alloc: Global,
    graph: &PackedGraph,
    from: NodeId,
    met: &mut Vec<bool>,
    order: &mut Vec<NodeId>,
) -> Result<(), ValueError>
    requires within { from.0 < length graph.now }
    requires long { length met.old.items ≡ length graph.now }
    requires order_within { All (λ n. n.0 < length graph.now) order.old.items }
    requires each { EachMetStands met.old.items order.old.items }
    ensures long { OnOk result (length met.new.items ≡ length met.old.items) }
    ensures order_within { OnOk result (All (λ n. n.0 < length graph.now) order.new.items) }
    ensures each { OnOk result (EachMetStands met.new.items order.new.items) }
    ensures stay { OnOk result (StayMet met.old.items met.new.items) }
    ensures from { OnOk result (IsMet met.new.items from.0) }
{
    let mut stack = Vec::new(alloc);
    stack.push(Visit::Meet(from))?;
    while let Some(visit) = stack.pop() {
        step(graph, visit, met, order, &mut stack)?;
    }
    Ok(())
}

// Makes a visit that was on top of the stack.
fn step(
    graph: &PackedGraph,
    visit: Visit,
    met: &mut Vec<bool>,
    order: &mut Vec<NodeId>,
    stack: &mut Vec<Visit>,
) -> Result<(), ValueError>
    requires within { (visited visit).0 < length graph.now }
    requires long { length met.old.items ≡ length graph.now }
    ensures step { OnOk result (IsStep graph.now visit met.old.items met.new.items order.old.items order.new.items stack.old.items stack.new.items) }
{
    match visit {
        Visit::Meet(n) => meet(graph, n, met, stack),
        Visit::Turn(n) => Ok(order.push(n)?),
    }
}

// Meets a node, if it was not met: its turn goes onto the stack, and its children that were not met on top of that.
fn meet(
    graph: &PackedGraph,
    n: NodeId,
    met: &mut Vec<bool>,
    stack: &mut Vec<Visit>,
) -> Result<(), ValueError>
    requires within { n.0 < length graph.now }
    requires long { length met.old.items ≡ length graph.now }
    ensures meeting { OnOk result (IsMeeting graph.now n met.old.items met.new.items stack.old.items stack.new.items) }
{
    let index = n.0 as usize;
    if met[index] {
        return Ok(());
    }
    met[index] = true;
    stack.push(Visit::Turn(n))?;
    push_unmet(graph.children(n), met, stack)
}

// Puts those of the nodes that were not met onto the stack, the first on top.
fn push_unmet(nodes: &[NodeId], met: &[bool], stack: &mut Vec<Visit>) -> Result<(), ValueError>
    requires within { All (λ n. n.0 < length met.now) nodes.now }
    ensures added { OnOk result (AreAdded (length met.now) (length nodes.now) stack.old.items stack.new.items) }
{
    for n in nodes.iter().rev() {
        if met[n.0 as usize] {
            continue;
        }
        stack.push(Visit::Meet(*n))?;
    }
    Ok(())
}

// No node of this many is met.
fn none_met(alloc: Global, count: usize) -> Result<Vec<bool>, ValueError>
    ensures none { IfOk result (λ met. met.items ≡ replicate count false) }
{
    let mut met = Vec::with_capacity(alloc, count)?;
    for _ in 0..count {
        met.push(false)?;
    }
    Ok(met)
}
