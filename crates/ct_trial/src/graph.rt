//! Keeps the graph of an interpretation equal to that in which values are found.
ghost use Rattle.std.specs.Prelude.{◌≡◌, ◌<◌, Some, length, slice_get, IfOk, OnOk};
ghost use Rattle.ct_values.specs.declared.node.NodeId.{NodeId};
ghost use Rattle.ct_eval.specs.EvaluationStep.{IsGrown};
ghost use Rattle.ct_trial.specs.Growth.{IsAppended};

use crate::error::TrialError;
use ct_values::{Graph, Head, Node, NodeId, NodeIds, SharedGraph, has_children_below};
use std::alloc::Global;

/// Puts the node at the end of the graph that the other one has after its own, if it has one.
pub(crate) fn catch_up(
    alloc: Global,
    shared: &SharedGraph,
    graph: &mut Graph,
) -> Result<(), TrialError>
    requires grown { (n : NodeId) × IsGrown graph.old shared.now n }
    ensures same { OnOk result (graph.new ≡ shared.now) }
    ensures appended { OnOk result (IsAppended graph.old graph.new) }
{
    let count = graph.len();
    if count == shared.graph().len() {
        return Ok(());
    }
    let node = copied_node(alloc, shared.graph(), NodeId(count))?;
    if !has_children_below(&node, count) {
        return Err(TrialError::Exhausted);
    }
    graph.push(node)?;
    Ok(())
}

/// A copy of a node.
pub(crate) fn copied_node(alloc: Global, graph: &Graph, n: NodeId) -> Result<Node, TrialError>
    requires within { n.0 < length graph.now }
    ensures value { IfOk result (λ node. slice_get graph.now n.0 ≡ Some node) }
{
    match graph.head(n) {
        Head::Con(c) => Ok(Node::Con(c, NodeIds::from_slice(alloc, graph.children(n))?)),
        Head::Elem(s, number) => Ok(Node::Elem(s, number)),
    }
}
