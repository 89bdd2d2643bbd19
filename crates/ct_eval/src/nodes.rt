//! The nodes of the terms under a term, and what is known of them.
ghost use Rattle.std.specs.Prelude.{◌≡◌, ◌<◌, length, map, All, IfOk};
ghost use Rattle.ct_values.specs.Graph.{IsClosed};
ghost use Rattle.ct_values.specs.Value.{reference};
ghost use Rattle.ct_values.specs.TruthValue.{is_built};
ghost use Rattle.ct_eval.specs.EvaluationStep.{Theorems, HasNode, node_under};

use crate::error::EvalError;
use crate::interp::Interp;
use ct_sorts::CtorId;
use ct_terms::TermId;
use ct_values::{Graph, Head, NodeId, SharedGraph, agreement, representative_nodes};
use std::alloc::Global;

/// The theorems that the steps rest on, and that the graph is closed.
pub(crate) fn theorems(shared: &SharedGraph)
    ensures closed { IsClosed shared.now }
    ensures theorems { Theorems }
{
    agreement();
    representative_nodes();
    let _graph = shared.graph();
}

/// That the graph of the interpretation is closed.
pub(crate) fn closed(interp: &Interp)
    ensures closed { IsClosed interp.now.graph }
{
    let _len = interp.graph.len();
}

/// The node of this term.
pub(crate) fn node_at(shared: &SharedGraph, nodes: &[NodeId], t: TermId) -> NodeId
    requires there { HasNode shared.now nodes.now t }
    ensures value { result ≡ node_under nodes.now t }
    ensures within { result.0 < length shared.now }
{
    let _graph = shared.graph();
    nodes[t.0 as usize]
}

/// The nodes of these terms.
pub(crate) fn nodes_of(
    alloc: Global,
    nodes: &[NodeId],
    terms: &[TermId],
) -> Result<Vec<NodeId>, EvalError>
    requires within { All (λ t. t.0 < length nodes.now) terms.now }
    ensures value { IfOk result (λ list. list.items ≡ map (node_under nodes.now) terms.now) }
{
    let mut list = Vec::with_capacity(alloc, terms.len())?;
    for t in terms {
        list.push(nodes[t.0 as usize])?;
    }
    Ok(list)
}

/// Whether the node is built by this constructor.
pub fn is_built(graph: &Graph, c: CtorId, n: NodeId) -> bool
    requires within { n.0 < length graph.now }
    ensures value { result ≡ is_built graph.now c (reference n) }
{
    graph.head(n) == Head::Con(c)
}
