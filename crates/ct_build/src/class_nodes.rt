//! The nodes of classes: constructor terms over the nodes of their arguments, or copies of chosen values.
ghost use Rattle.std.specs.Prelude.{◌≡◌, ℕ, ◌<◌, ◌⊎◌, length, map, Some, slice_get, IfOk};
ghost use Rattle.std.specs.List.{AllByRecursion};
ghost use Rattle.ct_terms.specs.declared.ids.TermId.{TermId};
ghost use Rattle.ct_values.specs.declared.node.NodeId.{NodeId};
ghost use Rattle.ct_build.specs.Nodes.{IsOfTerm, IsCopied, AreClassNodes};
ghost use Rattle.ct_eval.specs.EvaluationStep.{node_under};

use crate::error::BuildError;
use ct_congr::Classes;
use ct_terms::{Core, TermId};
use ct_values::{Graph, Head, Node, NodeId, NodeIds};
use std::alloc::Global;

/// For each class of the list its node: its constructor term over the nodes of the terms, or a copy of its value.
pub(crate) fn class_nodes(
    alloc: Global,
    classes: &Classes,
    g: &Graph,
    values: &[NodeId],
    list: &[TermId],
    nodes: &[NodeId],
) -> Result<Vec<Node>, BuildError>
    requires values { length values.now ≡ length classes.now.terms }
    requires within { (t : ℕ) (n : NodeId) → slice_get values.now t ≡ Some n → n.0 < length g.now }
    requires long { length nodes.now ≡ length classes.now.terms }
    requires inside { (i : ℕ) (r : TermId) → slice_get list.now i ≡ Some r → r.0 < length classes.now.terms }
    ensures added { IfOk result (λ added. AreClassNodes classes.now g.now values.now list.now nodes.now added.items) }
{
    let mut added = Vec::with_capacity(alloc, list.len())?;
    for i in 0..list.len() {
        added.push(class_node(alloc, classes, g, values, list[i], nodes)?)?;
    }
    Ok(added)
}

// The node of the class that the term represents.
fn class_node(
    alloc: Global,
    classes: &Classes,
    g: &Graph,
    values: &[NodeId],
    r: TermId,
    nodes: &[NodeId],
) -> Result<Node, BuildError>
    requires values { length values.now ≡ length classes.now.terms }
    requires within { (t : ℕ) (n : NodeId) → slice_get values.now t ≡ Some n → n.0 < length g.now }
    requires long { length nodes.now ≡ length classes.now.terms }
    requires inside { r.0 < length classes.now.terms }
    ensures node { IfOk result (λ node. IsOfTerm classes.now nodes.now r node ⊎ IsCopied classes.now g.now values.now r node) }
{
    match classes.con_of(r) {
        Some(con) => match classes.table().core(con) {
            Core::Con(c, args) => {
                let children = nodes_of(alloc, nodes, args.as_slice())?;
                Ok(Node::Con(*c, NodeIds::new(children)))
            }
            _ => unreachable!(),
        },
        None => {
            let node = copied(alloc, g, values[r.0 as usize])?;
            Ok(node)
        }
    }
}

/// The nodes of these terms.
pub(crate) fn nodes_of(
    alloc: Global,
    nodes: &[NodeId],
    terms: &[TermId],
) -> Result<Vec<NodeId>, BuildError>
    requires inside { AllByRecursion (λ t. t.0 < length nodes.now) terms.now }
    ensures value { IfOk result (λ list. list.items ≡ map (node_under nodes.now) terms.now) }
{
    let mut list = Vec::with_capacity(alloc, terms.len())?;
    for t in terms {
        list.push(nodes[t.0 as usize])?;
    }
    Ok(list)
}

// A copy of the node.
fn copied(alloc: Global, g: &Graph, n: NodeId) -> Result<Node, BuildError>
    requires within { n.0 < length g.now }
    ensures value { IfOk result (λ node. slice_get g.now n.0 ≡ Some node) }
{
    match g.head(n) {
        Head::Con(c) => Ok(Node::Con(c, NodeIds::from_slice(alloc, g.children(n))?)),
        Head::Elem(s, number) => Ok(Node::Elem(s, number)),
    }
}
