//! Nodes that a case names. A graph is a list of nodes, numbered from 0; a node is
//! `(CONSTRUCTOR CHILD ..)` or `(elem SORT NUMBER)`, a constructor its name or, of an instance, `(as NAME SORT)`, a sort as a
//! case writes sorts, or both, also of those that are not declared, their numbers, and a child the number of a node or `last`
//! for the node before. `(times 3 CONSTRUCTOR CHILD ..)` stands for three such nodes.
ghost use Rattle.std.specs.Prelude.{◌<◌, length, IfOk};

use ct_cases::{CaseError, is_word, items_of, number_of, size_of};
use ct_sexpr::Sexpr;
use ct_sorts::{CtorId, Signature, SortId};
use ct_values::{Graph, Node, NodeId, NodeIds, are_closed};
use std::alloc::Global;

/// The graph of these nodes.
pub fn graph_of(alloc: Global, sig: &Signature, part: &Sexpr) -> Result<Graph, CaseError> {
    let nodes = nodes_of(alloc, sig, items_of(part)?)?;
    if !are_closed(&nodes) {
        return Err(CaseError::Bad);
    }
    Ok(Graph::from_nodes(nodes))
}

/// These nodes.
pub fn nodes_of(alloc: Global, sig: &Signature, parts: &[Sexpr]) -> Result<Vec<Node>, CaseError> {
    let mut nodes = Vec::new(alloc);
    for part in parts {
        push_nodes(alloc, sig, part, &mut nodes)?;
    }
    Ok(nodes)
}

/// Appends a node, or some.
fn push_nodes(
    alloc: Global,
    sig: &Signature,
    part: &Sexpr,
    nodes: &mut Vec<Node>,
) -> Result<(), CaseError> {
    match items_of(part)? {
        [word, count, ctor, children @ ..] if is_word(word, "times") => {
            let ctor = ctor_of(alloc, sig, ctor)?;
            push_times(alloc, ctor, children, size_of(count)?, nodes)
        }
        _ => {
            let node = node_of(alloc, sig, part, nodes.len())?;
            Ok(nodes.push(node)?)
        }
    }
}

/// Appends so many nodes of one constructor.
fn push_times(
    alloc: Global,
    ctor: CtorId,
    children: &[Sexpr],
    count: u32,
    nodes: &mut Vec<Node>,
) -> Result<(), CaseError> {
    for _ in 0..count {
        let children = children_of(alloc, children, nodes.len())?;
        nodes.push(Node::Con(ctor, children))?;
    }
    Ok(())
}

/// The node after so many others.
pub fn node_of(
    alloc: Global,
    sig: &Signature,
    part: &Sexpr,
    len: usize,
) -> Result<Node, CaseError> {
    match items_of(part)? {
        [word, sort, number] if is_word(word, "elem") => {
            Ok(Node::Elem(sort_of(alloc, sig, sort)?, number_of(number)?))
        }
        [ctor, children @ ..] => {
            let ctor = ctor_of(alloc, sig, ctor)?;
            Ok(Node::Con(ctor, children_of(alloc, children, len)?))
        }
        [] => Err(CaseError::Bad),
    }
}

/// The children of the node after so many others.
pub fn children_of(alloc: Global, parts: &[Sexpr], len: usize) -> Result<NodeIds, CaseError> {
    let mut ids = Vec::new(alloc);
    for part in parts {
        ids.push(child_of(part, len)?)?;
    }
    Ok(NodeIds::new(ids))
}

/// A child of the node after so many others.
fn child_of(part: &Sexpr, len: usize) -> Result<NodeId, CaseError> {
    if is_word(part, "last") {
        return Ok(NodeId(len.saturating_sub(1) as u64));
    }
    Ok(NodeId(number_of(part)?))
}

/// The constructor of this name, also of an instance, or of this number.
pub fn ctor_of(alloc: Global, sig: &Signature, part: &Sexpr) -> Result<CtorId, CaseError> {
    if let Sexpr::Numeral(_) = part {
        return Ok(CtorId(size_of(part)?));
    }
    ct_cases::ctor_of(alloc, sig, part)
}

/// The sort that a case writes so, or of this number.
pub fn sort_of(alloc: Global, sig: &Signature, part: &Sexpr) -> Result<SortId, CaseError> {
    if let Sexpr::Numeral(_) = part {
        return Ok(SortId(size_of(part)?));
    }
    ct_cases::sort_of(alloc, sig, part)
}

/// The node of this number, where the graph has it.
pub fn root_of(g: &Graph, part: &Sexpr) -> Result<NodeId, CaseError>
    ensures within { IfOk result (λ n. n.0 < length g.now) }
{
    let n = number_of(part)?;
    if n >= g.len() {
        return Err(CaseError::Bad);
    }
    Ok(NodeId(n))
}

/// The parts of a list of two.
pub fn pair_of(part: &Sexpr) -> Result<(&Sexpr, &Sexpr), CaseError> {
    match items_of(part)? {
        [first, second] => Ok((first, second)),
        _ => Err(CaseError::Bad),
    }
}
