//! The minimal graph of the tree at a node.
//!
//! The part of the graph that the node reaches is copied, numbered breadth first, and its nodes are
//! put into classes of those that agree at every depth, as for equality. Of each class the
//! representative is stored, over the indices of its children's classes among the stored nodes. So
//! what is stored is numbered breadth first as well. The time is that of equality, near n log n in
//! the nodes of the part and their children, and nothing recurses.
ghost use Rattle.std.specs.Prelude.{◌≡◌, ℕ, ◌<◌, ◌≤◌, length, map, IfOk, All};
ghost use Rattle.ct_values.specs.Partition.{class_at};
ghost use Rattle.ct_values.specs.Quotient.{NumbersClasses, AreNumbered, numbered_child, quotient};
ghost use Rattle.ct_values.specs.Minimal.{IsMinimal};

use crate::bisimilarity::classes;
use crate::error::ValueError;
use crate::graph::Graph;
use crate::node::NodeId;
use crate::packed::{PackedGraph, PackedNodes, unpacked};
use crate::reach::reached_from;
use std::alloc::Global;

/// The minimal graph of the tree at the root, with the number that the root has in it, which is 0.
/// No two of its nodes are equal values, and they are numbered breadth first: the root, its
/// children in order, the children of the first of these, and so on. So two nodes, also of two
/// graphs, have one minimal graph exactly where they are equal values.
pub fn minimise(alloc: Global, g: &Graph, root: NodeId) -> Result<(Graph, NodeId), ValueError>
    requires within { root.0 < length g.now }
    ensures minimal { IfOk result (λ r. IsMinimal g.now root r.0) }
    ensures first { IfOk result (λ r. r.1.0 ≡ 0) }
{
    let minimal = minimal(alloc, g, root)?;
    Ok((unpacked(alloc, &minimal)?, NodeId(0)))
}

/// The minimal graph of the tree at the root, side by side. The root has the number 0 in it.
pub fn minimal(alloc: Global, g: &Graph, root: NodeId) -> Result<PackedGraph, ValueError>
    requires within { root.0 < length g.now }
    ensures minimal { IfOk result (λ minimal. IsMinimal g.now root minimal) }
{
    let part = reached_from(alloc, g, root)?;
    let numbers = class_numbers(alloc, &part)?;
    let stored = stored(alloc, &part, &numbers)?;
    Ok(PackedGraph::from_nodes(stored))
}

// For each node of the part the number of its class.
fn class_numbers(alloc: Global, part: &PackedGraph) -> Result<Vec<usize>, ValueError>
    ensures numbers { IfOk result (λ numbers. AreNumbered part.now numbers.items) }
{
    let classes = classes(alloc, part)?;
    numbered(alloc, &classes)
}

// For each node the number of its class, which is named for its representative: how many classes
// begin before it.
fn numbered(alloc: Global, classes: &[usize]) -> Result<Vec<usize>, ValueError>
    requires early { (i : ℕ) → class_at classes.now i ≤ i }
    requires own { (i : ℕ) → i < length classes.now → class_at classes.now (class_at classes.now i) ≡ class_at classes.now i }
    ensures numbers { IfOk result (λ numbers. NumbersClasses classes.now numbers.items) }
{
    let mut numbers = Vec::with_capacity(alloc, classes.len())?;
    let mut count = 0;
    for index in 0..classes.len() {
        let class = classes[index];
        if class == index {
            numbers.push(count)?;
            count += 1;
        } else {
            let number = numbers[class];
            numbers.push(number)?;
        }
    }
    Ok(numbers)
}

// The representative of each class, over the numbers of its children's classes. A class begins
// where its number is the next.
fn stored(alloc: Global, part: &PackedGraph, numbers: &[usize]) -> Result<PackedNodes, ValueError>
    requires long { length numbers.now ≡ length part.now }
    ensures value { IfOk result (λ nodes. nodes ≡ quotient numbers.now part.now) }
{
    let mut nodes = PackedNodes::new(alloc);
    for index in 0..numbers.len() {
        if numbers[index] == nodes.len() {
            let n = NodeId(index as u64);
            let children = numbers_of(alloc, numbers, part.children(n))?;
            nodes.push(part.head(n), &children)?;
        }
    }
    Ok(nodes)
}

// The numbers of the classes of these nodes.
fn numbers_of(alloc: Global, numbers: &[usize], nodes: &[NodeId]) -> Result<Vec<NodeId>, ValueError>
    requires within { All (λ n. n.0 < length numbers.now) nodes.now }
    ensures value { IfOk result (λ list. list.items ≡ map (numbered_child numbers.now) nodes.now) }
{
    let mut list = Vec::with_capacity(alloc, nodes.len())?;
    for n in nodes {
        list.push(NodeId(numbers[n.0 as usize] as u64))?;
    }
    Ok(list)
}
