//! The nodes of a graph as labelled points with ordered children, as partition refinement takes them.
ghost use Rattle.std.specs.Prelude.{◌≡◌, ◌<◌, ◌++◌, length, IfOk, OnOk};
ghost use Rattle.ct_partition.specs.Points.{points, ArePoints};
ghost use Rattle.ct_values.specs.NodePoints.{label_of, row_of, ArePointsOf};

use crate::error::ValueError;
use crate::node::{Head, NodeId};
use crate::packed::PackedGraph;
use std::alloc::Global;

/// Labelled points: the labels, the children of all points one after another, and where those of each begin, with
/// the end of the last.
#[derive(Drop)]
pub(crate) struct Labelled {
    pub(crate) labels: Vec<u64>,
    pub(crate) starts: Vec<usize>,
    pub(crate) children: Vec<usize>,
}

/// The nodes as points. A settled node, whose class is not 0, is told by its class alone, and has no children as a
/// point; any other node is told by its constructor and its children. The time is linear.
pub(crate) fn nodes_as_points(
    alloc: Global,
    graph: &PackedGraph,
    settled: &[usize],
) -> Result<Labelled, ValueError>
    requires long { length settled.now ≡ length graph.now }
    ensures formed { IfOk result (λ p. ArePoints p.labels.items p.starts.items p.children.items) }
    ensures nodes { IfOk result (λ p. ArePointsOf graph.now settled.now (points p.labels.items p.starts.items p.children.items)) }
{
    let mut labels = Vec::with_capacity(alloc, settled.len())?;
    let mut starts = Vec::with_capacity(alloc, settled.len() + 1)?;
    let mut children = Vec::new(alloc);
    starts.push(0)?;
    for n in 0..graph.len() {
        let class = settled[n as usize];
        labels.push(label_of(class, graph.head(NodeId(n))))?;
        add_row(&mut children, class, graph.children(NodeId(n)))?;
        starts.push(children.len())?;
    }
    Ok(Labelled {
        labels,
        starts,
        children,
    })
}

// The label of a node with this class and this head. An element is always settled.
fn label_of(class: usize, head: Head) -> u64
    ensures value { result ≡ label_of class head }
{
    if class > 0 {
        return class as u64;
    }
    match head {
        Head::Con(c) => c.0 as u64,
        Head::Elem(_, _) => 0,
    }
}

// Adds the children, as points, of a node with this class and these children.
fn add_row(children: &mut Vec<usize>, class: usize, nodes: &[NodeId]) -> Result<(), ValueError>
    ensures added { OnOk result (children.new.items ≡ children.old.items ++ row_of class nodes.now) }
{
    if class > 0 {
        return Ok(());
    }
    for n in nodes {
        children.push(n.0 as usize)?;
    }
    Ok(())
}
