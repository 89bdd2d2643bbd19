//! Graphs of many nodes in three parallel lists: the heads of the nodes; the children of all nodes, those of one node after
//! those of the node before it; and where the children of each node end. So a node takes no block of memory of its own.
ghost use Rattle.std.specs.Prelude.{◌≡◌, ◌-◌, ◌<◌, ◌≤◌, [], ◌∷◌, ◌++◌, length, take, drop, slice_get, option_map, Some, All, OnOk, OnErr, IfOk};
ghost use Rattle.ct_values.specs.Graph.{IsClosed, node_head, node_children};
ghost use Rattle.ct_values.specs.Packed.{node_of};

use crate::error::ValueError;
use crate::graph::Graph;
use crate::node::{Head, Node, NodeId};
use crate::node_ids::NodeIds;
use std::alloc::Global;
use std::marker::Model;

/// Nodes side by side. Clauses see a list of nodes.
#[derive(Drop)]
pub(crate) struct PackedNodes {
    heads: Vec<Head>,
    ends: Vec<usize>,
    children: Vec<NodeId>,
}

impl Model for PackedNodes {
    ghost use Rattle.std.specs.Prelude.{length};
    ghost use Rattle.ct_values.specs.Graph.{Nodes};
    ghost use Rattle.ct_values.specs.Packed.{unpacked, ArePacked};

    ghost Value = { Nodes };

    ghost view = { λ stored. unpacked 0 stored.heads.items stored.ends.items stored.children.items };

    ghost invariant = { λ stored. ArePacked 0 stored.heads.items stored.ends.items (length stored.children.items) };
}

impl PackedNodes {
    /// No nodes. Takes no memory.
    pub(crate) fn new(alloc: Global) -> PackedNodes
        ensures empty { result ≡ [] }
    {
        PackedNodes {
            heads: Vec::new(alloc),
            ends: Vec::new(alloc),
            children: Vec::new(alloc),
        }
    }

    /// One more node at the end, with this head and these children. An element has none, whatever is given with it. An
    /// error changes nothing.
    pub(crate) fn push(&mut self, head: Head, children: &[NodeId]) -> Result<(), ValueError>
        ensures ok { OnOk result (self.new ≡ self.old ++ node_of head children.now ∷ []) }
        ensures err { OnErr result (self.new ≡ self.old) }
    {
        self.heads.reserve(1)?;
        self.ends.reserve(1)?;
        self.children.extend_from_slice(children)?;
        self.heads.push(head).unwrap();
        self.ends.push(self.children.len()).unwrap();
        Ok(())
    }

    /// The number of nodes.
    pub(crate) fn len(&self) -> usize
        ensures count { result ≡ length self.now }
    {
        self.heads.len()
    }

    /// What stands at the top of the node with this number.
    fn head(&self, n: usize) -> Head
        requires within { n < length self.now }
        ensures value { option_map node_head (slice_get self.now n) ≡ Some result }
    {
        self.heads[n]
    }

    /// The children of the node with this number, in order.
    fn children(&self, n: usize) -> &[NodeId]
        requires within { n < length self.now }
        ensures value { option_map node_children (slice_get self.now n) ≡ Some result.now }
    {
        match self.heads[n] {
            Head::Con(_) => part(&self.children, start(&self.ends, n), self.ends[n]),
            Head::Elem(_, _) => &[],
        }
    }
}

// Where the children of the node begin: where those of the node before it end, and at 0 for the first.
fn start(ends: &[usize], n: usize) -> usize
    requires within { n < length ends.now }
    ensures value { slice_get (0 ∷ ends.now) n ≡ Some result }
{
    if n == 0 { 0 } else { ends[n - 1] }
}

// The children from the one index to the other.
fn part(children: &[NodeId], start: usize, end: usize) -> &[NodeId]
    requires order { start ≤ end }
    requires within { end ≤ length children.now }
    ensures value { result.now ≡ take (end - start) (drop start children.now) }
{
    &children[start..end]
}

/// A graph of nodes side by side. Clauses see its nodes.
#[derive(Drop)]
pub struct PackedGraph {
    nodes: PackedNodes,
}

impl Model for PackedGraph {
    ghost use Rattle.ct_values.specs.Graph.{Nodes, IsClosed};

    ghost Value = { Nodes };

    ghost view = { λ stored. stored.nodes };

    ghost invariant = { λ stored. IsClosed stored.nodes };
}

impl PackedGraph {
    /// The graph of these nodes. Takes no memory.
    pub(crate) fn from_nodes(nodes: PackedNodes) -> PackedGraph
        requires closed { IsClosed nodes }
        ensures value { result ≡ nodes }
    {
        PackedGraph { nodes }
    }

    /// The number of nodes.
    pub fn len(&self) -> u64
        ensures count { result ≡ length self.now }
        ensures closed { IsClosed self.now }
    {
        self.nodes.len() as u64
    }

    /// The head of the node.
    pub fn head(&self, n: NodeId) -> Head
        requires within { n.0 < length self.now }
        ensures value { option_map node_head (slice_get self.now n.0) ≡ Some result }
    {
        self.nodes.head(n.0 as usize)
    }

    /// The children of this node, in order; an element has none. They are nodes of the graph.
    pub fn children(&self, n: NodeId) -> &[NodeId]
        requires within { n.0 < length self.now }
        ensures value { option_map node_children (slice_get self.now n.0) ≡ Some result.now }
        ensures below { All (λ child. child.0 < length self.now) result.now }
    {
        self.nodes.children(n.0 as usize)
    }
}

/// The graph, with its nodes side by side.
pub(crate) fn packed(alloc: Global, g: &Graph) -> Result<PackedGraph, ValueError>
    ensures value { IfOk result (λ graph. graph ≡ g.now) }
{
    let mut nodes = PackedNodes::new(alloc);
    for n in 0..g.len() {
        nodes.push(g.head(NodeId(n)), g.children(NodeId(n)))?;
    }
    Ok(PackedGraph::from_nodes(nodes))
}

/// The graph, with a block of memory for each node that has children.
pub(crate) fn unpacked(alloc: Global, g: &PackedGraph) -> Result<Graph, ValueError>
    ensures value { IfOk result (λ graph. graph ≡ g.now) }
{
    let mut nodes = Vec::with_capacity(alloc, g.len() as usize)?;
    for n in 0..g.len() {
        nodes.push(unpacked_node(alloc, g, NodeId(n))?)?;
    }
    Ok(Graph::from_nodes(nodes))
}

// A node of the graph.
fn unpacked_node(alloc: Global, g: &PackedGraph, n: NodeId) -> Result<Node, ValueError>
    requires within { n.0 < length g.now }
    ensures value { IfOk result (λ node. slice_get g.now n.0 ≡ Some node) }
{
    match g.head(n) {
        Head::Con(c) => Ok(Node::Con(c, NodeIds::from_slice(alloc, g.children(n))?)),
        Head::Elem(s, number) => Ok(Node::Elem(s, number)),
    }
}
