//! Graphs of values: lists of nodes whose children are nodes of the list.

ghost use Rattle.std.specs.Prelude.{◌≡◌, ℕ, ◌+◌, ◌<◌, ◌⊎◌, ◌↔◌, [], ◌∷◌, ◌++◌, length, slice_get, option_map, Some, None, All, OnOk, OnErr, IfOk, IsTrue};
ghost use Rattle.indexmap.specs.IndexMap.{get};
ghost use Rattle.ct_values.specs.declared.key.Key.{Key};
ghost use Rattle.ct_values.specs.Graph.{IsClosed, HasChildrenBelow, node_head, node_children};
ghost use Rattle.ct_values.specs.KeyTest.{same_key};

use crate::error::ValueError;
use crate::key::Key;
use crate::node::{Head, Node, NodeId};
use crate::node_ids::NodeIds;
use indexmap::IndexMap;
use std::alloc::Global;
use std::marker::Model;

/// A list of nodes, whose children are nodes of the list. Nodes are numbered from 0 and never change.
#[derive(Debug, Drop)]
pub struct Graph {
    nodes: Vec<Node>,
}

impl Model for Graph {
    ghost use Rattle.ct_values.specs.Graph.{Nodes, IsClosed};

    ghost Value = { Nodes };

    ghost view = { λ stored. stored.nodes.items };

    ghost invariant = { λ stored. IsClosed stored.nodes.items };
}

impl Graph {
    /// The graph of these nodes, numbered in their order. Takes no memory.
    pub fn from_nodes(nodes: Vec<Node>) -> Graph
        requires closed { IsClosed nodes.items }
        ensures value { result ≡ nodes.items }
    {
        Graph { nodes }
    }

    /// Appends a node whose children are in the graph, and returns its number. An error changes nothing.
    pub fn push(&mut self, node: Node) -> Result<NodeId, ValueError>
        requires below { HasChildrenBelow (length self.old) node }
        ensures ok { IfOk result (λ n. (n.0 ≡ length self.old) × (self.new ≡ self.old ++ node ∷ [])) }
        ensures err { OnErr result (self.new ≡ self.old) }
    {
        let number = self.nodes.len();
        self.nodes.push(node)?;
        Ok(NodeId(number as u64))
    }

    /// Appends these nodes in order; their children may be among them. An error changes nothing.
    pub fn append(&mut self, mut nodes: Vec<Node>) -> Result<(), ValueError>
        requires below { All (HasChildrenBelow (length self.old + length nodes.items)) nodes.items }
        ensures ok { OnOk result (self.new ≡ self.old ++ nodes.items) }
        ensures err { OnErr result (self.new ≡ self.old) }
    {
        self.nodes.append(&mut nodes)?;
        Ok(())
    }

    /// One more node at the end, with its number under its key, which the map does not have. An error changes nothing.
    pub(crate) fn push_keyed(
        &mut self,
        node: Node,
        representatives: &mut IndexMap<Key, usize>,
        key: Key,
    ) -> Result<NodeId, ValueError>
        requires below { HasChildrenBelow (length self.old) node }
        requires absent { get same_key representatives.old key ≡ None }
        ensures ok { IfOk result (λ n. (n.0 ≡ length self.old) × (self.new ≡ self.old ++ node ∷ [])) }
        ensures found { OnOk result (get same_key representatives.new key ≡ Some (length self.old)) }
        ensures stay { OnOk result ((k : Key) (n : ℕ)
            → get same_key representatives.old k ≡ Some n
            → get same_key representatives.new k ≡ Some n) }
        ensures only { OnOk result ((k : Key) (n : ℕ)
            → get same_key representatives.new k ≡ Some n
            → (get same_key representatives.old k ≡ Some n) ⊎ ((k ≡ key) × (n ≡ length self.old))) }
        ensures err { OnErr result (self.new ≡ self.old) }
        ensures stored { OnErr result ((k : Key) → get same_key representatives.new k ≡ get same_key representatives.old k) }
    {
        let index = self.nodes.len();
        self.nodes.reserve(1)?;
        representatives.insert(key, index)?;
        self.nodes.push(node).unwrap();
        Ok(NodeId(index as u64))
    }

    /// The number of nodes.
    pub fn len(&self) -> u64
        ensures count { result ≡ length self.now }
        ensures closed { IsClosed self.now }
    {
        self.nodes.len() as u64
    }

    /// A copy of the graph.
    pub fn copy(&self) -> Result<Graph, ValueError>
        ensures value { IfOk result (λ graph. graph ≡ self.now) }
    {
        Ok(Graph {
            nodes: copy_nodes(*self.nodes.allocator(), self.nodes.as_slice())?,
        })
    }

    /// The head of the node.
    pub fn head(&self, n: NodeId) -> Head
        requires within { n.0 < length self.now }
        ensures value { option_map node_head (slice_get self.now n.0) ≡ Some result }
    {
        match &self.nodes[n.0 as usize] {
            Node::Con(c, _) => Head::Con(*c),
            Node::Elem(s, number) => Head::Elem(*s, *number),
        }
    }

    /// The children of this node, in order; an element has none. They are nodes of the graph.
    pub fn children(&self, n: NodeId) -> &[NodeId]
        requires within { n.0 < length self.now }
        ensures value { option_map node_children (slice_get self.now n.0) ≡ Some result.now }
        ensures below { All (λ child. child.0 < length self.now) result.now }
    {
        match &self.nodes[n.0 as usize] {
            Node::Con(_, children) => children.as_slice(),
            Node::Elem(_, _) => &[],
        }
    }
}

/// Whether the children of all these nodes are among them, which `Graph::from_nodes` asks for.
pub fn are_closed(nodes: &[Node]) -> bool
    ensures closed { IsTrue result ↔ IsClosed nodes.now }
{
    have_children_below(nodes, nodes.len() as u64)
}

/// Whether the children of all these nodes have numbers below the bound, which `Graph::append` asks for.
pub fn have_children_below(nodes: &[Node], bound: u64) -> bool
    ensures value { IsTrue result ↔ All (HasChildrenBelow bound) nodes.now }
{
    for node in nodes {
        if !has_children_below(node, bound) {
            return false;
        }
    }
    true
}

/// Whether the children of the node have numbers below the bound, which `Graph::push` asks for.
pub fn has_children_below(node: &Node, bound: u64) -> bool
    ensures value { IsTrue result ↔ HasChildrenBelow bound node.now }
{
    match node {
        Node::Con(_, children) => are_below(children.as_slice(), bound),
        Node::Elem(_, _) => true,
    }
}

/// Whether these nodes have numbers below the bound, which `SharedGraph::construct` asks for.
pub fn are_below(nodes: &[NodeId], bound: u64) -> bool
    ensures value { IsTrue result ↔ All (λ n. n.0 < bound) nodes.now }
{
    for n in nodes {
        if n.0 >= bound {
            return false;
        }
    }
    true
}

// A copy of the nodes.
fn copy_nodes(alloc: Global, nodes: &[Node]) -> Result<Vec<Node>, ValueError>
    ensures value { IfOk result (λ copy. copy.items ≡ nodes.now) }
{
    let mut copies = Vec::with_capacity(alloc, nodes.len())?;
    for node in nodes {
        copies.push(copy_node(alloc, node)?)?;
    }
    Ok(copies)
}

// A copy of a node.
fn copy_node(alloc: Global, node: &Node) -> Result<Node, ValueError>
    ensures value { IfOk result (λ copy. copy ≡ node.now) }
{
    match node {
        Node::Con(c, children) => Ok(Node::Con(
            *c,
            NodeIds::from_slice(alloc, children.as_slice())?,
        )),
        Node::Elem(s, number) => Ok(Node::Elem(*s, *number)),
    }
}
