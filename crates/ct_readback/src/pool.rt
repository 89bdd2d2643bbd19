//! A graph that grows node by node and finds a node that is asked for again, so that what a model repeats is usually one node
//! (hash-consing; Filliâtre and Conchon 2006).
ghost use Rattle.std.specs.Prelude.{◌≡◌, ◌<◌, ◌+◌, [], ◌++◌, Some, All, length, slice_get, IfOk, OnOk, OnErr, IfSome};
ghost use Rattle.std.specs.Bool.{OnTrue};
ghost use Rattle.ct_values.specs.declared.node.Node.TheVariants.{Con, Elem};
ghost use Rattle.ct_values.specs.Graph.{IsClosed, HasChildrenBelow};
ghost use Rattle.ct_values.specs.NodeIdTest.{same_nodes};
ghost use Rattle.ct_values.specs.WellFormed.{IsWellFormedGraph};
ghost use Rattle.ct_sorts.specs.Grown.{Begins};
ghost use Rattle.ct_card.specs.Sizes.{AreSizes, AreDefaultValues};
ghost use Rattle.ct_readback.specs.TreeNode.{IsAdded};

use ct_card::{CardError, Sizes};
use ct_sorts::{CtorId, Signature, SortId};
use ct_values::{Graph, Head, Node, NodeId, ValueError};
use std::alloc::Global;
use std::marker::Model;

/// How many places there are at least, once there is one.
const FEWEST: usize = 1_024;

/// A graph that may grow, and in places by hashes the nodes that were met last. A node that is not found there costs a further node,
/// and nothing else. Clauses see the graph.
#[derive(Drop)]
pub(crate) struct Pool {
    graph: Graph,
    met: Vec<NodeId>,
}

impl Model for Pool {
    ghost use Rattle.ct_values.specs.Graph.{Nodes};

    ghost Value = { Nodes };

    ghost view = { λ stored. stored.graph };
}

impl Pool {
    /// A graph without nodes. Takes no memory.
    pub(crate) fn new(alloc: Global) -> Pool
        ensures empty { result ≡ [] }
    {
        Pool {
            graph: Graph::from_nodes(Vec::new(alloc)),
            met: Vec::new(alloc),
        }
    }

    /// The graph, with the nodes that were added. Takes no memory.
    pub(crate) fn into_graph(self) -> Graph
        ensures value { result ≡ self }
    {
        self.graph
    }

    /// The number of nodes.
    pub(crate) fn len(&self) -> u64
        ensures count { result ≡ length self.now }
        ensures closed { IsClosed self.now }
    {
        self.graph.len()
    }

    /// These nodes at the end, in their order; their children may be among them. An error changes nothing.
    pub(crate) fn append(&mut self, nodes: Vec<Node>) -> Result<(), ValueError>
        requires below { All (HasChildrenBelow (length self.old + length nodes.items)) nodes.items }
        ensures ok { OnOk result (self.new ≡ self.old ++ nodes.items) }
        ensures err { OnErr result (self.new ≡ self.old) }
    {
        self.graph.append(nodes)
    }

    /// Puts default values of all sorts after the graph, and gives their nodes.
    pub(crate) fn append_defaults(
        &mut self,
        sig: &Signature,
        sizes: &Sizes,
    ) -> Result<Vec<NodeId>, CardError>
        requires sizes { AreSizes sig.now sizes.now }
        ensures grown { Begins self.old self.new }
        ensures well_formed { IsWellFormedGraph sig.now self.old → IsWellFormedGraph sig.now self.new }
        ensures values { IfOk result (λ nodes. AreDefaultValues sig.now sizes.now self.new nodes.items) }
    {
        sizes.default_values(sig, &mut self.graph)
    }

    /// The number of such a node: one that is there, or a new one at the end.
    pub(crate) fn add(&mut self, node: Node) -> Result<NodeId, ValueError>
        requires below { HasChildrenBelow (length self.old) node }
        ensures stands { IfOk result (λ n. slice_get self.new n.0 ≡ Some node) }
        ensures grown { OnOk result (IsAdded self.old node self.new) }
        ensures err { OnErr result (self.new ≡ self.old) }
    {
        make_room(&self.graph, &mut self.met)?;
        let place = place_of(hash_of(&node), self.met.len());
        if let Some(n) = found(&self.graph, &self.met, place, &node) {
            return Ok(n);
        }
        let n = self.graph.push(node)?;
        put(&mut self.met, place, n);
        Ok(n)
    }
}

// Makes twice as many places where there are no more than nodes, and puts all nodes there.
fn make_room(graph: &Graph, met: &mut Vec<NodeId>) -> Result<(), ValueError> {
    if graph.len() < met.len() as u64 {
        return Ok(());
    }
    let count = met.len().saturating_mul(2).max(FEWEST);
    let mut places = vec![in *met.allocator(); NodeId(0); count]?;
    for n in 0..graph.len() {
        let n = NodeId(n);
        let place = place_of(hash_over(graph.head(n), graph.children(n)), count);
        put(&mut places, place, n);
    }
    *met = places;
    Ok(())
}

// The node that was met last at the place, where it is this one.
fn found(graph: &Graph, met: &[NodeId], place: usize, node: &Node) -> Option<NodeId>
    ensures stands { IfSome result (λ n. slice_get graph.now n.0 ≡ Some node.now) }
{
    let n = *met.get(place)?;
    if stands(graph, n, node) {
        return Some(n);
    }
    None
}

// Whether the node stands there.
fn stands(graph: &Graph, n: NodeId, node: &Node) -> bool
    ensures there { OnTrue result (slice_get graph.now n.0 ≡ Some node.now) }
{
    if n.0 >= graph.len() {
        return false;
    }
    match node {
        Node::Con(c, children) => is_built(graph, n, *c, children.as_slice()),
        Node::Elem(s, number) => is_element(graph, n, *s, *number),
    }
}

// Whether the constructor over these nodes stands there.
fn is_built(graph: &Graph, n: NodeId, c: CtorId, children: &[NodeId]) -> bool
    requires within { n.0 < length graph.now }
    ensures there { OnTrue result (slice_get graph.now n.0 ≡ Some (Con c children.now)) }
{
    match graph.head(n) {
        Head::Con(own) => {
            if own.0 != c.0 {
                return false;
            }
            are_same(graph.children(n), children)
        }
        Head::Elem(_, _) => false,
    }
}

// Whether they are the same nodes.
fn are_same(a: &[NodeId], b: &[NodeId]) -> bool
    ensures same { result ≡ same_nodes a.now b.now }
{
    a == b
}

// Whether the element stands there.
fn is_element(graph: &Graph, n: NodeId, s: SortId, number: u64) -> bool
    requires within { n.0 < length graph.now }
    ensures there { OnTrue result (slice_get graph.now n.0 ≡ Some (Elem s number)) }
{
    match graph.head(n) {
        Head::Con(_) => false,
        Head::Elem(own, m) => {
            if own.0 != s.0 {
                return false;
            }
            m == number
        }
    }
}

// Puts a node there, where there is such a place.
fn put(met: &mut Vec<NodeId>, place: usize, n: NodeId) {
    if let Some(at) = met.get_mut(place) {
        *at = n;
    }
}

// The place of a hash among so many, whose number is a power of two.
fn place_of(hash: u64, count: usize) -> usize {
    (hash >> 32) as usize & count.wrapping_sub(1)
}

// A hash of the node.
fn hash_of(node: &Node) -> u64 {
    match node {
        Node::Con(c, children) => hash_over(Head::Con(*c), children.as_slice()),
        Node::Elem(s, number) => hash_over(Head::Elem(*s, *number), &[]),
    }
}

// A hash of the node with this head and these children.
fn hash_over(head: Head, children: &[NodeId]) -> u64 {
    let mut hash = match head {
        Head::Con(c) => mixed(0, c.0 as u64),
        Head::Elem(s, number) => mixed(s.0 as u64, number),
    };
    for child in children {
        hash = mixed(hash, child.0);
    }
    hash
}

// A hash of what has one, with a number after it.
fn mixed(hash: u64, number: u64) -> u64 {
    (hash.rotate_left(5) ^ number).wrapping_mul(0x9e37_79b9_7f4a_7c15)
}
