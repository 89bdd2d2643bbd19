//! A graph in which the representative of each value is found quickly.
//!
//! Its nodes are put into classes of those that agree at every depth, once, as for equality. From then on a map from heads and classes of children to representatives
//! tells the representative of a constructor over nodes, so that a new node costs a look-up
//! (hash-consing; Filliâtre and Conchon 2006).
ghost use Rattle.std.specs.Prelude.{◌≡◌, ℕ, ◌<◌, ◌⊎◌, [], ◌∷◌, ◌++◌, length, map, All, Some, None, OnErr, OnOk, IfOk, IfSome, IfNone};
ghost use Rattle.indexmap.specs.IndexMap.{get};
ghost use Rattle.ct_values.specs.declared.node.Node.TheVariants as nodes;
ghost use Rattle.ct_values.specs.Graph.{IsClosed, HasChildrenBelow};
ghost use Rattle.ct_values.specs.Value.{node_value};
ghost use Rattle.ct_values.specs.Agreement.{point, node_point};
ghost use Rattle.ct_values.specs.KeyTest.{same_key};
ghost use Rattle.ct_values.specs.Partition.{class_at, node_key};
ghost use Rattle.ct_values.specs.Sharing.{IsRepresentative, AreClasses, IsShared};

use crate::bisimilarity::classes;
use crate::error::ValueError;
use crate::graph::Graph;
use crate::indices::Indices;
use crate::key::{Key, classes_of};
use crate::node::{Head, Node, NodeId};
use crate::node_ids::NodeIds;
use crate::packed::packed;
use ct_sorts::CtorId;
use indexmap::IndexMap;
use std::alloc::Global;
use std::marker::Model;

/// A graph that may grow, in which the representative of each value is found by a look-up.
#[derive(Debug, Drop)]
pub struct SharedGraph {
    graph: Graph,
    classes: Vec<usize>,
    representatives: IndexMap<Key, usize>,
}

impl Model for SharedGraph {
    ghost use Rattle.ct_values.specs.Graph.{Nodes};
    ghost use Rattle.ct_values.specs.Sharing.{IsShared};

    ghost Value = { Nodes };

    ghost view = { λ stored. stored.graph };

    ghost invariant = { λ stored. IsShared stored.graph stored.classes.items stored.representatives };
}

impl SharedGraph {
    /// The graph, with its nodes put into classes once.
    pub fn new(alloc: Global, graph: Graph) -> Result<SharedGraph, ValueError>
        ensures value { IfOk result (λ shared. shared ≡ graph) }
    {
        let classes = stable_classes(alloc, &graph)?;
        let representatives = keyed(alloc, &graph, &classes)?;
        Ok(SharedGraph {
            graph,
            classes,
            representatives,
        })
    }

    /// The graph, with the nodes that were added.
    pub fn graph(&self) -> &Graph
        ensures value { result.now ≡ self.now }
        ensures closed { IsClosed self.now }
    {
        &self.graph
    }

    /// The graph, with the nodes that were added. Takes no memory.
    pub fn into_graph(self) -> Graph
        ensures value { result ≡ self }
    {
        self.graph
    }

    /// The representative of this node. Takes no memory.
    pub fn first(&self, n: NodeId) -> NodeId
        requires within { n.0 < length self.now }
        ensures first { IsRepresentative self.now (node_point self.now n) result }
    {
        NodeId(self.classes[n.0 as usize] as u64)
    }

    /// The representative of the constructor over these nodes: an existing one, or a new one at the end. An error
    /// changes nothing.
    pub fn construct(&mut self, c: CtorId, children: NodeIds) -> Result<NodeId, ValueError>
        requires within { All (λ child. child.0 < length self.old) children }
        ensures first { IfOk result (IsRepresentative self.new (point self.new (node_value (nodes.Con c children)))) }
        ensures grown { OnOk result ((self.new ≡ self.old) ⊎ (self.new ≡ self.old ++ nodes.Con c children ∷ [])) }
        ensures number { IfOk result (λ n. (self.new ≡ self.old) ⊎ (n.0 ≡ length self.old)) }
        ensures err { OnErr result (self.new ≡ self.old) }
    {
        let alloc = *self.classes.allocator();
        let key = key_over(alloc, &self.classes, Head::Con(c), children.as_slice())?;
        if let Some(first) = first_of(&self.representatives, &key) {
            return Ok(first);
        }
        let node = Node::Con(c, children);
        add(
            &mut self.graph,
            &mut self.classes,
            &mut self.representatives,
            key,
            node,
        )
    }
}

// The node that the map has for the key, if it has one.
fn first_of(representatives: &IndexMap<Key, usize>, key: &Key) -> Option<NodeId>
    ensures found { IfSome result (λ n. get same_key representatives.now key.now ≡ Some n.0) }
    ensures absent { IfNone result (get same_key representatives.now key.now ≡ None) }
{
    match representatives.get(key) {
        Some(first) => Some(NodeId(*first as u64)),
        None => None,
    }
}

// One more node, whose key the map does not have. An error changes nothing.
fn add(
    graph: &mut Graph,
    classes: &mut Vec<usize>,
    representatives: &mut IndexMap<Key, usize>,
    key: Key,
    node: Node,
) -> Result<NodeId, ValueError>
    requires shared { IsShared graph.old classes.old.items representatives.old }
    requires below { HasChildrenBelow (length graph.old) node }
    requires key { key ≡ node_key classes.old.items node }
    requires absent { get same_key representatives.old key ≡ None }
    ensures shared { IsShared graph.new classes.new.items representatives.new }
    ensures first { IfOk result (IsRepresentative graph.new (point graph.new (node_value node))) }
    ensures grown { OnOk result (graph.new ≡ graph.old ++ node ∷ []) }
    ensures number { IfOk result (λ n. n.0 ≡ length graph.old) }
    ensures err { OnErr result (graph.new ≡ graph.old) }
{
    classes.reserve(1)?;
    let n = graph.push_keyed(node, representatives, key)?;
    classes.push(n.0 as usize).unwrap();
    Ok(n)
}

// The classes of the nodes that agree at every depth, each named for its representative.
fn stable_classes(alloc: Global, graph: &Graph) -> Result<Vec<usize>, ValueError>
    ensures classes { IfOk result (λ classes. AreClasses graph.now classes.items) }
{
    let packed = packed(alloc, graph)?;
    let classes = classes(alloc, &packed)?;
    Ok(classes)
}

// What tells a node's value: its head, and the classes of its children.
fn key_over(
    alloc: Global,
    classes: &[usize],
    head: Head,
    children: &[NodeId],
) -> Result<Key, ValueError>
    requires within { All (λ child. child.0 < length classes.now) children.now }
    ensures value { IfOk result (λ key. key ≡ record { head = head; children = map (λ child. class_at classes.now child.0) children.now }) }
{
    Ok(Key {
        head,
        children: Indices::new(classes_of(alloc, classes, children)?),
    })
}

// The representative of each key.
fn keyed(
    alloc: Global,
    graph: &Graph,
    classes: &[usize],
) -> Result<IndexMap<Key, usize>, ValueError>
    requires classes { AreClasses graph.now classes.now }
    ensures shared { IfOk result (IsShared graph.now classes.now) }
{
    let mut representatives = IndexMap::new(alloc);
    for index in 0..classes.len() {
        let n = NodeId(index as u64);
        let key = key_over(alloc, classes, graph.head(n), graph.children(n))?;
        first_with(&mut representatives, key, index)?;
    }
    Ok(representatives)
}

// The first index that has the key: the one that is stored for it, or this one, which is then
// stored.
fn first_with(
    representatives: &mut IndexMap<Key, usize>,
    key: Key,
    index: usize,
) -> Result<usize, ValueError>
    ensures found { IfOk result (λ first. get same_key representatives.new key ≡ Some first) }
    ensures stay { IfOk result (λ first. (k : Key) (n : ℕ)
        → get same_key representatives.old k ≡ Some n
        → get same_key representatives.new k ≡ Some n) }
    ensures only { IfOk result (λ first. (k : Key) (n : ℕ)
        → get same_key representatives.new k ≡ Some n
        → (get same_key representatives.old k ≡ Some n) ⊎ ((k ≡ key) × (n ≡ index))) }
{
    if let Some(first) = representatives.get(&key) {
        return Ok(*first);
    }
    representatives.insert(key, index)?;
    Ok(index)
}
