//! Nodes of classes where open classes have values of given numbers.
ghost use Rattle.std.specs.Prelude.{◌≡◌, ℕ, ◌<◌, ◌≤◌, List, length, Some, slice_get, IfOk, OnOk};
ghost use Rattle.ct_card.specs.Sizes.{AreSizes};
ghost use Rattle.ct_card.specs.Made.{IsPrepared};
ghost use Rattle.ct_congr.specs.State.{IsQuiet};
ghost use Rattle.ct_acyclic.specs.Order.{IsClassOrder};
ghost use Rattle.ct_values.specs.declared.node.NodeId.{NodeId};
ghost use Rattle.ct_build.specs.OpenClasses.{AreOpenClasses, HaveOwnRepresentatives};
ghost use Rattle.ct_build.specs.Chosen.{AreChosen};

use crate::chosen::{Chosen, push_value};
use crate::class_graph::class_graph;
use crate::defaults::default_nodes;
use crate::error::BuildError;
use crate::given::given_values;
use crate::open_classes::OpenClass;
use ct_card::Sizes;
use ct_congr::Classes;
use ct_terms::TermId;
use ct_values::{Graph, NodeId, SharedGraph};
use std::alloc::Global;

/// A graph with the nodes of terms and of sorts, each the first of its value.
#[derive(Drop)]
pub(crate) struct SmallValues {
    pub(crate) shared: SharedGraph,
    /// For each term the node of its class.
    pub(crate) nodes: Vec<NodeId>,
    /// For each sort a node.
    pub(crate) defaults: Vec<NodeId>,
}

/// The nodes of all classes where open classes have the values of these numbers, in their order.
pub(crate) fn small_values(
    alloc: Global,
    sizes: &Sizes,
    classes: &Classes,
    order: &[TermId],
    unbuilt: &[OpenClass],
    numbers: &[u64],
) -> Result<SmallValues, BuildError>
    requires sizes { AreSizes classes.now.declarations sizes.now }
    requires quiet { IsQuiet classes.now }
    requires own { HaveOwnRepresentatives classes.now }
    requires ordered { IsClassOrder classes.now order.now }
    requires classes { AreOpenClasses classes.now unbuilt.now }
    ensures nodes { IfOk result (λ small. length small.nodes.items ≡ length classes.now.terms) }
    ensures defaults { IfOk result (λ small. length small.defaults.items ≡ length classes.now.declarations.sorts) }
{
    let mut graph = Graph::from_nodes(Vec::new(alloc));
    let defaults = default_nodes(alloc, classes.signature(), sizes, &mut graph)?;
    let places = unbuilt.len().saturating_mul(2).saturating_add(1);
    let prepared = sizes.prepare(classes.signature(), &mut graph, places)?;
    let mut chosen = Chosen {
        graph,
        prepared,
        nodes: Vec::new(alloc),
    };
    push_numbers(sizes, classes, unbuilt, numbers, &mut chosen)?;
    let Chosen {
        graph,
        prepared,
        nodes: of_classes,
    } = chosen;
    drop(prepared);
    nodes_over(alloc, classes, order, unbuilt, defaults, &of_classes, graph)
}

// The nodes of all classes, where open classes have these, and those of the sorts.
fn nodes_over(
    alloc: Global,
    classes: &Classes,
    order: &[TermId],
    unbuilt: &[OpenClass],
    defaults: Vec<NodeId>,
    chosen: &[NodeId],
    graph: Graph,
) -> Result<SmallValues, BuildError>
    requires quiet { IsQuiet classes.now }
    requires own { HaveOwnRepresentatives classes.now }
    requires ordered { IsClassOrder classes.now order.now }
    requires classes { AreOpenClasses classes.now unbuilt.now }
    requires chosen { AreChosen classes.now graph defaults.items unbuilt.now chosen.now }
    ensures nodes { IfOk result (λ small. length small.nodes.items ≡ length classes.now.terms) }
    ensures defaults { IfOk result (λ small. length small.defaults.items ≡ length classes.now.declarations.sorts) }
{
    let mut graph = graph;
    let values = given_values(alloc, classes, &defaults, unbuilt, chosen, &mut graph)?;
    let nodes = class_graph(alloc, classes, order, &values, &mut graph)?;
    let shared = SharedGraph::new(alloc, graph)?;
    let nodes = firsts(alloc, &shared, &nodes)?;
    let defaults = firsts(alloc, &shared, &defaults)?;
    Ok(SmallValues {
        shared,
        nodes,
        defaults,
    })
}

// Chooses the values of these numbers for all open classes that have none; 0 where there is no number.
fn push_numbers(
    sizes: &Sizes,
    classes: &Classes,
    unbuilt: &[OpenClass],
    numbers: &[u64],
    chosen: &mut Chosen,
) -> Result<(), BuildError>
    requires sizes { AreSizes classes.now.declarations sizes.now }
    requires classes { AreOpenClasses classes.now unbuilt.now }
    requires prepared { IsPrepared classes.now.declarations sizes.now chosen.old.graph chosen.old.prepared }
    ensures chosen { OnOk result ((defaults : List NodeId)
        → AreChosen classes.now chosen.old.graph defaults unbuilt.now chosen.old.nodes.items
        → AreChosen classes.now chosen.new.graph defaults unbuilt.now chosen.new.nodes.items) }
{
    while chosen.nodes.len() < unbuilt.len() {
        let number = numbers.get(chosen.nodes.len()).copied().unwrap_or(0);
        push_value(sizes, classes, unbuilt, number, chosen)?;
    }
    Ok(())
}

// The first nodes of these nodes' values.
fn firsts(alloc: Global, shared: &SharedGraph, nodes: &[NodeId]) -> Result<Vec<NodeId>, BuildError>
    ensures long { IfOk result (λ list. length list.items ≡ length nodes.now) }
{
    let mut list = Vec::with_capacity(alloc, nodes.len())?;
    for i in 0..nodes.len() {
        list.push(first_of(shared, nodes[i]))?;
    }
    Ok(list)
}

// The first node of this node's value.
fn first_of(shared: &SharedGraph, n: NodeId) -> NodeId {
    if n.0 >= shared.graph().len() {
        return n;
    }
    shared.first(n)
}
