//! A graph in which each class has a node with a value of its own.
ghost use Rattle.std.specs.Prelude.{IfOk};
ghost use Rattle.ct_values.specs.WellFormed.{IsWellFormedGraph};
ghost use Rattle.ct_acyclic.specs.Order.{IsClassOrder};
ghost use Rattle.ct_card.specs.Sizes.{Table};
ghost use Rattle.ct_build.specs.OpenClasses.{AreOpenClasses, AreOfAllSorts};
ghost use Rattle.ct_build.specs.Nodes.{HaveSortedNodes, AreValued};
ghost use Rattle.ct_build.specs.Trials.{AreAllChosen};
ghost use Rattle.ct_build.specs.Buildable.{AreBuildable};

use crate::choice::choose;
use crate::chosen::Chosen;
use crate::class_graph::class_graph;
use crate::defaults::default_nodes;
use crate::error::BuildError;
use crate::facts::known;
use crate::given::given_values;
use crate::open_classes::OpenClass;
use ct_card::Sizes;
use ct_congr::Classes;
use ct_terms::TermId;
use ct_values::{Graph, NodeId};
use std::alloc::Global;

/// A graph with the nodes of terms and of sorts.
#[derive(Debug, Drop)]
pub(crate) struct TermNodes {
    pub(crate) graph: Graph,
    /// For each term the node of its class.
    pub(crate) nodes: Vec<NodeId>,
    /// For each sort a node.
    pub(crate) defaults: Vec<NodeId>,
}

/// A graph in which each class has a node with a value of its own.
pub(crate) fn valued(
    alloc: Global,
    sizes: &Sizes,
    classes: &Classes,
    order: &[TermId],
    unbuilt: &[OpenClass],
) -> Result<TermNodes, BuildError>
    requires buildable { AreBuildable classes.now sizes.now }
    requires ordered { IsClassOrder classes.now order.now }
    requires classes { AreOpenClasses classes.now unbuilt.now }
    ensures well_formed { IfOk result (λ v. IsWellFormedGraph classes.now.declarations v.graph) }
    ensures nodes { IfOk result (λ v. HaveSortedNodes classes.now.declarations classes.now.terms v.graph v.nodes.items) }
    ensures defaults { IfOk result (λ v. AreOfAllSorts classes.now.declarations v.graph v.defaults.items) }
    ensures valued { IfOk result (λ v. AreValued classes.now v.graph v.nodes.items) }
{
    let mut graph = Graph::from_nodes(Vec::new(alloc));
    let defaults = default_nodes(alloc, classes.signature(), sizes, &mut graph)?;
    let places = unbuilt.len().saturating_mul(2).saturating_add(1);
    let prepared = sizes.prepare(classes.signature(), &mut graph, places)?;
    let mut chosen = Chosen {
        graph,
        prepared,
        nodes: Vec::new(alloc),
    };
    choose(
        alloc,
        sizes,
        classes,
        order,
        &defaults,
        unbuilt,
        &mut chosen,
    )?;
    let Chosen {
        mut graph,
        prepared,
        nodes: of_classes,
    } = chosen;
    drop(prepared);
    let nodes = class_values(
        alloc,
        classes,
        order,
        &defaults,
        unbuilt,
        &of_classes,
        &mut graph,
    )?;
    Ok(TermNodes {
        graph,
        nodes,
        defaults,
    })
}

// For each term the node of its class, which is put after the graph, where each open class has a value.
fn class_values(
    alloc: Global,
    classes: &Classes,
    order: &[TermId],
    defaults: &[NodeId],
    unbuilt: &[OpenClass],
    chosen: &[NodeId],
    g: &mut Graph,
) -> Result<Vec<NodeId>, BuildError>
    requires buildable { (sizes : Table) × AreBuildable classes.now sizes }
    requires ordered { IsClassOrder classes.now order.now }
    requires classes { AreOpenClasses classes.now unbuilt.now }
    requires all { AreAllChosen classes.now defaults.now unbuilt.now g.old chosen.now }
    ensures well_formed { IfOk result (λ nodes. IsWellFormedGraph classes.now.declarations g.new) }
    ensures nodes { IfOk result (λ nodes. HaveSortedNodes classes.now.declarations classes.now.terms g.new nodes.items) }
    ensures defaults { IfOk result (λ nodes. AreOfAllSorts classes.now.declarations g.new defaults.now) }
    ensures valued { IfOk result (λ nodes. AreValued classes.now g.new nodes.items) }
{
    known(classes);
    let values = given_values(alloc, classes, defaults, unbuilt, chosen, g)?;
    let nodes = class_graph(alloc, classes, order, &values, g)?;
    Ok(nodes)
}
