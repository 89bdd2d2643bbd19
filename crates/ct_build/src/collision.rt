//! Finds two classes with the same value.
ghost use Rattle.std.specs.Prelude.{◌≡◌, ℕ, ◌<◌, length, Option, Some, slice_get, IfOk, IfSome, IfNone};
ghost use Rattle.ct_values.specs.declared.node.NodeId.{NodeId};
ghost use Rattle.ct_values.specs.Graph.{IsClosed};
ghost use Rattle.ct_terms.specs.declared.ids.TermId.{TermId};
ghost use Rattle.ct_acyclic.specs.Order.{IsClassOrder};
ghost use Rattle.ct_congr.specs.State.{AreEqual};
ghost use Rattle.ct_eval.specs.EvaluationStep.{node_under};
ghost use Rattle.ct_card.specs.Sizes.{Table};
ghost use Rattle.ct_build.specs.ClassValues.{AreApart, Collide, AreApartWith, CollideWith};
ghost use Rattle.ct_build.specs.OpenClasses.{AreOpenClasses, HaveOwnRepresentatives};
ghost use Rattle.ct_build.specs.Nodes.{term_point};
ghost use Rattle.ct_build.specs.Chosen.{AreChosen};
ghost use Rattle.ct_build.specs.Buildable.{AreBuildable};
ghost use Rattle.ct_build.specs.Owners.{AreOwners, IsClaim};

use crate::chosen::Chosen;
use crate::class_graph::class_graph;
use crate::error::BuildError;
use crate::facts::{facts, known};
use crate::given::given_values;
use crate::open_classes::OpenClass;
use ct_congr::Classes;
use ct_terms::TermId;
use ct_values::{NodeId, SharedGraph, representative_nodes};
use std::alloc::Global;

/// Two classes that have one value where the first open classes have these values and the others are told from everything
/// else, if there are two. The test is one look at the representatives of a graph in which each class has a node.
pub(crate) fn collision(
    alloc: Global,
    classes: &Classes,
    order: &[TermId],
    defaults: &[NodeId],
    unbuilt: &[OpenClass],
    chosen: &Chosen,
) -> Result<Option<(TermId, TermId)>, BuildError>
    requires buildable { (sizes : Table) × AreBuildable classes.now sizes }
    requires ordered { IsClassOrder classes.now order.now }
    requires classes { AreOpenClasses classes.now unbuilt.now }
    requires chosen { AreChosen classes.now chosen.now.graph defaults.now unbuilt.now chosen.now.nodes.items }
    ensures none { IfOk result (λ found. IfNone found (AreApartWith classes.now chosen.now.graph defaults.now unbuilt.now chosen.now.nodes.items)) }
    ensures some { IfOk result (λ found. IfSome found (λ pair. CollideWith classes.now chosen.now.graph defaults.now unbuilt.now chosen.now.nodes.items pair.0 pair.1)) }
{
    known(classes);
    let mut scratch = chosen.graph.copy()?;
    let values = given_values(
        alloc,
        classes,
        defaults,
        unbuilt,
        &chosen.nodes,
        &mut scratch,
    )?;
    let nodes = class_graph(alloc, classes, order, &values, &mut scratch)?;
    let shared = SharedGraph::new(alloc, scratch)?;
    let found = first_collision(alloc, classes, &nodes, &shared)?;
    drop(shared);
    Ok(found)
}

// Two classes whose nodes have one representative, if there are two.
fn first_collision(
    alloc: Global,
    classes: &Classes,
    nodes: &[NodeId],
    shared: &SharedGraph,
) -> Result<Option<(TermId, TermId)>, BuildError>
    requires own { HaveOwnRepresentatives classes.now }
    requires long { length nodes.now ≡ length classes.now.terms }
    requires within { (t : ℕ) (n : NodeId) → slice_get nodes.now t ≡ Some n → n.0 < length shared.now }
    requires one_node { (t u : TermId) → AreEqual classes.now t u → node_under nodes.now t ≡ node_under nodes.now u }
    ensures closed { IsClosed shared.now }
    ensures none { IfOk result (λ found. IfNone found (AreApart classes.now (term_point shared.now nodes.now))) }
    ensures some { IfOk result (λ found. IfSome found (λ pair. Collide classes.now (term_point shared.now nodes.now) pair.0 pair.1)) }
{
    facts(classes);
    representative_nodes();
    let mut owners = vec![in alloc; None; shared.graph().len() as usize]?;
    for t in 0..classes.table().len() {
        if let Some(other) = claim(classes, nodes, shared, TermId(t), &mut owners) {
            return Ok(Some((other, TermId(t))));
        }
    }
    Ok(None)
}

// The class that has the representative of the term's node already, if the term represents another class; where none has it
// and the term represents a class, this class gets it.
fn claim(
    classes: &Classes,
    nodes: &[NodeId],
    shared: &SharedGraph,
    t: TermId,
    owners: &mut Vec<Option<TermId>>,
) -> Option<TermId>
    requires inside { t.0 < length classes.now.terms }
    requires long { length nodes.now ≡ length classes.now.terms }
    requires within { (k : ℕ) (n : NodeId) → slice_get nodes.now k ≡ Some n → n.0 < length shared.now }
    requires many { length owners.old.items ≡ length shared.now }
    ensures many { length owners.new.items ≡ length shared.now }
    ensures claim { IsClaim classes.now shared.now nodes.now t owners.old.items owners.new.items result }
{
    if classes.rep(t) != t {
        return None;
    }
    let first = shared.first(nodes[t.0 as usize]).0 as usize;
    if let Some(other) = owners[first] {
        return Some(other);
    }
    owners[first] = Some(t);
    None
}
