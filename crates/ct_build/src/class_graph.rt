//! A node for each class.
ghost use Rattle.std.specs.Prelude.{◌≡◌, ℕ, ◌<◌, length, Some, slice_get, IfOk};
ghost use Rattle.ct_sorts.specs.Grown.{Begins};
ghost use Rattle.ct_values.specs.declared.node.NodeId.{NodeId};
ghost use Rattle.ct_values.specs.WellFormed.{IsWellFormedGraph};
ghost use Rattle.ct_congr.specs.State.{IsQuiet};
ghost use Rattle.ct_acyclic.specs.Order.{IsClassOrder};
ghost use Rattle.ct_build.specs.OpenClasses.{HaveOwnRepresentatives};
ghost use Rattle.ct_build.specs.Nodes.{HaveSortedNodes, AreAssigned};

use crate::class_list::class_list;
use crate::class_nodes::class_nodes;
use crate::error::BuildError;
use crate::facts::known;
use crate::numbering::numbered;
use ct_congr::Classes;
use ct_terms::TermId;
use ct_values::{Graph, NodeId};
use std::alloc::Global;

/// Puts a node for each class after the graph: its constructor term over the nodes of the arguments, or a copy of its value's.
/// Datatypes come in the order, and so after their children of datatypes. For each term the node of its class.
pub(crate) fn class_graph(
    alloc: Global,
    classes: &Classes,
    order: &[TermId],
    values: &[NodeId],
    g: &mut Graph,
) -> Result<Vec<NodeId>, BuildError>
    requires quiet { IsQuiet classes.now }
    requires own { HaveOwnRepresentatives classes.now }
    requires ordered { IsClassOrder classes.now order.now }
    requires long { length values.now ≡ length classes.now.terms }
    requires within { (t : ℕ) (n : NodeId) → slice_get values.now t ≡ Some n → n.0 < length g.old }
    ensures grown { IfOk result (λ nodes. Begins g.old g.new) }
    ensures assigned { IfOk result (λ nodes. AreAssigned classes.now g.old values.now g.new nodes.items) }
    ensures sorted { IfOk result (λ nodes. IsWellFormedGraph classes.now.declarations g.old
        → HaveSortedNodes classes.now.declarations classes.now.terms g.old values.now
        → IsWellFormedGraph classes.now.declarations g.new × HaveSortedNodes classes.now.declarations classes.now.terms g.new nodes.items) }
{
    known(classes);
    let list = class_list(alloc, classes, order)?;
    let base = g.len();
    // No memory holds so many nodes.
    if base >= u64::MAX - list.len() as u64 {
        return Err(BuildError);
    }
    let nodes = numbered(alloc, classes, values, &list, base)?;
    let added = class_nodes(alloc, classes, g, values, &list, &nodes)?;
    g.append(added)?;
    Ok(nodes)
}
