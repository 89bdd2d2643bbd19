//! A node for each term before its class has one: for an open class the chosen node or its mark, otherwise that of its sort.
ghost use Rattle.std.specs.Prelude.{◌≡◌, ℕ, ◌<◌, ◌≤◌, length, Some, slice_get, IfOk};
ghost use Rattle.ct_sorts.specs.Grown.{Begins};
ghost use Rattle.ct_values.specs.declared.node.NodeId.{NodeId};
ghost use Rattle.ct_build.specs.OpenClasses.{AreOpenClasses};
ghost use Rattle.ct_build.specs.Chosen.{AreGiven, AreDefaults, IsGivenAt};

use crate::error::BuildError;
use crate::open_classes::{OpenClass, term_sort};
use ct_congr::Classes;
use ct_sorts::SortId;
use ct_terms::TermId;
use ct_values::{Graph, Node, NodeId};
use std::alloc::Global;

/// For each term the node that was chosen for the open class that it represents, or the mark of this class where none was
/// chosen, which is put after the graph, or else the node of its sort.
pub(crate) fn given_values(
    alloc: Global,
    classes: &Classes,
    defaults: &[NodeId],
    unbuilt: &[OpenClass],
    chosen: &[NodeId],
    g: &mut Graph,
) -> Result<Vec<NodeId>, BuildError>
    requires classes { AreOpenClasses classes.now unbuilt.now }
    requires defaults { length defaults.now ≡ length classes.now.declarations.sorts }
    requires within { (i : ℕ) (n : NodeId) → slice_get chosen.now i ≡ Some n → n.0 < length g.old }
    ensures grown { Begins g.old g.new }
    ensures kept { length unbuilt.now ≤ length chosen.now → g.new ≡ g.old }
    ensures given { IfOk result (λ values. AreGiven classes.now g.new defaults.now unbuilt.now chosen.now values.items) }
{
    let mut values = defaults_of_terms(alloc, classes, defaults)?;
    for i in 0..unbuilt.len() {
        let n = given_node(classes, unbuilt, chosen, i, g)?;
        values[unbuilt[i].rep.0 as usize] = n;
    }
    Ok(values)
}

// The node for the open class at this index.
fn given_node(
    classes: &Classes,
    unbuilt: &[OpenClass],
    chosen: &[NodeId],
    i: usize,
    g: &mut Graph,
) -> Result<NodeId, BuildError>
    requires inside { i < length unbuilt.now }
    requires within { (k : ℕ) (n : NodeId) → slice_get chosen.now k ≡ Some n → n.0 < length g.old }
    ensures grown { Begins g.old g.new }
    ensures kept { i < length chosen.now → g.new ≡ g.old }
    ensures given { IfOk result (IsGivenAt classes.now g.new unbuilt.now chosen.now i) }
{
    if i < chosen.len() {
        return Ok(chosen[i]);
    }
    let mark = SortId(classes.signature().sorts());
    let n = g.push(Node::Elem(mark, unbuilt[i].rep.0 as u64))?;
    Ok(n)
}

// For each term the node of its sort.
fn defaults_of_terms(
    alloc: Global,
    classes: &Classes,
    defaults: &[NodeId],
) -> Result<Vec<NodeId>, BuildError>
    requires long { length defaults.now ≡ length classes.now.declarations.sorts }
    ensures defaults { IfOk result (λ list. AreDefaults classes.now defaults.now (length classes.now.terms) list.items) }
{
    let mut list = Vec::new(alloc);
    for t in 0..classes.table().len() {
        let s = term_sort(classes, TermId(t));
        list.push(defaults[s.0 as usize])?;
    }
    Ok(list)
}
