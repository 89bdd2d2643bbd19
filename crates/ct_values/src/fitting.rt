//! Whether a graph fits declarations.
ghost use Rattle.std.specs.Prelude.{◌≡◌, ◌<◌, ◌↔◌, Some, All, IsTrue, length, option_map, slice_get};
ghost use Rattle.ct_sorts.specs.declared.ids.SortId.{SortId};
ghost use Rattle.std.specs.List.{AllZip};
ghost use Rattle.ct_sorts.specs.Declarations.{IsSelector};
ghost use Rattle.ct_values.specs.declared.node.Node.{Node};
ghost use Rattle.ct_values.specs.Graph.{node_head};
ghost use Rattle.ct_values.specs.Fitting.{node_sort, HasNodeSort, IsNodeOfField, IsBuilt, IsElement, FitsNode, FitsGraph};

use crate::graph::Graph;
use crate::node::{Head, NodeId};
use ct_sorts::{CtorId, Kind, SelId, Signature, SortId};

/// Whether the graph fits the declarations: each node is a constructor over nodes of its fields'
/// sorts, as many as it has fields, or an element of an uninterpreted sort. `value_text` asks for
/// it.
pub fn fits(sig: &Signature, g: &Graph) -> bool
    ensures value { IsTrue result ↔ FitsGraph sig.now g.now }
{
    for n in 0..g.len() {
        if !fits_node(sig, g, NodeId(n)) {
            return false;
        }
    }
    true
}

// Whether the node fits the declarations.
fn fits_node(sig: &Signature, g: &Graph, n: NodeId) -> bool
    requires within { n.0 < length g.now }
    ensures value { IsTrue result ↔ ((node : Node) → slice_get g.now n.0 ≡ Some node → FitsNode sig.now g.now node) }
{
    match g.head(n) {
        Head::Con(c) => is_built(sig, g, c, g.children(n)),
        Head::Elem(s, _) => is_element(sig, s),
    }
}

// Whether the constructor is declared and the children are of the sorts of its fields.
fn is_built(sig: &Signature, g: &Graph, c: CtorId, children: &[NodeId]) -> bool
    requires below { All (λ child. child.0 < length g.now) children.now }
    ensures value { IsTrue result ↔ IsBuilt sig.now g.now c.0 children.now }
{
    if c.0 >= sig.mark().ctors() {
        return false;
    }
    are_nodes_of_fields(sig, g, children, sig.ctor_sels(c))
}

// Whether the nodes are of the sorts of these selectors' fields, one for one.
fn are_nodes_of_fields(sig: &Signature, g: &Graph, children: &[NodeId], sels: &[SelId]) -> bool
    requires below { All (λ child. child.0 < length g.now) children.now }
    requires inside { All (IsSelector sig.now) sels.now }
    ensures value { IsTrue result ↔ AllZip (IsNodeOfField sig.now g.now) children.now sels.now }
{
    if children.len() != sels.len() {
        return false;
    }
    for i in 0..children.len() {
        if !has_sort(sig, g, children[i], sig.sel_sort(sels[i])) {
            return false;
        }
    }
    true
}

/// The sort of a node: that of its constructor, or of its element. `None` where there is no node of this number, or where its
/// constructor is not declared.
pub fn sort_of(sig: &Signature, g: &Graph, n: NodeId) -> Option<SortId>
    ensures value { (s : SortId) → (result ≡ Some s) ↔ HasNodeSort sig.now g.now n s }
{
    if n.0 >= g.len() {
        return None;
    }
    head_sort(sig, g.head(n))
}

// The sort of a node with this head.
fn head_sort(sig: &Signature, head: Head) -> Option<SortId>
    ensures value { (node : Node) → node_head node ≡ head → result ≡ node_sort sig.now node }
{
    match head {
        Head::Con(c) => ctor_sort(sig, c),
        Head::Elem(s, _) => Some(s),
    }
}

// The sort of a constructor, where there is one of this number.
fn ctor_sort(sig: &Signature, c: CtorId) -> Option<SortId>
    ensures value { result ≡ option_map (λ ctor. ctor.sort) (slice_get sig.now.ctors c.0) }
{
    if c.0 >= sig.mark().ctors() {
        return None;
    }
    Some(sig.ctor_sort(c))
}

/// Whether there is a node of this number and this sort. A node whose constructor is not declared is of none.
pub fn has_sort(sig: &Signature, g: &Graph, n: NodeId, sort: SortId) -> bool
    ensures value { IsTrue result ↔ HasNodeSort sig.now g.now n sort }
{
    match sort_of(sig, g, n) {
        Some(own) => own == sort,
        None => false,
    }
}

// Whether the sort is declared and free, so that it has elements.
fn is_element(sig: &Signature, s: SortId) -> bool
    ensures value { IsTrue result ↔ IsElement sig.now s.0 }
{
    if s.0 >= sig.sorts() {
        return false;
    }
    sig.kind(s) == Kind::Free
}
