//! Default values: one for each sort, whose nodes are put after a graph at once. The nodes stand
//! in the order in which sorts are well founded, so that those of datatypes come after their
//! children of datatypes; those of codatatypes may make cycles.
ghost use Rattle.std.specs.Prelude.{◌≡◌, ℕ, ◌+◌, ◌-◌, ◌<◌, ◌≤◌, ◌^◌, ◌++◌, List, Some, false, map, length, get_or, slice_get, IfOk, OnOk, OnErr};
ghost use Rattle.ct_sorts.specs.declared.ids.CtorId.{CtorId};
ghost use Rattle.ct_sorts.specs.Declarations.{IsConstructor};
ghost use Rattle.ct_sorts.specs.Grown.{Begins};
ghost use Rattle.ct_values.specs.WellFormed.{IsWellFormedGraph};
ghost use Rattle.ct_values.specs.Fitting.{HasNodeSort};
ghost use Rattle.ct_card.specs.Fields.{ctor_fields};
ghost use Rattle.ct_card.specs.Defaults.{default_node, node_of_sort, is_free, AreChosen, AreDefaultNodes, AreNodesOfSorts, AreRanked, HasDefaults, IsPlan};

use crate::error::CardError;
use ct_sorts::{CtorId, Kind, Signature, SortId, structure};
use ct_values::{Graph, Node, NodeId, NodeIds};
use std::alloc::Global;

/// Puts a default value for each sort after the graph, and gives the number of the representative.
/// That of a sort of rank r stands r - 1 later.
pub(crate) fn append_defaults(
    alloc: Global,
    sig: &Signature,
    ranks: &[usize],
    order: &[usize],
    ctors: &[CtorId],
    g: &mut Graph,
) -> Result<u64, CardError>
    requires plan { IsPlan sig.now ranks.now order.now ctors.now }
    ensures grown { Begins g.old g.new }
    ensures well_formed { IsWellFormedGraph sig.now g.old → IsWellFormedGraph sig.now g.new }
    ensures stand { IfOk result (HasDefaults sig.now ranks.now ctors.now g.new) }
    ensures sorted { IfOk result (λ base. (s : ℕ) → s < length sig.now.sorts → HasNodeSort sig.now g.new (node_of_sort base ranks.now s) (record { 0 = s })) }
    ensures ranked { IfOk result (AreRanked ranks.now) }
{
    structure();
    prove!(sig.sorts() > 0);
    let base = g.len();
    if base >= u64::MAX - order.len() as u64 {
        return Err(CardError);
    }
    let nodes = default_nodes(alloc, sig, ranks, order, ctors, base)?;
    g.append(nodes)?;
    Ok(base)
}

// The default nodes of all sorts, in their order.
fn default_nodes(
    alloc: Global,
    sig: &Signature,
    ranks: &[usize],
    order: &[usize],
    ctors: &[CtorId],
    base: u64,
) -> Result<Vec<Node>, CardError>
    requires plan { IsPlan sig.now ranks.now order.now ctors.now }
    requires ranked { AreRanked ranks.now base }
    ensures nodes { IfOk result (λ nodes. AreDefaultNodes sig.now ranks.now order.now ctors.now base nodes.items) }
{
    let mut nodes = Vec::with_capacity(alloc, order.len())?;
    for s in order {
        nodes.push(default_node(alloc, sig, ranks, base, *s, ctors)?)?;
    }
    Ok(nodes)
}

// The default node of a sort.
fn default_node(
    alloc: Global,
    sig: &Signature,
    ranks: &[usize],
    base: u64,
    s: usize,
    ctors: &[CtorId],
) -> Result<Node, CardError>
    requires inside { s < length sig.now.sorts }
    requires long { length ranks.now ≡ length sig.now.sorts }
    requires ranked { AreRanked ranks.now base }
    requires chosen { AreChosen sig.now ranks.now ctors.now }
    ensures node { IfOk result (λ node. (c : CtorId) → slice_get ctors.now s ≡ Some c → node ≡ default_node sig.now ranks.now base s c) }
{
    structure();
    prove!(s < sig.sorts() as usize);
    let id = SortId(s as u32);
    if is_free(sig.kind(id)) {
        return Ok(Node::Elem(id, 0));
    }
    let c = ctors[s];
    let children = default_children(alloc, sig, ranks, base, c)?;
    Ok(Node::Con(c, NodeIds::new(children)))
}

/// The nodes of the default values of a constructor's fields.
pub(crate) fn default_children(
    alloc: Global,
    sig: &Signature,
    ranks: &[usize],
    base: u64,
    c: CtorId,
) -> Result<Vec<NodeId>, CardError>
    requires inside { IsConstructor sig.now c }
    requires long { length ranks.now ≡ length sig.now.sorts }
    requires ranked { AreRanked ranks.now base }
    ensures value { IfOk result (λ ids. ids.items ≡ map (node_of_sort base ranks.now) (ctor_fields sig.now c)) }
{
    let mut ids = Vec::new(alloc);
    for sel in sig.ctor_sels(c) {
        ids.push(node_of_sort(ranks, base, sig.sel_sort(*sel).0 as usize))?;
    }
    Ok(ids)
}

/// The node of the default value of a sort.
pub(crate) fn node_of_sort(ranks: &[usize], base: u64, s: usize) -> NodeId
    requires within { s < length ranks.now }
    requires ranked { AreRanked ranks.now base }
    ensures value { result ≡ node_of_sort base ranks.now s }
{
    NodeId(base + (ranks[s] as u64 - 1))
}

/// The nodes of the default values of all sorts, in their order.
pub(crate) fn nodes_of_sorts(
    alloc: Global,
    ranks: &[usize],
    base: u64,
) -> Result<Vec<NodeId>, CardError>
    requires ranked { AreRanked ranks.now base }
    ensures nodes { IfOk result (λ nodes. AreNodesOfSorts base ranks.now nodes.items) }
{
    let mut nodes = Vec::with_capacity(alloc, ranks.len())?;
    for s in 0..ranks.len() {
        nodes.push(node_of_sort(ranks, base, s))?;
    }
    Ok(nodes)
}

/// Whether it is the kind of uninterpreted sorts.
pub(crate) fn is_free(kind: Kind) -> bool
    ensures value { result ≡ is_free kind }
{
    match kind {
        Kind::Free => true,
        _ => false,
    }
}
