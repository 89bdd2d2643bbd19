//! Appends a graph to another graph: the nodes of datatypes after their children of datatypes, whatever their numbers were.
ghost use Rattle.std.specs.Prelude.{◌≡◌, ◌↔◌, ◌<◌, ◌+◌, ◌^◌, ◌++◌, ℕ, List, length, All, Some, slice_get, option_map, IsTrue, IfOk, OnOk, MatchOption};
ghost use Rattle.std.specs.List.{AllZip, filter};
ghost use Rattle.ct_sorts.specs.Grown.{Begins};
ghost use Rattle.ct_sorts.specs.Declarations.{Sort};
ghost use Rattle.ct_sorts.specs.declared.ids.Kind.TheVariants as Kind;
ghost use Rattle.ct_values.specs.WellFormed.{IsData, IsWellFormedGraph};
ghost use Rattle.ct_ordering.specs.Graph.{graph, ArePoints, Graph as Edges};
ghost use Rattle.ct_ordering.specs.Order.{IsOrder};
ghost use Rattle.ct_readback.specs.Cycles.{HasDataCycle};
ghost use Rattle.ct_readback.specs.Descent.{IsUpperPart, has_some};
ghost use Rattle.ct_readback.specs.Placed.{AreDataEdges, AreDataChildren, IsDataRow, ArePlaces, StandsAt, IsMoved, IsPlacedRoot};

use crate::error::BackError;
use crate::pool::Pool;
use ct_ordering::{Ordered, order};
use ct_sorts::{Kind, Signature, SortId};
use ct_values::{Graph, Head, Node, NodeId, NodeIds, sort_of};
use std::alloc::Global;

/// The children of datatypes of all nodes of datatypes, one after the other, and where those of each begin, with the end of the last.
#[derive(Debug, Drop)]
pub(crate) struct Adjacency {
    pub(crate) starts: Vec<usize>,
    pub(crate) kids: Vec<usize>,
}

// Whether the node is of a datatype.
fn is_data(sig: &Signature, h: &Graph, n: NodeId) -> bool
    ensures datatype { IsTrue result ↔ IsData sig.now h.now n }
{
    match sort_of(sig, h, n) {
        Some(sort) => is_data_sort(sig, sort),
        None => false,
    }
}

// Whether it is a datatype.
fn is_data_sort(sig: &Signature, s: SortId) -> bool
    ensures datatype { IsTrue result
        ↔ ((sort : Sort) × (slice_get sig.now.sorts s.0 ≡ Some sort) × (sort.kind ≡ Kind.Data)) }
{
    match kind_of(sig, s) {
        Some(Kind::Data) => true,
        _ => false,
    }
}

// The kind of a sort, where there is one of this number.
fn kind_of(sig: &Signature, s: SortId) -> Option<Kind>
    ensures kind { result ≡ option_map (λ sort. sort.kind) (slice_get sig.now.sorts s.0) }
{
    if s.0 >= sig.sorts() {
        return None;
    }
    Some(sig.kind(s))
}

// Adds the children of datatypes.
fn add_children(
    sig: &Signature,
    h: &Graph,
    children: &[NodeId],
    kids: &mut Vec<usize>,
) -> Result<(), BackError>
    requires within { All (λ child. child.0 < length h.now) children.now }
    ensures added { OnOk result ((row : List ℕ) × AreDataChildren sig.now h.now children.now row × (kids.new.items ≡ kids.old.items ++ row)) }
    ensures below { OnOk result (All (λ kid. kid < length h.now) kids.old.items → All (λ kid. kid < length h.now) kids.new.items) }
{
    for child in children {
        if !is_data(sig, h, *child) {
            continue;
        }
        kids.push(child.0 as usize)?;
    }
    Ok(())
}

// Adds those of the node, where it is of a datatype.
fn add_row(sig: &Signature, h: &Graph, n: NodeId, kids: &mut Vec<usize>) -> Result<(), BackError>
    requires within { n.0 < length h.now }
    ensures added { OnOk result ((row : List ℕ) × IsDataRow sig.now h.now n.0 row × (kids.new.items ≡ kids.old.items ++ row)) }
    ensures below { OnOk result (All (λ kid. kid < length h.now) kids.old.items → All (λ kid. kid < length h.now) kids.new.items) }
{
    if !is_data(sig, h, n) {
        return Ok(());
    }
    add_children(sig, h, h.children(n), kids)
}

// The graph of nodes of datatypes.
fn data_edges(alloc: Global, sig: &Signature, h: &Graph) -> Result<Adjacency, BackError>
    ensures formed { IfOk result (λ edges. ArePoints edges.starts.items edges.kids.items) }
    ensures edges { IfOk result (λ edges. AreDataEdges sig.now h.now (graph edges.starts.items edges.kids.items)) }
{
    let mut starts = Vec::new(alloc);
    let mut kids = Vec::new(alloc);
    starts.push(0)?;
    for n in 0..h.len() {
        add_row(sig, h, NodeId(n), &mut kids)?;
        starts.push(kids.len())?;
    }
    Ok(Adjacency { starts, kids })
}

// Where each of so many nodes stands, where they stand in this order from the base on.
fn places_of(
    alloc: Global,
    points: &[usize],
    count: u64,
    base: u64,
) -> Result<Vec<NodeId>, BackError>
    requires within { All (λ point. point < count) points.now }
    requires once { (i j point : ℕ) → slice_get points.now i ≡ Some point → slice_get points.now j ≡ Some point → i ≡ j }
    requires room { base + length points.now < 2 ^ 64 }
    ensures places { IfOk result (λ places. ArePlaces base count points.now places.items) }
{
    let mut places = vec![in alloc; NodeId(0); count as usize]?;
    for index in 0..points.len() {
        places[points[index]] = NodeId(base + index as u64);
    }
    Ok(places)
}

// The node with its children where they stand now.
fn moved(alloc: Global, h: &Graph, places: &[NodeId], n: NodeId) -> Result<Node, BackError>
    requires within { n.0 < length h.now }
    requires long { length places.now ≡ length h.now }
    ensures moved { IfOk result (IsMoved h.now places.now n.0) }
{
    match h.head(n) {
        Head::Elem(s, number) => Ok(Node::Elem(s, number)),
        Head::Con(c) => {
            let children = children_moved(alloc, h.children(n), places)?;
            Ok(Node::Con(c, children))
        }
    }
}

// The children where they stand now.
fn children_moved(
    alloc: Global,
    children: &[NodeId],
    places: &[NodeId],
) -> Result<NodeIds, BackError>
    requires within { All (λ child. child.0 < length places.now) children.now }
    ensures moved { IfOk result (λ all. AllZip (StandsAt places.now) all children.now) }
{
    let mut all = Vec::with_capacity(alloc, children.len())?;
    for child in children {
        all.push(places[child.0 as usize])?;
    }
    Ok(NodeIds::new(all))
}

// The nodes in this order, with their children where they stand then.
fn in_order(
    alloc: Global,
    h: &Graph,
    points: &[usize],
    places: &[NodeId],
) -> Result<Vec<Node>, BackError>
    requires within { All (λ point. point < length h.now) points.now }
    requires long { length places.now ≡ length h.now }
    ensures moved { IfOk result (λ nodes. AllZip (IsMoved h.now places.now) points.now nodes.items) }
{
    let mut nodes = Vec::with_capacity(alloc, points.len())?;
    for point in points {
        nodes.push(moved(alloc, h, places, NodeId(*point as u64))?)?;
    }
    Ok(nodes)
}

/// Puts the nodes of a graph that have sorts after another one, and gives the number of its node 0 there; `None` where the graph has a
/// cycle of nodes of datatypes, also of such as have no sort. The time is linear in both lists of its nodes and children.
pub(crate) fn place(
    alloc: Global,
    sig: &Signature,
    h: &Graph,
    sorts: &[Option<SortId>],
    graph: &mut Pool,
) -> Result<Option<NodeId>, BackError>
    requires upper { IsUpperPart sig.now h.now sorts.now }
    requires well_formed { IsWellFormedGraph sig.now graph.old }
    ensures grown { Begins graph.old graph.new }
    ensures well_formed { IsWellFormedGraph sig.now graph.new }
    ensures placed { IfOk result (λ found. MatchOption found (HasDataCycle sig.now h.now)
        (λ n. (HasDataCycle sig.now h.now → ⊥) × IsPlacedRoot sig.now h.now graph.new n)) }
{
    let edges = data_edges(alloc, sig, h)?;
    match order(alloc, &edges.starts, &edges.kids)? {
        Ordered::Cycle(_) => Ok(None),
        Ordered::Order(points) => {
            let points = sorted(alloc, sorts, &points)?;
            let n = append_in_order(alloc, sig, h, sorts, &points, graph)?;
            Ok(Some(n))
        }
    }
}

// Those of the nodes that have sorts, in the same order.
fn sorted(
    alloc: Global,
    sorts: &[Option<SortId>],
    points: &[usize],
) -> Result<Vec<usize>, BackError>
    requires within { All (λ point. point < length sorts.now) points.now }
    ensures value { IfOk result (λ list. list.items ≡ filter (has_some sorts.now) points.now) }
{
    let mut list = Vec::with_capacity(alloc, points.len())?;
    for point in points {
        if !is_sorted(sorts, *point) {
            continue;
        }
        list.push(*point)?;
    }
    Ok(list)
}

// Whether the node has some sort.
fn is_sorted(sorts: &[Option<SortId>], point: usize) -> bool
    requires within { point < length sorts.now }
    ensures value { result ≡ has_some sorts.now point }
{
    sorts[point].is_some()
}

// Puts these nodes after the other graph in this order, and gives the number of node 0.
fn append_in_order(
    alloc: Global,
    sig: &Signature,
    h: &Graph,
    sorts: &[Option<SortId>],
    points: &[usize],
    graph: &mut Pool,
) -> Result<NodeId, BackError>
    requires upper { IsUpperPart sig.now h.now sorts.now }
    requires order { (g : Edges) × (all : List ℕ) × AreDataEdges sig.now h.now g × IsOrder g all × (points.now ≡ filter (has_some sorts.now) all) }
    requires well_formed { IsWellFormedGraph sig.now graph.old }
    ensures grown { Begins graph.old graph.new }
    ensures well_formed { IsWellFormedGraph sig.now graph.new }
    ensures placed { IfOk result (IsPlacedRoot sig.now h.now graph.new) }
{
    let base = graph.len();
    if base >= u64::MAX - points.len() as u64 {
        return Err(BackError::NoMemory);
    }
    let places = places_of(alloc, points, h.len(), base)?;
    let nodes = in_order(alloc, h, points, &places)?;
    graph.append(nodes)?;
    Ok(places[0])
}
