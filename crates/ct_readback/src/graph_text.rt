//! Values that are written as graphs: their form, and their nodes.
ghost use Rattle.std.specs.Prelude.{◌≡◌, ◌<◌, ◌^◌, ℕ, List, [], Option, length, Some, codes, option_map, option_and_then, IfOk, IfSome, MatchOption};
ghost use Rattle.ct_sexpr.specs.View.{expression_of, expressions_of};
ghost use Rattle.ct_sorts.specs.Declarations.{IsSort};
ghost use Rattle.ct_values.specs.Graph.{Nodes};
ghost use Rattle.ct_readback.specs.GraphText as spec;
ghost use Rattle.ct_readback.specs.Parts as parts;
ghost use Rattle.ct_readback.specs.Parts.{holds, nth};
ghost use Rattle.ct_readback.specs.Nodes.{said_at, IsDeclaredNode, IsGraphAt};
ghost use Rattle.ct_readback.specs.Descent.{AreSorts, AreNodesSaid, IsUpperPart};
ghost use Rattle.ct_sorts.specs.declared.ids.SortId.{SortId};

use crate::descent::{some_sorts, sorts_below};
use crate::error::BackError;
use crate::heads::{constructor_at, element_in, is_constructor_head, is_head};
use crate::parts::{all_if, first_of, items_in, only_if, three_in, two_in};
use crate::words::{is_numbered, is_word, name_in, numbered};
use ct_instances::NamedCtor;
use ct_names::ctor_named;
use ct_sexpr::Sexpr;
use ct_sorts::{Signature, SortId};
use ct_values::{Graph, Node, NodeId, NodeIds};
use std::alloc::Global;

// The rows of a graph, where there is one at least.
fn some_rows(rows: &[Sexpr]) -> Option<&[Sexpr]>
    ensures value { spec.some_rows (expressions_of rows.now) ≡ option_map (λ rows. expressions_of rows.now) result }
{
    match rows {
        [] => None,
        [_, ..] => Some(rows),
    }
}

// The rows between a word and a root.
fn rows_between<'a>(word: &Sexpr, rows: &'a Sexpr, root: &Sexpr) -> Option<&'a [Sexpr]>
    ensures value { spec.rows_between (expression_of word.now, expression_of rows.now, expression_of root.now) ≡ option_map (λ rows. expressions_of rows.now) result }
{
    let rows = items_in(rows)?;
    let rows = all_if(is_word(b"@graph", word) && is_word(b"@0", root), rows)?;
    some_rows(rows)
}

// The rows of a graph, before they are looked at.
fn graph_rows(expr: &Sexpr) -> Option<&[Sexpr]>
    ensures value { spec.graph_rows (expression_of expr.now) ≡ option_map (λ rows. expressions_of rows.now) result }
{
    let (word, rows, root) = three_in(expr)?;
    rows_between(word, rows, root)
}

// What stands after the number in the row number i.
fn node_text(i: u64, row: &Sexpr) -> Option<&Sexpr>
    ensures value { spec.node_text i (expression_of row.now) ≡ option_map (λ e. expression_of e.now) result }
{
    let (number, node) = two_in(row)?;
    only_if(is_numbered(b"@", i, number), node)
}

// Whether the expression is the number of one of so many nodes.
fn is_reference(nodes: u64, expr: &Sexpr) -> bool
    ensures value { result ≡ spec.is_reference nodes (expression_of expr.now) }
{
    match numbered(b"@", expr) {
        None => false,
        Some(n) => n < nodes,
    }
}

// Whether each of the expressions is.
fn are_references(nodes: u64, exprs: &[Sexpr]) -> bool
    ensures value { result ≡ spec.are_references nodes (expressions_of exprs.now) }
{
    let mut rest = exprs;
    while let [first, others @ ..] = rest {
        if !is_reference(nodes, first) {
            return false;
        }
        rest = others;
    }
    true
}

// Whether the expressions are a constructor before references.
fn is_applied(nodes: u64, head: &Sexpr, args: &[Sexpr]) -> bool
    ensures value { result ≡ spec.is_applied nodes (expression_of head.now, expressions_of args.now) }
{
    match args {
        [] => false,
        [_, ..] => is_constructor_head(head) && are_references(nodes, args),
    }
}

// The head of a list, and what comes after it.
fn head_in(expr: &Sexpr) -> Option<(&Sexpr, &[Sexpr])>
    ensures value { option_and_then parts.first_of (parts.list_items (expression_of expr.now)) ≡ option_map (λ parts. (expression_of parts.0.now, expressions_of parts.1.now)) result }
{
    let items = items_in(expr)?;
    first_of(items)
}

// Whether the expression has the form of a node among so many.
fn is_node_text(nodes: u64, expr: &Sexpr) -> bool
    ensures value { result ≡ spec.is_node_text nodes (expression_of expr.now) }
{
    if is_head(expr) {
        return true;
    }
    match head_in(expr) {
        None => false,
        Some((head, args)) => is_applied(nodes, head, args),
    }
}

// Whether the row number i has such a node.
fn is_row(nodes: u64, i: u64, row: &Sexpr) -> bool
    ensures value { result ≡ holds (spec.is_node_text nodes) (spec.node_text i (expression_of row.now)) }
{
    match node_text(i, row) {
        None => false,
        Some(node) => is_node_text(nodes, node),
    }
}

// Whether the expressions are such rows, numbered from 0 on.
#[tactic(auto, using(crate::proofs::RestLemmas::rest_at))]
fn are_rows(rows: &[Sexpr]) -> bool
    ensures value { result ≡ spec.are_rows (length rows.now) 0 (expressions_of rows.now) }
{
    let nodes = rows.len() as u64;
    for index in 0..rows.len() {
        if !is_row(nodes, index as u64, &rows[index]) {
            return false;
        }
    }
    true
}

/// Whether the expression has the form of a graph.
#[tactic(auto, using(crate::proofs::RestLemmas::count_of))]
pub(crate) fn is_graph(expr: &Sexpr) -> bool
    ensures value { result ≡ spec.is_graph (expression_of expr.now) }
{
    match graph_rows(expr) {
        None => false,
        Some(rows) => are_rows(rows),
    }
}

// The nodes with the numbers that the expressions are.
fn references_in(alloc: Global, exprs: &[Sexpr]) -> Result<Option<NodeIds>, BackError>
    ensures value { IfOk result (λ nodes. nodes ≡ spec.references_in (expressions_of exprs.now)) }
{
    let mut nodes = Vec::new(alloc);
    let mut rest = exprs;
    while let [first, others @ ..] = rest {
        let Some(n) = numbered(b"@", first) else {
            return Ok(None);
        };
        nodes.push(NodeId(n))?;
        rest = others;
    }
    Ok(Some(NodeIds::new(nodes)))
}

// The node of this sort of a constructor alone.
fn lone_node(alloc: Global, sig: &Signature, s: SortId, expr: &Sexpr) -> Option<Node>
    requires inside { IsSort sig.now s }
    ensures value { result ≡ spec.lone_node sig.now s (expression_of expr.now) }
    ensures inside { IfSome result (IsDeclaredNode sig.now) }
{
    let c = constructor_at(sig, s, expr)?;
    Some(Node::Con(c, NodeIds::new(Vec::new(alloc))))
}

// The node of an element of this sort.
fn element_node(sig: &Signature, s: SortId, expr: &Sexpr) -> Option<Node>
    requires inside { IsSort sig.now s }
    ensures value { result ≡ spec.element_node sig.now s (expression_of expr.now) }
    ensures inside { IfSome result (IsDeclaredNode sig.now) }
{
    let number = element_in(sig, s, expr)?;
    Some(Node::Elem(s, number))
}

// The node of this sort of a constructor before references.
fn applied_node(
    alloc: Global,
    sig: &Signature,
    s: SortId,
    expr: &Sexpr,
) -> Result<Option<Node>, BackError>
    requires inside { IsSort sig.now s }
    ensures value { IfOk result (λ node. node ≡ option_and_then (spec.applied_node sig.now s) (option_and_then parts.first_of (parts.list_items (expression_of expr.now)))) }
    ensures inside { IfOk result (λ node. IfSome node (IsDeclaredNode sig.now)) }
{
    let Some((head, args)) = head_in(expr) else {
        return Ok(None);
    };
    let Some(c) = constructor_at(sig, s, head) else {
        return Ok(None);
    };
    match references_in(alloc, args)? {
        None => Ok(None),
        Some(children) => Ok(Some(Node::Con(c, children))),
    }
}

// The node of this sort that the expression says, whatever its children are.
fn node_at(
    alloc: Global,
    sig: &Signature,
    s: SortId,
    expr: &Sexpr,
) -> Result<Option<Node>, BackError>
    requires inside { IsSort sig.now s }
    ensures value { IfOk result (λ node. node ≡ spec.node_at sig.now s (expression_of expr.now)) }
    ensures inside { IfOk result (λ node. IfSome node (IsDeclaredNode sig.now)) }
{
    if let Some(node) = lone_node(alloc, sig, s, expr) {
        return Ok(Some(node));
    }
    if let Some(node) = element_node(sig, s, expr) {
        return Ok(Some(node));
    }
    applied_node(alloc, sig, s, expr)
}

// The node of this sort that the row number i says.
fn row_node(
    alloc: Global,
    sig: &Signature,
    s: SortId,
    i: u64,
    row: &Sexpr,
) -> Result<Option<Node>, BackError>
    requires inside { IsSort sig.now s }
    ensures value { IfOk result (λ node. node ≡ option_and_then (spec.node_at sig.now s) (spec.node_text i (expression_of row.now))) }
    ensures inside { IfOk result (λ node. IfSome node (IsDeclaredNode sig.now)) }
{
    match node_text(i, row) {
        None => Ok(None),
        Some(text) => node_at(alloc, sig, s, text),
    }
}

/// The node of this sort that the row with this number says.
pub(crate) fn said_at(
    alloc: Global,
    sig: &Signature,
    rows: &[Sexpr],
    i: usize,
    s: SortId,
) -> Result<Option<Node>, BackError>
    requires inside { IsSort sig.now s }
    ensures value { IfOk result (λ node. node ≡ said_at sig.now (expressions_of rows.now) i s) }
    ensures inside { IfOk result (λ node. IfSome node (IsDeclaredNode sig.now)) }
{
    match row_at(rows, i) {
        None => Ok(None),
        Some(row) => row_node(alloc, sig, s, i as u64, row),
    }
}

// The row with this number.
#[tactic(auto, using(crate::proofs::RowAtLemmas::nth_at, crate::proofs::RowAtLemmas::nth_past))]
fn row_at(rows: &[Sexpr], i: usize) -> Option<&Sexpr>
    ensures value { nth (expressions_of rows.now) i ≡ option_map (λ e. expression_of e.now) result }
{
    if i >= rows.len() {
        return None;
    }
    Some(&rows[i])
}

/// A sort that the row may have: that of the constructor that it names, where this is of no generic.
pub(crate) fn likely_sort(sig: &Signature, row: &Sexpr) -> Option<SortId>
    ensures inside { IfSome result (IsSort sig.now) }
{
    let (_, node) = two_in(row)?;
    let head = match head_in(node) {
        None => node,
        Some((head, _)) => head,
    };
    let name = name_in(head)?;
    match ctor_named(sig, name)? {
        NamedCtor::Plain(c) => Some(sig.ctor_sort(c)),
        NamedCtor::Generic(_, _) => None,
    }
}

/// A graph as it is read, and the sorts of the nodes that the root reaches.
#[derive(Debug, Drop)]
pub(crate) struct ReadGraph {
    pub(crate) graph: Graph,
    pub(crate) reached: Vec<Option<SortId>>,
}

/// The graph that the expression says, whose node 0 is of this sort.
pub(crate) fn graph_at(
    alloc: Global,
    sig: &Signature,
    s: SortId,
    expr: &Sexpr,
) -> Result<Option<ReadGraph>, BackError>
    requires inside { IsSort sig.now s }
    ensures graph { IfOk result (λ found. MatchOption found
        ((h : Nodes) → IsGraphAt sig.now s (expression_of expr.now) h → ⊥)
        (λ read. IsGraphAt sig.now s (expression_of expr.now) read.graph × IsUpperPart sig.now read.graph read.reached.items)) }
{
    prove!(sig.sorts() > 0);
    let Some(rows) = graph_rows(expr) else {
        return Ok(None);
    };
    let Some(reached) = sorts_below(alloc, sig, rows, s)? else {
        return Ok(None);
    };
    let Some(sorts) = some_sorts(alloc, sig, rows, &reached)? else {
        return Ok(None);
    };
    let graph = graph_of(alloc, sig, rows, &sorts)?;
    Ok(Some(ReadGraph { graph, reached }))
}

// The graph of the nodes that the rows say with these sorts.
fn graph_of(
    alloc: Global,
    sig: &Signature,
    rows: &[Sexpr],
    sorts: &[SortId],
) -> Result<Graph, BackError>
    requires sorts { (reached : List (Option SortId)) × AreSorts sig.now (expressions_of rows.now) reached sorts.now }
    ensures nodes { IfOk result (AreNodesSaid sig.now (expressions_of rows.now) sorts.now) }
{
    let mut nodes = Vec::with_capacity(alloc, sorts.len())?;
    for i in 0..sorts.len() {
        let Some(node) = said_at(alloc, sig, rows, i, sorts[i])? else {
            unreachable!();
        };
        nodes.push(node)?;
    }
    Ok(Graph::from_nodes(nodes))
}
