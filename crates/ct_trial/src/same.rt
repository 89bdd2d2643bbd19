//! Makes an interpretation the same as another one, where most of it is the same already.
ghost use Rattle.std.specs.Prelude.{◌≡◌, ◌+◌, ◌++◌, ◌<◌, ◌≤◌, length, take, IsTrue, IfOk, OnOk};

use crate::error::TrialError;
use crate::graph::copied_node;
use crate::tables::{copied, copied_row, copied_table, make_room};
use ct_eval::{Interp, Row, Rows, Table, Tables};
use ct_values::{Graph, Head, Node, NodeId, have_children_below};
use std::alloc::Global;
use std::mem;

/// A copy of an interpretation, made of another one where there is one. It takes time for what differs, and one look at the rest.
pub(crate) fn copied_into(
    alloc: Global,
    spare: Option<Interp>,
    interp: &Interp,
) -> Result<Interp, TrialError>
    ensures value { IfOk result (λ copy. copy ≡ interp.now) }
{
    match spare {
        Some(old) => made_same(alloc, old, interp),
        None => copied(alloc, interp),
    }
}

// The interpretation, made the same as another one.
fn made_same(alloc: Global, old: Interp, interp: &Interp) -> Result<Interp, TrialError>
    ensures value { IfOk result (λ copy. copy ≡ interp.now) }
{
    let graph = same_graph(alloc, old.graph, &interp.graph)?;
    let funs = same_tables(alloc, old.funs.into_vec(), interp.funs.as_slice())?;
    let offs = same_tables(alloc, old.offs.into_vec(), interp.offs.as_slice())?;
    Ok(Interp {
        graph,
        funs: Tables::new(funs),
        offs: Tables::new(offs),
    })
}

// The graph, made the same as another one.
fn same_graph(alloc: Global, graph: Graph, wanted: &Graph) -> Result<Graph, TrialError>
    ensures value { IfOk result (λ same. same ≡ wanted.now) }
{
    let count = graph.len();
    if !begins(&graph, wanted) {
        return Ok(wanted.copy()?);
    }
    let rest = nodes_from(alloc, wanted, count)?;
    if !have_children_below(rest.as_slice(), wanted.len()) {
        return Ok(wanted.copy()?);
    }
    let mut longer = graph;
    longer.append(rest)?;
    Ok(longer)
}

// Whether the second graph begins with the nodes of the first one.
fn begins(graph: &Graph, longer: &Graph) -> bool
    ensures within { IsTrue result → length graph.now ≤ length longer.now }
    ensures begins { IsTrue result → take (length graph.now) longer.now ≡ graph.now }
{
    if longer.len() < graph.len() {
        return false;
    }
    let mut n = 0;
    while n < graph.len() {
        if !is_next_node(graph, longer, NodeId(n)) {
            return false;
        }
        n += 1;
    }
    true
}

// Whether both graphs have the same node with this number.
fn is_next_node(graph: &Graph, other: &Graph, n: NodeId) -> bool
    requires within { n.0 < length graph.now }
    requires there { n.0 < length other.now }
    ensures same { IsTrue result → take n.0 graph.now ≡ take n.0 other.now → take (n.0 + 1) graph.now ≡ take (n.0 + 1) other.now }
{
    is_head(graph.head(n), other.head(n)) && are_nodes(graph.children(n), other.children(n))
}

// Whether the heads are the same.
fn is_head(head: Head, other: Head) -> bool
    ensures same { IsTrue result → head ≡ other }
{
    match (head, other) {
        (Head::Con(c), Head::Con(d)) => c == d,
        (Head::Elem(s, n), Head::Elem(r, k)) => s == r && n == k,
        _ => false,
    }
}

// Whether the lists are the same.
fn are_nodes(nodes: &[NodeId], others: &[NodeId]) -> bool
    ensures same { IsTrue result → nodes.now ≡ others.now }
{
    let same = *nodes == *others;
    same
}

// The nodes of the graph from this number on.
fn nodes_from(alloc: Global, graph: &Graph, first: u64) -> Result<Vec<Node>, TrialError>
    requires within { first ≤ length graph.now }
    ensures rest { IfOk result (λ nodes. graph.now ≡ take first graph.now ++ nodes.items) }
{
    let mut nodes = Vec::new(alloc);
    let mut n = first;
    while n < graph.len() {
        let node = copied_node(alloc, graph, NodeId(n))?;
        nodes.push(node)?;
        n += 1;
    }
    Ok(nodes)
}

// The tables, made the same as others.
fn same_tables(
    alloc: Global,
    tables: Vec<Table>,
    wanted: &[Table],
) -> Result<Vec<Table>, TrialError>
    ensures value { IfOk result (λ same. same.items ≡ wanted.now) }
{
    let mut same = tables;
    same.truncate(wanted.len());
    make_tables(alloc, &mut same, wanted)?;
    while same.len() < wanted.len() {
        push_table(alloc, &mut same, wanted)?;
    }
    Ok(same)
}

// Makes the tables the same as the first ones of others.
fn make_tables(alloc: Global, tables: &mut Vec<Table>, wanted: &[Table]) -> Result<(), TrialError>
    requires within { length tables.old.items ≤ length wanted.now }
    ensures made { OnOk result (tables.new.items ≡ take (length tables.new.items) wanted.now) }
    ensures long { OnOk result (length tables.new.items ≡ length tables.old.items) }
{
    let mut count = 0;
    while count < tables.len() {
        make_next(alloc, tables, wanted, count)?;
        count += 1;
    }
    Ok(())
}

// Makes the table at this index that of the others.
fn make_next(
    alloc: Global,
    tables: &mut Vec<Table>,
    wanted: &[Table],
    index: usize,
) -> Result<(), TrialError>
    requires within { index < length tables.old.items }
    requires there { index < length wanted.now }
    ensures long { OnOk result (length tables.new.items ≡ length tables.old.items) }
    ensures next { OnOk result (take index tables.old.items ≡ take index wanted.now → take (index + 1) tables.new.items ≡ take (index + 1) wanted.now) }
{
    let empty = Table {
        rows: Rows::new(Vec::new(alloc)),
        default: NodeId(0),
    };
    let old = mem::replace(&mut tables[index], empty);
    let rows = same_rows(alloc, old.rows.into_vec(), wanted[index].rows.as_slice())?;
    tables[index] = Table {
        rows: Rows::new(rows),
        default: wanted[index].default,
    };
    Ok(())
}

// Appends a copy of the next one of other tables.
fn push_table(alloc: Global, tables: &mut Vec<Table>, wanted: &[Table]) -> Result<(), TrialError>
    requires more { length tables.old.items < length wanted.now }
    ensures begun { OnOk result (tables.old.items ≡ take (length tables.old.items) wanted.now → tables.new.items ≡ take (length tables.new.items) wanted.now) }
    ensures one { OnOk result (length tables.new.items ≡ length tables.old.items + 1) }
{
    let next = copied_table(alloc, &wanted[tables.len()])?;
    tables.push(next)?;
    Ok(())
}

// The rows, made the same as others.
fn same_rows(alloc: Global, rows: Vec<Row>, wanted: &[Row]) -> Result<Vec<Row>, TrialError>
    ensures value { IfOk result (λ same. same.items ≡ wanted.now) }
{
    let count = common_rows(rows.as_slice(), wanted);
    let mut same = rows;
    same.truncate(count);
    while same.len() < wanted.len() {
        push_row(alloc, &mut same, wanted)?;
    }
    Ok(same)
}

// Appends a copy of the next one of other rows.
fn push_row(alloc: Global, rows: &mut Vec<Row>, wanted: &[Row]) -> Result<(), TrialError>
    requires more { length rows.old.items < length wanted.now }
    ensures begun { OnOk result (rows.old.items ≡ take (length rows.old.items) wanted.now → rows.new.items ≡ take (length rows.new.items) wanted.now) }
    ensures one { OnOk result (length rows.new.items ≡ length rows.old.items + 1) }
{
    let next = copied_row(alloc, &wanted[rows.len()])?;
    make_room(rows)?;
    rows.push(next)?;
    Ok(())
}

// How many first rows are the same.
fn common_rows(rows: &[Row], others: &[Row]) -> usize
    ensures within { result ≤ length rows.now }
    ensures there { result ≤ length others.now }
    ensures same { take result rows.now ≡ take result others.now }
{
    let mut count = 0;
    while count < rows.len() && count < others.len() {
        if !is_next_row(rows, others, count) {
            return count;
        }
        count += 1;
    }
    count
}

// Whether both lists have the same row at this index.
fn is_next_row(rows: &[Row], others: &[Row], index: usize) -> bool
    requires within { index < length rows.now }
    requires there { index < length others.now }
    ensures same { IsTrue result → take index rows.now ≡ take index others.now → take (index + 1) rows.now ≡ take (index + 1) others.now }
{
    is_row(&rows[index], &others[index])
}

// Whether the rows are the same.
fn is_row(row: &Row, other: &Row) -> bool
    ensures same { IsTrue result → row.now ≡ other.now }
{
    row.result == other.result && are_nodes(row.args.as_slice(), other.args.as_slice())
}
