//! The body of a function as a choice by the rows of its table.
ghost use Rattle.std.specs.Prelude.{◌≡◌, ℕ, suc, ◌+◌, ◌<◌, ◌^◌, true, false, List, ◌∷◌, ◌++◌, length, slice_get, All, IfOk, OnOk};
ghost use Rattle.std.specs.List.{AllZip};
ghost use Rattle.ct_values.specs.Fitting.{FitsGraph};
ghost use Rattle.ct_value_text.specs.ValueText.{IsValueText};
ghost use Rattle.ct_model.specs.Within.{IsNode, IsRowWithin, IsTableWithin};
ghost use Rattle.ct_model.specs.Listed.{spaced};
ghost use Rattle.ct_model.specs.Opening as spec;
ghost use Rattle.ct_model.specs.TableText.{equation, equations, conjunction, constant, RowTexts, row_test, AreRowTexts, AreJoined, have_one_result, IsChoiceText, IsBodyText};

use crate::error::ModelError;
use crate::words::{write_parameter, write_value};
use ct_eval::{Row, Table};
use ct_sorts::{Signature, SortId};
use ct_values::{Graph, NodeId};
use std::alloc::Global;

// Writes that the parameter is the value at the node, as `(= @x3 v)`.
fn write_equation(
    alloc: Global,
    sig: &Signature,
    graph: &Graph,
    number: usize,
    n: NodeId,
    out: &mut Vec<u8>,
) -> Result<(), ModelError>
    requires within { IsNode graph.now n }
    requires fits { FitsGraph sig.now graph.now }
    ensures ok { OnOk result ((text : List ℕ) × IsValueText sig.now graph.now n text
        × (out.new.items ≡ out.old.items ++ equation number text)) }
{
    out.extend_from_slice(b"(= ")?;
    write_parameter(alloc, number, out)?;
    out.push(b' ')?;
    write_value(alloc, sig, graph, n, out)?;
    Ok(out.push(b')')?)
}

// Writes that the parameters are the values at the nodes, each equation after a space.
fn write_equations(
    alloc: Global,
    sig: &Signature,
    graph: &Graph,
    nodes: &[NodeId],
    out: &mut Vec<u8>,
) -> Result<(), ModelError>
    requires within { All (IsNode graph.now) nodes.now }
    requires fits { FitsGraph sig.now graph.now }
    ensures ok { OnOk result ((texts : List (List ℕ)) × AllZip (IsValueText sig.now graph.now) nodes.now texts
        × (out.new.items ≡ out.old.items ++ spaced (equations 0 texts))) }
{
    for number in 0..nodes.len() {
        out.push(b' ')?;
        write_equation(alloc, sig, graph, number, nodes[number], out)?;
    }
    Ok(())
}

// Writes the test of a row with these arguments: one equation alone, and more as `(and ..)`.
fn write_test(
    alloc: Global,
    sig: &Signature,
    graph: &Graph,
    nodes: &[NodeId],
    out: &mut Vec<u8>,
) -> Result<(), ModelError>
    requires within { All (IsNode graph.now) nodes.now }
    requires fits { FitsGraph sig.now graph.now }
    ensures ok { OnOk result ((texts : List (List ℕ)) × AllZip (IsValueText sig.now graph.now) nodes.now texts
        × (out.new.items ≡ out.old.items ++ conjunction (equations 0 texts))) }
{
    if nodes.len() == 1 {
        return write_equation(alloc, sig, graph, 0, nodes[0], out);
    }
    out.extend_from_slice(b"(and")?;
    write_equations(alloc, sig, graph, nodes, out)?;
    Ok(out.push(b')')?)
}

// Writes what stands before the test of a row, the first of its group or not, and of the group of the next row or not.
fn write_before(first: bool, joins: bool, out: &mut Vec<u8>) -> Result<(), ModelError>
    ensures ok { OnOk result (out.new.items ≡ out.old.items ++ spec.before_test first joins) }
{
    match (first, joins) {
        (true, true) => Ok(out.extend_from_slice(b"(ite (or ")?),
        (true, false) => Ok(out.extend_from_slice(b"(ite ")?),
        (false, _) => Ok(out.push(b' ')?),
    }
}

// Writes what stands after the test of a row: where its group ends, the result.
fn write_after(
    alloc: Global,
    sig: &Signature,
    graph: &Graph,
    first: bool,
    joins: bool,
    n: NodeId,
    out: &mut Vec<u8>,
) -> Result<(), ModelError>
    requires within { IsNode graph.now n }
    requires fits { FitsGraph sig.now graph.now }
    ensures ok { OnOk result ((text : List ℕ) × (joins ≡ false → IsValueText sig.now graph.now n text)
        × (out.new.items ≡ out.old.items ++ spec.after_test first joins text)) }
{
    if joins {
        return Ok(());
    }
    if !first {
        out.push(b')')?;
    }
    out.push(b' ')?;
    write_value(alloc, sig, graph, n, out)?;
    Ok(out.push(b' ')?)
}

// Writes what stands of a row before the rest.
fn write_opening(
    alloc: Global,
    sig: &Signature,
    graph: &Graph,
    row: &Row,
    first: bool,
    joins: bool,
    out: &mut Vec<u8>,
) -> Result<(), ModelError>
    requires within { IsRowWithin graph.now row.now }
    requires fits { FitsGraph sig.now graph.now }
    ensures ok { OnOk result ((texts : RowTexts) × AreRowTexts sig.now graph.now row.now texts × (texts.joins ≡ joins)
        × (out.new.items ≡ out.old.items ++ spec.opening first joins (row_test texts) texts.result)) }
{
    write_before(first, joins, out)?;
    write_test(alloc, sig, graph, row.args.as_slice(), out)?;
    write_after(alloc, sig, graph, first, joins, row.result, out)
}

// Whether the row with this number has the result of the next.
fn joins_next(rows: &[Row], r: usize) -> bool
    requires within { r < length rows.now }
    ensures room { r + 1 < 2 ^ 64 }
    ensures value { result ≡ have_one_result (slice_get rows.now r) (slice_get rows.now (suc r)) }
{
    if r + 1 == rows.len() {
        return false;
    }
    rows[r].result.0 == rows[r + 1].result.0
}

// Writes the openings of all rows: how many groups they are in.
fn write_openings(
    alloc: Global,
    sig: &Signature,
    graph: &Graph,
    rows: &[Row],
    out: &mut Vec<u8>,
) -> Result<usize, ModelError>
    requires within { All (IsRowWithin graph.now) rows.now }
    requires fits { FitsGraph sig.now graph.now }
    ensures ok { IfOk result (λ count. (texts : List RowTexts) × AllZip (AreRowTexts sig.now graph.now) rows.now texts × AreJoined rows.now texts
        × (count ≡ spec.ends texts) × (out.new.items ≡ out.old.items ++ spec.openings true texts)) }
{
    let mut first = true;
    let mut count = 0;
    for r in 0..rows.len() {
        let joins = joins_next(rows, r);
        write_opening(alloc, sig, graph, &rows[r], first, joins, out)?;
        first = !joins;
        count = with_end(joins, count);
    }
    Ok(count)
}

// How many groups have ended, of so many before, with a row that stands together with the next or not.
fn with_end(joins: bool, count: usize) -> usize
    requires room { count + 1 < 2 ^ 64 }
    ensures value { result ≡ count + spec.ended joins 0 }
{
    if joins {
        return count;
    }
    count + 1
}

// Writes so many closing parentheses.
fn write_closings(count: usize, out: &mut Vec<u8>) -> Result<(), ModelError>
    ensures ok { OnOk result (out.new.items ≡ out.old.items ++ spec.closings count) }
{
    for _ in 0..count {
        out.push(b')')?;
    }
    Ok(())
}

// Writes the choice by the table's rows.
fn write_choice(
    alloc: Global,
    sig: &Signature,
    graph: &Graph,
    table: &Table,
    out: &mut Vec<u8>,
) -> Result<(), ModelError>
    requires within { IsTableWithin graph.now table.now }
    requires fits { FitsGraph sig.now graph.now }
    ensures ok { OnOk result ((text : List ℕ) × IsChoiceText sig.now graph.now table.now text
        × (out.new.items ≡ out.old.items ++ text)) }
{
    let rows = table.rows.as_slice();
    let count = write_openings(alloc, sig, graph, rows, out)?;
    write_value(alloc, sig, graph, table.default, out)?;
    write_closings(count, out)
}

// What a table without arguments gives.
fn constant(table: &Table) -> NodeId
    ensures value { result ≡ constant table.now.rows table.now.default }
{
    match table.rows.as_slice() {
        [] => table.default,
        [row, ..] => row.result,
    }
}

/// Writes the body of a table whose arguments are of these sorts.
pub(crate) fn write_body(
    alloc: Global,
    sig: &Signature,
    graph: &Graph,
    sorts: &[SortId],
    table: &Table,
    out: &mut Vec<u8>,
) -> Result<(), ModelError>
    requires within { IsTableWithin graph.now table.now }
    requires fits { FitsGraph sig.now graph.now }
    ensures ok { OnOk result ((text : List ℕ) × IsBodyText sig.now graph.now sorts.now table.now text
        × (out.new.items ≡ out.old.items ++ text)) }
{
    if sorts.is_empty() {
        return write_value(alloc, sig, graph, constant(table), out);
    }
    write_choice(alloc, sig, graph, table, out)
}
