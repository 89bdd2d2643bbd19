//! The rows of all tables in one map, so that a table costs one look-up.
//!
//! A row is found by its table and the representatives of its arguments. Of the rows with one key
//! the first stays.
ghost use Rattle.std.specs.Prelude.{◌≡◌, ◌<◌, ◌≤◌, ◌⊎◌, ℕ, List, [], ◌∷◌, ◌++◌, length, All, Some, None, slice_get, IfOk, OnOk};
ghost use Rattle.indexmap.specs.IndexMap.{get};
ghost use Rattle.ct_values.specs.declared.node.NodeId.{NodeId};
ghost use Rattle.ct_values.specs.Value.{Value};
ghost use Rattle.ct_values.specs.Graph.{Nodes};
ghost use Rattle.ct_eval.specs.declared.index.RowKey.{RowKey};
ghost use Rattle.ct_eval.specs.declared.interp.Row.{Row};
ghost use Rattle.ct_eval.specs.declared.interp.Table.{Table};
ghost use Rattle.ct_eval.specs.Index.{IsIndex, KeepsRows, AreIndexed, AreRepresentatives, AreRepresentativeNodes, row_key, same_row_key};
ghost use Rattle.ct_eval.specs.LookUp.{look_up};
ghost use Rattle.ct_eval.specs.Valued.{IsLonger};

use crate::error::EvalError;
use crate::interp::{Row, Table};
use ct_values::{NodeId, NodeIds, SharedGraph, agreement, representative_nodes};
use indexmap::IndexMap;
use std::alloc::Global;

/// The table of a row, and the representatives of its arguments.
#[derive(Debug, Drop, PartialEq, Eq, Hash)]
pub struct RowKey {
    /// The number of the table.
    pub table: u64,
    /// The representatives of the arguments, in order.
    pub args: NodeIds,
}

/// The results of rows, by their keys.
pub type Index = IndexMap<RowKey, NodeId>;

/// The first row of each key, of all the tables.
pub fn indexed(alloc: Global, shared: &SharedGraph, tables: &[Table]) -> Result<Index, EvalError>
    requires within { (t : ℕ) (table : Table) (r : ℕ) (row : Row)
        → slice_get tables.now t ≡ Some table
        → slice_get table.rows r ≡ Some row
        → All (λ n. n.0 < length shared.now) row.args }
    ensures index { IfOk result (AreIndexed shared.now tables.now) }
{
    let mut index = IndexMap::new(alloc);
    for t in 0..tables.len() {
        index_rows(
            alloc,
            shared,
            t as u64,
            tables[t].rows.as_slice(),
            &mut index,
        )?;
    }
    Ok(index)
}

/// What the table with this number gives for arguments, which are representatives.
pub(crate) fn found(index: &Index, number: u64, table: &Table, args: NodeIds) -> NodeId
    ensures value { (g longer : Nodes) (values : List Value) (tables : List Table)
        → IsIndex g tables index.now
        → slice_get tables number ≡ Some table.now
        → IsLonger g longer
        → AreRepresentatives g longer args values
        → result ≡ look_up g table.now values }
{
    let key = RowKey {
        table: number,
        args,
    };
    known(index, &key).unwrap_or(table.default)
}

// Puts the rows of a table into the map, which has none of that table yet.
fn index_rows(
    alloc: Global,
    shared: &SharedGraph,
    number: u64,
    rows: &[Row],
    index: &mut Index,
) -> Result<(), EvalError>
    requires within { (r : ℕ) (row : Row) → slice_get rows.now r ≡ Some row → All (λ n. n.0 < length shared.now) row.args }
    ensures rows { OnOk result (KeepsRows shared.now number [] index.old → KeepsRows shared.now number rows.now index.new) }
    ensures others { OnOk result ((other : ℕ) (args : List NodeId)
        → (other ≡ number → ⊥)
        → get same_row_key index.new (row_key other args) ≡ get same_row_key index.old (row_key other args)) }
{
    for row in rows {
        index_row(alloc, shared, number, row, index)?;
    }
    Ok(())
}

// Puts one more row of a table into the map, unless an earlier row has its key.
fn index_row(
    alloc: Global,
    shared: &SharedGraph,
    number: u64,
    row: &Row,
    index: &mut Index,
) -> Result<(), EvalError>
    requires within { All (λ n. n.0 < length shared.now) row.now.args }
    ensures added { OnOk result ((rows : List Row)
        → KeepsRows shared.now number rows index.old
        → KeepsRows shared.now number (rows ++ row.now ∷ []) index.new) }
    ensures others { OnOk result ((other : ℕ) (args : List NodeId)
        → (other ≡ number → ⊥)
        → get same_row_key index.new (row_key other args) ≡ get same_row_key index.old (row_key other args)) }
{
    // The theorems on representatives ask for a closed graph: the look-up of the graph says that it
    // is.
    shared.graph();
    agreement();
    representative_nodes();
    let key = RowKey {
        table: number,
        args: NodeIds::new(representatives(alloc, shared, row.args.as_slice())?),
    };
    insert_row(index, key, row.result)?;
    Ok(())
}

// The representatives of these nodes.
fn representatives(
    alloc: Global,
    shared: &SharedGraph,
    nodes: &[NodeId],
) -> Result<Vec<NodeId>, EvalError>
    requires within { All (λ n. n.0 < length shared.now) nodes.now }
    ensures first { IfOk result (λ list. AreRepresentativeNodes shared.now list.items nodes.now) }
{
    let mut list = Vec::with_capacity(alloc, nodes.len())?;
    for n in nodes {
        list.push(shared.first(*n))?;
    }
    Ok(list)
}

/// Puts a result under a key, unless there is one.
pub fn insert_row(index: &mut Index, key: RowKey, node: NodeId) -> Result<(), EvalError>
    ensures stay { OnOk result ((k : RowKey) (n : NodeId)
        → get same_row_key index.old k ≡ Some n
        → get same_row_key index.new k ≡ Some n) }
    ensures added { OnOk result (get same_row_key index.old key ≡ None → get same_row_key index.new key ≡ Some node) }
    ensures only { OnOk result ((k : RowKey) (n : NodeId)
        → get same_row_key index.new k ≡ Some n
        → (get same_row_key index.old k ≡ Some n) ⊎ ((k ≡ key) × (n ≡ node))) }
{
    match known(index, &key) {
        Some(_) => Ok(()),
        None => {
            index.insert(key, node)?;
            Ok(())
        }
    }
}

/// What the map has under a key.
pub fn known(index: &Index, key: &RowKey) -> Option<NodeId>
    ensures value { result ≡ get same_row_key index.now key.now }
{
    index.get(key).copied()
}
