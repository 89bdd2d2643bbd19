//! Tables of functions and selectors: one more, one more row, fewer, and copies.
ghost use Rattle.std.specs.Prelude.{◌≡◌, ◌<◌, [], ◌∷◌, ◌++◌, length, take, slice_get, Some, IfOk, OnOk};
ghost use Rattle.ct_eval.specs.declared.interp.Table.{Table};
ghost use Rattle.ct_trial.specs.Growth.{constant, AddsRow};

use crate::error::TrialError;
use ct_eval::{Interp, Row, Rows, Table, Tables};
use ct_values::{NodeId, NodeIds};
use std::alloc::Global;
use std::mem;

/// Puts a table without rows at the end.
pub(crate) fn add_table(
    alloc: Global,
    tables: &mut Tables,
    default: NodeId,
) -> Result<(), TrialError>
    ensures added { OnOk result (tables.new ≡ tables.old ++ constant default ∷ []) }
{
    let mut all = taken(alloc, tables);
    all.push(Table {
        rows: Rows::new(Vec::new(alloc)),
        default,
    })?;
    *tables = Tables::new(all);
    Ok(())
}

/// Puts a row at the end of the table with this number.
pub(crate) fn add_row(
    alloc: Global,
    tables: &mut Tables,
    number: u32,
    row: Row,
) -> Result<(), TrialError>
    requires within { number < length tables.old }
    ensures added { OnOk result (AddsRow tables.old tables.new number row) }
{
    let mut all = taken(alloc, tables);
    put_row(alloc, &mut all, number, row)?;
    *tables = Tables::new(all);
    Ok(())
}

/// Leaves so many tables.
pub(crate) fn cut_tables(alloc: Global, tables: &mut Tables, count: u32)
    ensures cut { tables.new ≡ take count tables.old }
{
    let mut all = taken(alloc, tables);
    all.truncate(count as usize);
    *tables = Tables::new(all);
}

/// What the table with this number gives where no row does.
pub(crate) fn default_of(tables: &Tables, number: u32) -> NodeId
    requires within { number < length tables.now }
    ensures value { (table : Table) → slice_get tables.now number ≡ Some table → result ≡ table.default }
{
    tables.as_slice()[number as usize].default
}

// The tables as a vector. None are left.
fn taken(alloc: Global, tables: &mut Tables) -> Vec<Table>
    ensures all { result.items ≡ tables.old }
{
    mem::replace(tables, Tables::new(Vec::new(alloc))).into_vec()
}

// Puts a row at the end of a table.
fn put_row(alloc: Global, tables: &mut Vec<Table>, number: u32, row: Row) -> Result<(), TrialError>
    requires within { number < length tables.old.items }
    ensures added { OnOk result (AddsRow tables.old.items tables.new.items number row) }
{
    let empty = Table {
        rows: Rows::new(Vec::new(alloc)),
        default: NodeId(0),
    };
    let table = mem::replace(&mut tables[number as usize], empty);
    let mut rows = table.rows.into_vec();
    make_room(&mut rows)?;
    rows.push(row)?;
    tables[number as usize] = Table {
        rows: Rows::new(rows),
        default: table.default,
    };
    Ok(())
}

/// Makes room for the first row and no other: most tables are of constants.
pub(crate) fn make_room(rows: &mut Vec<Row>) -> Result<(), TrialError>
    ensures same { rows.new.items ≡ rows.old.items }
{
    if rows.is_empty() {
        rows.reserve_exact(1)?;
    }
    Ok(())
}

/// A copy of an interpretation.
pub fn copied(alloc: Global, interp: &Interp) -> Result<Interp, TrialError>
    ensures value { IfOk result (λ copy. copy ≡ interp.now) }
{
    Ok(Interp {
        graph: interp.graph.copy()?,
        funs: Tables::new(copied_tables(alloc, interp.funs.as_slice())?),
        offs: Tables::new(copied_tables(alloc, interp.offs.as_slice())?),
    })
}

// A copy of tables.
fn copied_tables(alloc: Global, tables: &[Table]) -> Result<Vec<Table>, TrialError>
    ensures value { IfOk result (λ copies. copies.items ≡ tables.now) }
{
    let mut copies = Vec::with_capacity(alloc, tables.len())?;
    for table in tables {
        copies.push(copied_table(alloc, table)?)?;
    }
    Ok(copies)
}

/// A copy of a table.
pub(crate) fn copied_table(alloc: Global, table: &Table) -> Result<Table, TrialError>
    ensures value { IfOk result (λ copy. copy ≡ table.now) }
{
    Ok(Table {
        rows: Rows::new(copied_rows(alloc, table.rows.as_slice())?),
        default: table.default,
    })
}

// A copy of rows.
fn copied_rows(alloc: Global, rows: &[Row]) -> Result<Vec<Row>, TrialError>
    ensures value { IfOk result (λ copies. copies.items ≡ rows.now) }
{
    let mut copies = Vec::with_capacity(alloc, rows.len())?;
    for row in rows {
        copies.push(copied_row(alloc, row)?)?;
    }
    Ok(copies)
}

/// A copy of a row.
pub(crate) fn copied_row(alloc: Global, row: &Row) -> Result<Row, TrialError>
    ensures value { IfOk result (λ copy. copy ≡ row.now) }
{
    Ok(Row {
        args: NodeIds::from_slice(alloc, row.args.as_slice())?,
        result: row.result,
    })
}
