//! Tables, row by row.
ghost use Rattle.std.specs.Prelude.{◌≡◌, ◌<◌, length, OnOk};
ghost use Rattle.ct_build.specs.Tables.{AddsRow, AddsFirst};
ghost use Rattle.ct_build.specs.Seen.{AreSeen};

use crate::error::BuildError;
use ct_eval::{Row, Rows, Table};
use ct_values::{NodeId, NodeIds};
use indexmap::IndexSet;
use std::alloc::Global;
use std::mem;

/// The table of a row, and its arguments.
#[derive(Debug, Drop, PartialEq, Eq, Hash)]
pub(crate) struct RowKey {
    table: u32,
    args: NodeIds,
}

/// Puts the row at the end of the table with this number, unless there was one for its arguments.
pub(crate) fn add_first(
    alloc: Global,
    seen: &mut IndexSet<RowKey>,
    tables: &mut Vec<Table>,
    number: u32,
    row: Row,
) -> Result<(), BuildError>
    requires within { number < length tables.old.items }
    requires seen { AreSeen seen.old tables.old.items }
    ensures seen { OnOk result (AreSeen seen.new tables.new.items) }
    ensures added { OnOk result (AddsFirst tables.old.items tables.new.items number row) }
{
    let args = NodeIds::from_slice(alloc, row.args.as_slice())?;
    let (_, new) = seen.insert_full(RowKey {
        table: number,
        args,
    })?;
    if new {
        add_row(alloc, tables, number, row)?;
    }
    Ok(())
}

// Puts the row at the end of the table with this number.
fn add_row(alloc: Global, tables: &mut Vec<Table>, number: u32, row: Row) -> Result<(), BuildError>
    requires within { number < length tables.old.items }
    ensures added { OnOk result (AddsRow tables.old.items tables.new.items number row) }
{
    let empty = Table {
        rows: Rows::new(Vec::new(alloc)),
        default: NodeId(0),
    };
    let table = mem::replace(&mut tables[number as usize], empty);
    let mut rows = table.rows.into_vec();
    make_room(&mut rows)?;
    rows.push(row)?;
    tables[number as usize] = Table {
        rows: Rows::new(rows),
        default: table.default,
    };
    Ok(())
}

// Makes room for the first row and no other: most tables are of constants, and an interpretation is kept.
fn make_room(rows: &mut Vec<Row>) -> Result<(), BuildError>
    ensures same { rows.new.items ≡ rows.old.items }
{
    if rows.is_empty() {
        rows.reserve_exact(1)?;
    }
    Ok(())
}
