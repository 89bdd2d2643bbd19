//! Tables with few rows: the most frequent result is the default, and rows of one result stand together.
ghost use Rattle.std.specs.Prelude.{IfOk, IfSome};
ghost use Rattle.ct_eval.specs.Interpretation.{IsProper};

use crate::error::BuildError;
use ct_eval::{Interp, Row, Rows, Table, Tables, is_proper};
use ct_sorts::Signature;
use ct_values::{NodeId, NodeIds};
use indexmap::IndexMap;
use std::alloc::Global;

/// A well-formed interpretation over the same graph in whose tables the most frequent result is the default, no row repeats it, and rows of
/// one result stand together. Nothing says that terms have their values in it: whoever asks for it looks whether the assertions hold. The
/// only error is out of memory.
pub fn compact(
    alloc: Global,
    sig: &Signature,
    interp: &Interp,
) -> Result<Option<Interp>, BuildError>
    ensures proper { IfOk result (λ found. IfSome found (IsProper sig.now)) }
{
    let funs = compact_tables(alloc, interp.funs.as_slice())?;
    let offs = compact_tables(alloc, interp.offs.as_slice())?;
    let graph = interp.graph.copy()?;
    if_proper(
        sig,
        Interp {
            graph,
            funs: Tables::new(funs),
            offs: Tables::new(offs),
        },
    )
}

/// The interpretation, if it is well formed.
pub(crate) fn if_proper(sig: &Signature, interp: Interp) -> Result<Option<Interp>, BuildError>
    ensures proper { IfOk result (λ found. IfSome found (IsProper sig.now)) }
{
    if is_proper(sig, &interp) {
        return Ok(Some(interp));
    }
    drop(interp);
    Ok(None)
}

/// For each table one whose default is the most frequent of its results, without the rows of this result, and with the other rows in groups
/// of one result.
pub(crate) fn compact_tables(alloc: Global, tables: &[Table]) -> Result<Vec<Table>, BuildError> {
    let mut list = Vec::with_capacity(alloc, tables.len())?;
    for table in tables {
        list.push(compact_table(alloc, table)?)?;
    }
    Ok(list)
}

// The table whose default is the most frequent result of the rows, without the rows of this result, and with the others in groups of
// one result.
fn compact_table(alloc: Global, table: &Table) -> Result<Table, BuildError> {
    let rows = table.rows.as_slice();
    let mut places = IndexMap::new(alloc);
    let mut groups = Vec::new(alloc);
    for r in 0..rows.len() {
        add_to_group(alloc, rows[r].result, r, &mut places, &mut groups)?;
    }
    drop(places);
    let most = largest(&groups);
    let mut left = Vec::new(alloc);
    for g in 0..groups.len() {
        if g != most {
            copy_rows(alloc, rows, &groups[g], &mut left)?;
        }
    }
    let default = result_at(rows, &groups, most).unwrap_or(table.default);
    drop(groups);
    Ok(Table {
        rows: Rows::new(left),
        default,
    })
}

// Adds the number of a row to the group of its result.
fn add_to_group(
    alloc: Global,
    value: NodeId,
    row: usize,
    places: &mut IndexMap<NodeId, usize>,
    groups: &mut Vec<Vec<usize>>,
) -> Result<(), BuildError> {
    let place = match places.get(&value).copied() {
        Some(place) => place,
        None => {
            let place = groups.len();
            groups.push(Vec::new(alloc))?;
            places.insert(value, place)?;
            place
        }
    };
    if place < groups.len() {
        groups[place].push(row)?;
    }
    Ok(())
}

// The first of the groups with the most rows.
fn largest(groups: &[Vec<usize>]) -> usize {
    let mut most = 0;
    let mut count = 0;
    for g in 0..groups.len() {
        if groups[g].len() > count {
            most = g;
            count = groups[g].len();
        }
    }
    most
}

// The result of the first row of a group.
fn result_at(rows: &[Row], groups: &[Vec<usize>], group: usize) -> Option<NodeId> {
    if group >= groups.len() {
        return None;
    }
    let first = groups[group].first().copied()?;
    if first >= rows.len() {
        return None;
    }
    Some(rows[first].result)
}

// Puts copies of the rows with these numbers after the list.
fn copy_rows(
    alloc: Global,
    rows: &[Row],
    numbers: &[usize],
    list: &mut Vec<Row>,
) -> Result<(), BuildError> {
    for r in numbers {
        if *r < rows.len() {
            let args = NodeIds::from_slice(alloc, rows[*r].args.as_slice())?;
            list.push(Row {
                args,
                result: rows[*r].result,
            })?;
        }
    }
    Ok(())
}
