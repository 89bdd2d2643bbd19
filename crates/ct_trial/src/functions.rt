//! Tables for functions that are declared, and fewer where functions go.
ghost use Rattle.std.specs.Prelude.{◌≡◌, ◌≤◌, nat_lt, ℕ, List, ◌++◌, length, take, slice_get, Some, IfOk, OnOk};
ghost use Rattle.ct_sorts.specs.Declarations.{Function};
ghost use Rattle.ct_values.specs.Graph.{Nodes};
ghost use Rattle.ct_values.specs.Fitting.{HasNodeSort};
ghost use Rattle.ct_eval.specs.declared.interp.Table.{Table};
ghost use Rattle.ct_eval.specs.Index.{AreIndexed};
ghost use Rattle.ct_eval.specs.Interpretation.{FitsTable, HasFunctions};
ghost use Rattle.ct_trial.specs.Growth.{HaveNoRows};

use crate::error::TrialError;
use crate::supply::Supply;
use crate::tables::{add_table, cut_tables};
use ct_eval::{Index, RowKey, Tables};
use ct_sorts::{FunId, Signature, SortId};
use ct_values::{Graph, NodeId, has_sort};
use std::alloc::Global;

/// That no selector is declared that has no table.
pub(crate) fn have_selectors(sig: &Signature, offs: &Tables) -> Result<(), TrialError>
    ensures many { OnOk result (length sig.now.sels ≡ length offs.now) }
{
    let offs = offs.as_slice();
    if offs.len() == sig.mark().sels() as usize {
        return Ok(());
    }
    Err(TrialError::Exhausted)
}

/// Puts a table at the end for each function that has none.
pub(crate) fn add_tables(
    alloc: Global,
    sig: &Signature,
    graph: &Graph,
    supply: &Supply,
    funs: &mut Tables,
) -> Result<(), TrialError>
    requires few { length funs.old ≤ length sig.now.functions }
    requires fit { (f : ℕ) (function : Function) (table : Table) → slice_get sig.now.functions f ≡ Some function → slice_get funs.old f ≡ Some table
        → FitsTable sig.now graph.now function.args function.result table }
    ensures functions { OnOk result (HasFunctions sig.now graph.now funs.new) }
    ensures added { OnOk result ((added : List Table) × (funs.new ≡ funs.old ++ added) × HaveNoRows added) }
{
    let count = sig.funs();
    let first = funs.as_slice().len() as u32;
    for f in first..count {
        let default = sample(sig, graph, supply, sig.fun_result(FunId(f)))?;
        add_table(alloc, funs, default)?;
    }
    Ok(())
}

// A node of the sort.
fn sample(
    sig: &Signature,
    graph: &Graph,
    supply: &Supply,
    sort: SortId,
) -> Result<NodeId, TrialError>
    ensures sorted { IfOk result (λ n. HasNodeSort sig.now graph.now n sort) }
{
    let Some(n) = supply.sample(sort) else {
        return Err(TrialError::Exhausted);
    };
    if has_sort(sig, graph, n, sort) {
        return Ok(n);
    }
    Err(TrialError::Exhausted)
}

/// Leaves the tables of so many functions, and their rows in the map.
pub(crate) fn cut_functions(alloc: Global, count: u32, funs: &mut Tables, index: &mut Index)
    ensures tables { funs.new ≡ take count funs.old }
    ensures index { (g : Nodes) → AreIndexed g funs.old index.old → AreIndexed g funs.new index.new }
{
    if funs.as_slice().len() <= count as usize {
        return;
    }
    cut_tables(alloc, funs, count);
    cut_rows(index, count as u64);
}

// Leaves the rows of so many tables in the map.
fn cut_rows(index: &mut Index, count: u64)
    ensures cut { (g : Nodes) (tables : List Table) → AreIndexed g tables index.old → AreIndexed g (take count tables) index.new }
{
    index.retain(
        |key: &RowKey, node: &mut NodeId| -> bool
            ensures { (result ≡ nat_lt key.now.table count) × (node.new ≡ node.old) }
        { key.table < count },
    );
}
