//! Tables of functions.
ghost use Rattle.std.specs.Prelude.{◌≡◌, ℕ, ◌+◌, ◌<◌, [], length, Some, slice_get, IfOk, OnOk};
ghost use Rattle.ct_eval.specs.declared.interp.Table.{Table};
ghost use Rattle.ct_build.specs.Tables.{AreFunctionRows};
ghost use Rattle.ct_build.specs.Seen.{AreSeen};
ghost use Rattle.ct_values.specs.Graph.{Nodes};
ghost use Rattle.ct_terms.specs.Terms.{AreSorted};
ghost use Rattle.ct_eval.specs.Interpretation.{HasFunctions};
ghost use Rattle.ct_build.specs.OpenClasses.{AreOfAllSorts};
ghost use Rattle.ct_build.specs.Nodes.{HaveSortedNodes};

use crate::class_nodes::nodes_of;
use crate::error::BuildError;
use crate::rows::{RowKey, add_first};
use ct_eval::{Row, Rows, Table};
use ct_sorts::{FunId, Signature};
use ct_terms::{Core, TermId, TermTable};
use ct_values::{NodeId, NodeIds};
use indexmap::IndexSet;
use std::alloc::Global;

/// A table for each function: a row for each application, from the nodes of its arguments to its own, of those with one list of
/// arguments the first, and the default value of the result's sort.
pub(crate) fn function_tables(
    alloc: Global,
    sig: &Signature,
    table: &TermTable,
    nodes: &[NodeId],
    defaults: &[NodeId],
) -> Result<Vec<Table>, BuildError>
    requires sorted { AreSorted sig.now table.now }
    requires long { length nodes.now ≡ length table.now }
    requires defaults { length defaults.now ≡ length sig.now.sorts }
    ensures functions { IfOk result (λ tables. (g : Nodes)
        → AreOfAllSorts sig.now g defaults.now
        → HaveSortedNodes sig.now table.now g nodes.now
        → HasFunctions sig.now g tables.items) }
    ensures rows { IfOk result (λ tables. AreFunctionRows table.now nodes.now (length table.now) tables.items) }
{
    let mut tables = empty_tables(alloc, sig, defaults)?;
    let mut seen = IndexSet::new(alloc);
    for t in 0..table.len() {
        add_application(alloc, sig, table, nodes, &mut seen, &mut tables, TermId(t))?;
    }
    Ok(tables)
}

// A table for each function that has only a default value.
fn empty_tables(
    alloc: Global,
    sig: &Signature,
    defaults: &[NodeId],
) -> Result<Vec<Table>, BuildError>
    requires defaults { length defaults.now ≡ length sig.now.sorts }
    ensures functions { IfOk result (λ tables. (g : Nodes) → AreOfAllSorts sig.now g defaults.now → HasFunctions sig.now g tables.items) }
    ensures long { IfOk result (λ tables. length tables.items ≡ length sig.now.functions) }
    ensures empty { IfOk result (λ tables. (f : ℕ) (table : Table) → slice_get tables.items f ≡ Some table → table.rows ≡ []) }
{
    let mut tables = Vec::new(alloc);
    for f in 0..sig.funs() {
        let s = sig.fun_result(FunId(f));
        tables.push(Table {
            rows: Rows::new(Vec::new(alloc)),
            default: defaults[s.0 as usize],
        })?;
    }
    Ok(tables)
}

// Adds the row of the term, if it is the application of a function.
fn add_application(
    alloc: Global,
    sig: &Signature,
    table: &TermTable,
    nodes: &[NodeId],
    seen: &mut IndexSet<RowKey>,
    tables: &mut Vec<Table>,
    t: TermId,
) -> Result<(), BuildError>
    requires inside { t.0 < length table.now }
    requires sorted { AreSorted sig.now table.now }
    requires long { length nodes.now ≡ length table.now }
    requires one_each { length tables.old.items ≡ length sig.now.functions }
    requires seen { AreSeen seen.old tables.old.items }
    ensures one_each { OnOk result (length tables.new.items ≡ length sig.now.functions) }
    ensures functions { OnOk result ((g : Nodes)
        → HaveSortedNodes sig.now table.now g nodes.now
        → HasFunctions sig.now g tables.old.items
        → HasFunctions sig.now g tables.new.items) }
    ensures seen { OnOk result (AreSeen seen.new tables.new.items) }
    ensures rows { OnOk result (AreFunctionRows table.now nodes.now t.0 tables.old.items → AreFunctionRows table.now nodes.now (t.0 + 1) tables.new.items) }
{
    match table.core(t) {
        Core::Apply(f, args) => {
            let args = nodes_of(alloc, nodes, args.as_slice())?;
            let row = Row {
                args: NodeIds::new(args),
                result: nodes[t.0 as usize],
            };
            add_first(alloc, seen, tables, f.0, row)
        }
        _ => Ok(()),
    }
}
