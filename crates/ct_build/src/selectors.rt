//! Tables of selectors for wrong applications.
ghost use Rattle.std.specs.Prelude.{◌≡◌, ℕ, ◌+◌, ◌<◌, List, [], length, Some, slice_get, IfOk, OnOk, MatchBool};
ghost use Rattle.ct_terms.specs.declared.ids.TermId.{TermId};
ghost use Rattle.ct_congr.specs.State.{IsQuiet};
ghost use Rattle.ct_eval.specs.declared.interp.Table.{Table};
ghost use Rattle.ct_build.specs.ClassValues.{IsBuiltBy};
ghost use Rattle.ct_build.specs.Tables.{AreSelectorRows};
ghost use Rattle.ct_build.specs.Seen.{AreSeen};
ghost use Rattle.ct_sorts.specs.Declarations.{IsSelector};
ghost use Rattle.ct_values.specs.Graph.{Nodes};
ghost use Rattle.ct_terms.specs.Terms.{Has};
ghost use Rattle.ct_terms.specs.declared.term.Core.TheVariants as Core;
ghost use Rattle.ct_eval.specs.Interpretation.{HasSelectors};
ghost use Rattle.ct_build.specs.OpenClasses.{AreOfAllSorts};
ghost use Rattle.ct_build.specs.Nodes.{HaveSortedNodes};

use crate::error::BuildError;
use crate::rows::{RowKey, add_first};
use ct_congr::Classes;
use ct_eval::{Row, Rows, Table};
use ct_sorts::{CtorId, SelId, Signature};
use ct_terms::{Core, TermId};
use ct_values::{NodeId, NodeIds};
use indexmap::IndexSet;
use std::alloc::Global;

/// A table for each selector: a row for each selection from a class of another constructor, from the node of that class to
/// the node of the selection, of those with one argument the first, and the default value of the field's sort.
pub(crate) fn selector_tables(
    alloc: Global,
    classes: &Classes,
    nodes: &[NodeId],
    defaults: &[NodeId],
) -> Result<Vec<Table>, BuildError>
    requires quiet { IsQuiet classes.now }
    requires long { length nodes.now ≡ length classes.now.terms }
    requires defaults { length defaults.now ≡ length classes.now.declarations.sorts }
    ensures selectors { IfOk result (λ tables. (g : Nodes)
        → AreOfAllSorts classes.now.declarations g defaults.now
        → HaveSortedNodes classes.now.declarations classes.now.terms g nodes.now
        → HasSelectors classes.now.declarations g tables.items) }
    ensures rows { IfOk result (λ tables. AreSelectorRows classes.now nodes.now (length classes.now.terms) tables.items) }
{
    let mut tables = empty_tables(alloc, classes.signature(), defaults)?;
    let mut seen = IndexSet::new(alloc);
    for t in 0..classes.table().len() {
        add_selection(alloc, classes, nodes, &mut seen, &mut tables, TermId(t))?;
    }
    Ok(tables)
}

// A table for each selector that has only a default value.
fn empty_tables(
    alloc: Global,
    sig: &Signature,
    defaults: &[NodeId],
) -> Result<Vec<Table>, BuildError>
    requires defaults { length defaults.now ≡ length sig.now.sorts }
    ensures selectors { IfOk result (λ tables. (g : Nodes) → AreOfAllSorts sig.now g defaults.now → HasSelectors sig.now g tables.items) }
    ensures long { IfOk result (λ tables. length tables.items ≡ length sig.now.sels) }
    ensures empty { IfOk result (λ tables. (s : ℕ) (table : Table) → slice_get tables.items s ≡ Some table → table.rows ≡ []) }
{
    let mut tables = Vec::new(alloc);
    for s in 0..sig.mark().sels() {
        let field = sig.sel_sort(SelId(s));
        tables.push(Table {
            rows: Rows::new(Vec::new(alloc)),
            default: defaults[field.0 as usize],
        })?;
    }
    Ok(tables)
}

// Adds the row of the term, if it is a selection from a class of another constructor.
fn add_selection(
    alloc: Global,
    classes: &Classes,
    nodes: &[NodeId],
    seen: &mut IndexSet<RowKey>,
    tables: &mut Vec<Table>,
    t: TermId,
) -> Result<(), BuildError>
    requires quiet { IsQuiet classes.now }
    requires inside { t.0 < length classes.now.terms }
    requires long { length nodes.now ≡ length classes.now.terms }
    requires one_each { length tables.old.items ≡ length classes.now.declarations.sels }
    requires seen { AreSeen seen.old tables.old.items }
    ensures one_each { OnOk result (length tables.new.items ≡ length classes.now.declarations.sels) }
    ensures selectors { OnOk result ((g : Nodes)
        → HaveSortedNodes classes.now.declarations classes.now.terms g nodes.now
        → HasSelectors classes.now.declarations g tables.old.items
        → HasSelectors classes.now.declarations g tables.new.items) }
    ensures seen { OnOk result (AreSeen seen.new tables.new.items) }
    ensures rows { OnOk result (AreSelectorRows classes.now nodes.now t.0 tables.old.items → AreSelectorRows classes.now nodes.now (t.0 + 1) tables.new.items) }
{
    match classes.table().core(t) {
        Core::Sel(s, of) => {
            if is_of(classes, *of, classes.signature().sel_ctor(*s)) {
                return Ok(());
            }
            let mut args = Vec::new(alloc);
            args.push(nodes[of.0 as usize])?;
            let row = Row {
                args: NodeIds::new(args),
                result: nodes[t.0 as usize],
            };
            add_first(alloc, seen, tables, s.0, row)
        }
        _ => Ok(()),
    }
}

/// Whether the class of the term has a constructor term of this constructor.
pub(crate) fn is_of(classes: &Classes, t: TermId, c: CtorId) -> bool
    requires quiet { IsQuiet classes.now }
    requires inside { t.0 < length classes.now.terms }
    ensures value { MatchBool result ((args : List TermId) × IsBuiltBy classes.now t c args) ((args : List TermId) → IsBuiltBy classes.now t c args → ⊥) }
{
    match classes.con_of(t) {
        Some(con) => match classes.table().core(con) {
            Core::Con(own, _) => own.0 == c.0,
            _ => unreachable!(),
        },
        None => false,
    }
}
