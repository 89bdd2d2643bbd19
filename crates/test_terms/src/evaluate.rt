//! Evaluation: `(proper INTERPRETATION ..)` shows which interpretations fit the declarations,
//! `(holds (CORE ..) INTERPRETATION (TERM ..) ..)` for each list of terms the index of the first
//! that is not true, and `(values (CORE ..) INTERPRETATION)` the text of the value of each term,
//! of which the first two are `true` and `false`. `(tables (TABLE ..))` shows tables that were
//! given back.
ghost use Rattle.std.specs.Prelude.{All, IsTrue};
ghost use Rattle.ct_terms.specs.Terms.{AreSorted, IsBoolean};

use crate::cores::term_of;
use crate::interpretation::{interp_of, tables_of};
use crate::show::{show_bool, show_number};
use crate::table::table_of;
use ct_cases::{CaseError, items_of, show_bytes};
use ct_eval::{Interp, Row, Table, evaluate, evaluation, holds, is_proper};
use ct_sexpr::Sexpr;
use ct_sorts::{Signature, SortId};
use ct_terms::{TermId, TermTable};
use ct_value_text::value_text;
use std::alloc::Global;

/// The sort Bool.
const BOOL: SortId = SortId(0);

/// Answers a case of evaluation.
pub fn answer(
    alloc: Global,
    sig: &Signature,
    kind: &str,
    parts: &[Sexpr],
    out: &mut String,
) -> Result<bool, CaseError> {
    match (kind, parts) {
        ("proper", interps) => show_proper(alloc, sig, interps, out)?,
        ("holds", [terms, interp, lists @ ..]) => {
            let table = table_of(alloc, sig, items_of(terms)?)?;
            let interp = interp_of(alloc, sig, interp)?;
            show_lists(alloc, sig, &interp, &table, lists, out)?;
        }
        ("values", [terms, interp]) => {
            let table = table_of(alloc, sig, items_of(terms)?)?;
            let interp = interp_of(alloc, sig, interp)?;
            show_values(alloc, sig, &interp, &table, out)?;
        }
        ("tables", [tables]) => show_tables(alloc, tables, out)?,
        ("theorems", []) => {
            evaluation();
            out.push_str(" ok")?;
        }
        _ => return Ok(false),
    }
    Ok(true)
}

/// Shows which interpretations fit the declarations.
fn show_proper(
    alloc: Global,
    sig: &Signature,
    interps: &[Sexpr],
    out: &mut String,
) -> Result<(), CaseError> {
    for interp in interps {
        let interp = interp_of(alloc, sig, interp)?;
        show_bool(is_proper(sig, &interp), out)?;
    }
    Ok(())
}

/// Shows for each list of assertions the index of the first that is not true.
fn show_lists(
    alloc: Global,
    sig: &Signature,
    interp: &Interp,
    table: &TermTable,
    lists: &[Sexpr],
    out: &mut String,
) -> Result<(), CaseError>
    requires sorted { AreSorted sig.now table.now }
{
    for list in lists {
        show_first_untrue(alloc, sig, interp, table, items_of(list)?, out)?;
    }
    Ok(())
}

/// Shows the index of the first of these assertions that is not true, or `all`.
fn show_first_untrue(
    alloc: Global,
    sig: &Signature,
    interp: &Interp,
    table: &TermTable,
    parts: &[Sexpr],
    out: &mut String,
) -> Result<(), CaseError>
    requires sorted { AreSorted sig.now table.now }
{
    let asserts = terms_of(alloc, parts)?;
    show_untrue(alloc, sig, interp, table, &asserts, out)
}

/// The same of the assertions as terms.
fn show_untrue(
    alloc: Global,
    sig: &Signature,
    interp: &Interp,
    table: &TermTable,
    asserts: &[TermId],
    out: &mut String,
) -> Result<(), CaseError>
    requires sorted { AreSorted sig.now table.now }
{
    if !is_proper(sig, interp) {
        return Err(CaseError::Bad);
    }
    if !are_boolean(table, asserts) {
        return Err(CaseError::Bad);
    }
    match holds(alloc, sig, interp, table, asserts) {
        Ok(Some(index)) => show_number(alloc, index as u64, out),
        Ok(None) => Ok(out.push_str(" all")?),
        Err(_) => Err(CaseError::NoMemory),
    }
}

/// The terms of these numbers.
fn terms_of(alloc: Global, parts: &[Sexpr]) -> Result<Vec<TermId>, CaseError> {
    let mut terms = Vec::new(alloc);
    for part in parts {
        terms.push(term_of(part)?)?;
    }
    Ok(terms)
}

/// Whether these are Boolean terms of the table.
fn are_boolean(table: &TermTable, terms: &[TermId]) -> bool
    ensures boolean { IsTrue result → All (IsBoolean table.now) terms.now }
{
    for t in terms {
        if !is_boolean(table, *t) {
            return false;
        }
    }
    true
}

/// Whether this is a Boolean term of the table.
fn is_boolean(table: &TermTable, t: TermId) -> bool
    ensures boolean { IsTrue result → IsBoolean table.now t }
{
    if t.0 >= table.len() {
        return false;
    }
    table.sort(t) == BOOL
}

/// Shows the text of the value of each term.
fn show_values(
    alloc: Global,
    sig: &Signature,
    interp: &Interp,
    table: &TermTable,
    out: &mut String,
) -> Result<(), CaseError>
    requires sorted { AreSorted sig.now table.now }
{
    if !is_proper(sig, interp) {
        return Err(CaseError::Bad);
    }
    let valuation = match evaluate(alloc, sig, interp, table) {
        Ok(valuation) => Box::new(alloc, valuation)?,
        Err(_) => return Err(CaseError::NoMemory),
    };
    for node in valuation.nodes.as_slice() {
        if node.0 >= valuation.graph.len() {
            return Err(CaseError::Bad);
        }
        match value_text(alloc, sig, &valuation.graph, *node) {
            Ok(text) => show_text(alloc, &text, out)?,
            Err(_) => return Err(CaseError::NoMemory),
        }
    }
    Ok(())
}

/// Shows a text.
fn show_text(alloc: Global, text: &[u8], out: &mut String) -> Result<(), CaseError> {
    out.push(' ')?;
    show_bytes(alloc, text, out)
}

/// Shows tables that were given back, each with its default and its rows.
fn show_tables(alloc: Global, part: &Sexpr, out: &mut String) -> Result<(), CaseError> {
    for table in tables_of(alloc, part)?.into_vec() {
        out.push_str(" default")?;
        show_number(alloc, table.default.0, out)?;
        show_rows(alloc, table, out)?;
    }
    Ok(())
}

/// Shows the rows that a table gives back.
fn show_rows(alloc: Global, table: Table, out: &mut String) -> Result<(), CaseError> {
    for row in table.rows.into_vec() {
        show_row(alloc, &row, out)?;
    }
    Ok(())
}

/// Shows the result and the arguments of a row.
fn show_row(alloc: Global, row: &Row, out: &mut String) -> Result<(), CaseError> {
    out.push_str(" row")?;
    show_number(alloc, row.result.0, out)?;
    for arg in row.args.as_slice() {
        show_number(alloc, arg.0, out)?;
    }
    Ok(())
}
