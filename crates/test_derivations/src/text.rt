//! Texts of derivations: `(read DERIVATION)` reads one and shows the number of its check and of its
//! lines, `(audit (NUMBER ..) DERIVATION)` reads one and checks it over these assertions, as `check`
//! does, and `(write DERIVATION)` reads one and shows its text. One that is refused shows its error
//! and the index of the item, as `E41 at 3`.
ghost use Rattle.std.specs.Prelude.{IfOk};
ghost use Rattle.ct_terms.specs.Terms.{AreSorted};

use crate::judge::{show_verdict, sizes_of};
use crate::table::asserts_of;
use ct_cases::{CaseError, items_of, show_bytes};
use ct_log::{LogError, Record};
use ct_log_text::{derivation_number, derivation_text, read_derivation};
use ct_sexpr::Sexpr;
use ct_sorts::Signature;
use std::alloc::Global;

/// Shows the number of the check and of the lines of a derivation.
pub fn show_read(
    alloc: Global,
    sig: &Signature,
    expr: &Sexpr,
    out: &mut String,
) -> Result<(), CaseError> {
    match record_of(alloc, sig, expr) {
        Ok(rec) => show_numbers(alloc, expr, &rec, out),
        Err(error) => show_error(alloc, error, out),
    }
}

/// Shows whether a derivation passes over these assertions, or where it does not.
pub fn audit(
    alloc: Global,
    sig: &Signature,
    asserts: &Sexpr,
    expr: &Sexpr,
    out: &mut String,
) -> Result<(), CaseError> {
    match record_of(alloc, sig, expr) {
        Ok(rec) => judge(alloc, sig, asserts, &rec, out),
        Err(error) => show_error(alloc, error, out),
    }
}

/// Shows the text of a derivation.
pub fn show_written(
    alloc: Global,
    sig: &Signature,
    expr: &Sexpr,
    out: &mut String,
) -> Result<(), CaseError> {
    match text_of(alloc, sig, expr) {
        Ok(text) => show_bytes(alloc, &text, out),
        Err(error) => show_error(alloc, error, out),
    }
}

/// The record of a derivation, whose first item has the number of a check.
fn record_of(alloc: Global, sig: &Signature, expr: &Sexpr) -> Result<Box<Record>, LogError>
    ensures sorted { IfOk result (λ rec. AreSorted sig.now rec.value.terms) }
{
    derivation_number(expr)?;
    let rec = read_derivation(alloc, sig, expr)?;
    Ok(Box::new(alloc, rec)?)
}

/// The text of the derivation that was read.
fn text_of(alloc: Global, sig: &Signature, expr: &Sexpr) -> Result<Vec<u8>, LogError> {
    let number = derivation_number(expr)?;
    let rec = record_of(alloc, sig, expr)?;
    derivation_text(alloc, sig, number, &rec)
}

/// Shows the number of the check and of the lines of the record.
fn show_numbers(
    alloc: Global,
    expr: &Sexpr,
    rec: &Record,
    out: &mut String,
) -> Result<(), CaseError> {
    let Ok(number) = derivation_number(expr) else {
        return Err(CaseError::Bad);
    };
    let lines = rec.lines().len();
    Ok(out.push_str(format!(in alloc; "check {number} lines {lines}")?.as_str())?)
}

/// Shows whether the record passes over these assertions, or where it does not.
fn judge(
    alloc: Global,
    sig: &Signature,
    asserts: &Sexpr,
    rec: &Record,
    out: &mut String,
) -> Result<(), CaseError>
    requires sorted { AreSorted sig.now rec.now.terms }
{
    let asserts = asserts_of(alloc, rec.table(), items_of(asserts)?)?;
    let sizes = sizes_of(alloc, sig)?;
    show_verdict(alloc, sig, &sizes, rec, &asserts, out)
}

/// Shows the error and the index of its item.
fn show_error(alloc: Global, error: LogError, out: &mut String) -> Result<(), CaseError> {
    match error {
        LogError::Form { item, code } => {
            Ok(out.push_str(format!(in alloc; "E{code} at {item}")?.as_str())?)
        }
        LogError::NoMemory => Err(CaseError::NoMemory),
    }
}
