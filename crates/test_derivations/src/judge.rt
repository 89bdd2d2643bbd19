//! Judgements over the table of these terms, which begins with `true` and `false`, and over these
//! assertions. `(check (TERM ..) (NUMBER ..) (LINE ..))` answers `verified`, or `rejected N` with
//! the number of the line, from 1, where the check stops. With the same parts `accepted` answers
//! whether the last line is accepted after the others, and `each` shows `+` or `-` for each line.
ghost use Rattle.std.specs.Prelude.{◌≡◌, IfOk};
ghost use Rattle.ct_card.specs.Sizes.{AreSizes};
ghost use Rattle.ct_terms.specs.Terms.{AreSorted};
ghost use Rattle.ct_log.specs.Recorded.{AreJudges};
ghost use Rattle.ct_log.specs.Rooms.{IsRoomOf};

use crate::derive::show_derived;
use crate::keep::show_kept;
use crate::lines::lines_of;
use crate::table::{asserts_of, table_of};
use crate::text::{audit, show_read, show_written};
use crate::trim::show_trimmed;
use crate::unsat::show_core;
use ct_card::{CardError, Sizes};
use ct_cases::{CaseError, items_of};
use ct_checker::{Checker, Reject};
use ct_log::{Line, Record, Room, accepted, accepted_at};
use ct_sexpr::Sexpr;
use ct_sorts::Signature;
use ct_terms::TermId;
use std::alloc::Global;

/// Answers a case.
pub fn answer(
    alloc: Global,
    sig: &Signature,
    kind: &str,
    parts: &[Sexpr],
    out: &mut String,
) -> Result<(), CaseError> {
    match (kind, parts) {
        ("check", [terms, asserts, lines]) => check(alloc, sig, terms, asserts, lines, out),
        ("accepted", [terms, asserts, lines]) => accept(alloc, sig, terms, asserts, lines, out),
        ("each", [terms, asserts, lines]) => each(alloc, sig, terms, asserts, lines, out),
        ("derive", [terms, asserts, lines]) => show_derived(alloc, sig, terms, asserts, lines, out),
        ("trim", [kept, terms, asserts, lines]) => {
            show_trimmed(alloc, sig, kept, terms, asserts, lines, out)
        }
        ("core", [terms, asserts, lines]) => show_core(alloc, sig, terms, asserts, lines, out),
        ("keep", [terms, asserts, lines, others]) => {
            show_kept(alloc, sig, terms, asserts, lines, others, out)
        }
        ("read", [expr]) => show_read(alloc, sig, expr, out),
        ("audit", [asserts, expr]) => audit(alloc, sig, asserts, expr, out),
        ("write", [expr]) => show_written(alloc, sig, expr, out),
        _ => Err(CaseError::Bad),
    }
}

/// Checks the record of all lines.
fn check(
    alloc: Global,
    sig: &Signature,
    terms: &Sexpr,
    asserts: &Sexpr,
    lines: &Sexpr,
    out: &mut String,
) -> Result<(), CaseError> {
    let lines = lines_of(alloc, items_of(lines)?)?;
    let rec = record_of(alloc, sig, terms, lines)?;
    let asserts = asserts_of(alloc, rec.table(), items_of(asserts)?)?;
    let sizes = sizes_of(alloc, sig)?;
    show_verdict(alloc, sig, &sizes, &rec, &asserts, out)
}

/// Asks whether the last line is accepted after the others.
fn accept(
    alloc: Global,
    sig: &Signature,
    terms: &Sexpr,
    asserts: &Sexpr,
    lines: &Sexpr,
    out: &mut String,
) -> Result<(), CaseError> {
    let mut lines = lines_of(alloc, items_of(lines)?)?;
    let last = lines.pop().ok_or(CaseError::Bad)?;
    let rec = record_of(alloc, sig, terms, lines)?;
    let asserts = asserts_of(alloc, rec.table(), items_of(asserts)?)?;
    let sizes = sizes_of(alloc, sig)?;
    show_accepted(alloc, sig, &sizes, &rec, &asserts, &last, out)
}

/// Asks of each line whether it is accepted after those before it.
fn each(
    alloc: Global,
    sig: &Signature,
    terms: &Sexpr,
    asserts: &Sexpr,
    lines: &Sexpr,
    out: &mut String,
) -> Result<(), CaseError> {
    let lines = lines_of(alloc, items_of(lines)?)?;
    let rec = grown(alloc, record_of(alloc, sig, terms, lines)?)?;
    let asserts = asserts_of(alloc, rec.table(), items_of(asserts)?)?;
    let sizes = sizes_of(alloc, sig)?;
    let mut room = room_of(alloc, &rec)?;
    show_each(sig, &sizes, &rec, &asserts, &mut room, out)
}

/// The record of these terms and lines.
fn record_of(
    alloc: Global,
    sig: &Signature,
    terms: &Sexpr,
    lines: Vec<Line>,
) -> Result<Box<Record>, CaseError>
    ensures sorted { IfOk result (λ rec. AreSorted sig.now rec.value.terms) }
{
    let table = table_of(alloc, sig, items_of(terms)?)?;
    let rec = Box::new(alloc, Record::new(Box::into_inner(table), lines))?;
    Ok(rec)
}

/// The record over a copy of its table.
fn grown(alloc: Global, rec: Box<Record>) -> Result<Box<Record>, CaseError>
    ensures same { IfOk result (λ copy. copy.value ≡ rec.value) }
{
    match rec.table().copy() {
        Ok(table) => Ok(Box::new(alloc, Box::into_inner(rec).grow(table))?),
        Err(_) => Err(CaseError::NoMemory),
    }
}

/// The sizes of all sorts.
pub fn sizes_of(alloc: Global, sig: &Signature) -> Result<Box<Sizes>, CaseError>
    ensures sizes { IfOk result (λ sizes. AreSizes sig.now sizes.value) }
{
    match Sizes::new(alloc, sig) {
        Ok(sizes) => Ok(Box::new(alloc, sizes)?),
        Err(CardError) => Err(CaseError::NoMemory),
    }
}

/// Room for the lines of the record.
fn room_of(alloc: Global, rec: &Record) -> Result<Box<Room>, CaseError>
    ensures room { IfOk result (λ room. IsRoomOf room.value rec.now.terms rec.now.lines) }
{
    match Room::new(alloc, rec) {
        Ok(room) => Ok(Box::new(alloc, room)?),
        Err(_) => Err(CaseError::NoMemory),
    }
}

/// Shows whether the record passes, or where it does not.
pub fn show_verdict(
    alloc: Global,
    sig: &Signature,
    sizes: &Sizes,
    rec: &Record,
    asserts: &[TermId],
    out: &mut String,
) -> Result<(), CaseError>
    requires judges { AreJudges sig.now sizes.now rec.now.terms asserts.now }
{
    match Checker::new(alloc, sig, sizes, rec, asserts) {
        Ok(mut checker) => show_run(alloc, checker.run(), out),
        Err(_) => Err(CaseError::NoMemory),
    }
}

/// Shows the outcome of a check.
fn show_run(alloc: Global, run: Result<(), Reject>, out: &mut String) -> Result<(), CaseError> {
    match run {
        Ok(()) => out.push_str("verified")?,
        Err(reject) => out.push_str(format!(in alloc; "rejected {}", reject.step)?.as_str())?,
    }
    Ok(())
}

/// Shows whether the line is accepted after those of the record.
fn show_accepted(
    alloc: Global,
    sig: &Signature,
    sizes: &Sizes,
    rec: &Record,
    asserts: &[TermId],
    line: &Line,
    out: &mut String,
) -> Result<(), CaseError>
    requires judges { AreJudges sig.now sizes.now rec.now.terms asserts.now }
{
    match accepted(alloc, sig, sizes, rec, asserts, line) {
        Ok(answer) => Ok(out.push_str(if answer { "yes" } else { "no" })?),
        Err(_) => Err(CaseError::NoMemory),
    }
}

/// Shows of each line of the record whether it is accepted after those before it.
fn show_each(
    sig: &Signature,
    sizes: &Sizes,
    rec: &Record,
    asserts: &[TermId],
    room: &mut Room,
    out: &mut String,
) -> Result<(), CaseError>
    requires judges { AreJudges sig.now sizes.now rec.now.terms asserts.now }
    requires room { IsRoomOf room.old rec.now.terms rec.now.lines }
{
    for index in 0..rec.lines().len() as u64 {
        let answer = accepted_at(sig, sizes, rec, asserts, index, room);
        out.push_str(if answer { "+" } else { "-" })?;
    }
    Ok(())
}
