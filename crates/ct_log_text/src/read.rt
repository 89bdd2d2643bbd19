//! Reading a derivation: the items one after another, and the first that is refused.
ghost use Rattle.std.specs.Prelude.{◌≡◌, ℕ, ◌+◌, ◌<◌, ◌^◌, [], Ok, Err, Some, None, true, is_some, length, option_and_then, MatchOption, IfOk, IfErr, OnOk, IsErrOf};
ghost use Rattle.ct_sexpr.specs.View.{expression_of, expressions_of};
ghost use Rattle.ct_terms.specs.Terms.{most_terms, truth_terms, AreSorted};
ghost use Rattle.ct_log.specs.declared.error.LogError.TheVariants.{Form, NoMemory};
ghost use Rattle.ct_log_lines.specs.Forms.{first_with_rest};
ghost use Rattle.ct_log_lines.specs.Lines.{line_in};
ghost use Rattle.ct_log_text.specs.Reading.{departs, Adds, StandsFor, GivesLine, GivesTerm, checked_line, read_lines, ReadsTerms, after_header, number_of, items_in, after_constant, Reads, ReadOutcome};

use crate::built::{core_of, terms_of};
use crate::fitting::{are_terms, has_stripped, has_terms};
use crate::named::symbol_of;
use ct_log::{Line, LogError, Record};
use ct_log_lines::{
    TermLine, first_of, header_in, is_constant_line, is_end, line_in, parts_after, parts_of,
    term_line,
};
use ct_sexpr::Sexpr;
use ct_sorts::{Signature, growth};
use ct_terms::{Core, TermTable, is_well_sorted};
use std::alloc::Global;

/// An item departs from its form.
const DEPARTS: u16 = 41;

/// A term number is not yet that of a term.
const NOT_YET: u16 = 42;

/// A term line does not fit the declarations, or a literal is over a term that is not Boolean or is a negation.
const MISFITS: u16 = 43;

/// The number K of the check of satisfiability whose derivation the expression is, by its first item,
/// `(cosmt-derivation K)`. It is refused with 41 at item 0 where that is no such item, or K is 0.
pub fn derivation_number(expr: &Sexpr) -> Result<u64, LogError>
    ensures number { (n : ℕ) → result ≡ Ok n → number_of (expression_of expr.now) ≡ Some n }
    ensures refused { IfErr result (λ e. (e ≡ Form 0 departs) × (number_of (expression_of expr.now) ≡ None)) }
{
    match number_of(expr) {
        None => Err(departs_at(0)),
        Some(number) => Ok(number),
    }
}

/// The same number, where there is one.
fn number_of(expr: &Sexpr) -> Option<u64>
    ensures value { result ≡ number_of (expression_of expr.now) }
{
    let items = parts_of(expr)?;
    let (first, _) = first_of(items)?;
    header_in(first)
}

/// The record of a derivation over a signature, as a list of items: the number of a check, term lines, lines and the end.
/// It is refused at the first item, counted from 0, that is wrong or missing:
///
/// - 41 where it departs from its form. A term also does where it stands twice or is one more than 400,000;
/// - 42 where the number of a term is not below its own number in a term line, or else not below that of the term lines;
/// - 43 where a term line names what the signature does not have in that role or is not well sorted, or a literal is over
///   a term that is not Boolean or is a negation.
///
/// Where one item has several of these, the least number counts.
pub fn read_derivation(alloc: Global, sig: &Signature, expr: &Sexpr) -> Result<Record, LogError>
    ensures read { IfOk result (λ rec. Reads sig.now (expression_of expr.now) (Ok rec)) }
    ensures sorted { IfOk result (λ rec. AreSorted sig.now rec.terms) }
    ensures refused { (item code : ℕ) → IsErrOf result (Form item code) → Reads sig.now (expression_of expr.now) (Err (item, code)) }
{
    let items = items_in(expr)?;
    let items = after_constant(alloc, 0, b"true", items)?;
    let items = after_constant(alloc, 1, b"false", items)?;
    read_record(alloc, sig, items)
}

/// The error of an item that departs from its form.
fn departs_at(item: u64) -> LogError
    ensures value { result ≡ Form item departs }
{
    LogError::Form {
        item,
        code: DEPARTS,
    }
}

/// The items after the first one.
fn items_in(expr: &Sexpr) -> Result<&[Sexpr], LogError>
    ensures ok { IfOk result (λ items. items_in (expression_of expr.now) ≡ Some (expressions_of items.now)) }
    ensures err { IfErr result (λ e. (e ≡ Form 0 departs) × (items_in (expression_of expr.now) ≡ None)) }
{
    match parts_of(expr) {
        None => Err(departs_at(0)),
        Some(items) => after_header(items),
    }
}

/// The same, of all items.
fn after_header(items: &[Sexpr]) -> Result<&[Sexpr], LogError>
    ensures ok { IfOk result (λ others. option_and_then after_header (first_with_rest (expressions_of items.now)) ≡ Some (expressions_of others.now)) }
    ensures err { IfErr result (λ e. (e ≡ Form 0 departs) × (option_and_then after_header (first_with_rest (expressions_of items.now)) ≡ None)) }
{
    match first_of(items) {
        None => Err(departs_at(0)),
        Some((first, others)) => match header_in(first) {
            None => Err(departs_at(0)),
            Some(_) => Ok(others),
        },
    }
}

/// The items after the term line with this number, which is that of a constructor with this name alone.
fn after_constant<'a>(
    alloc: Global,
    n: u64,
    name: &[u8],
    items: &'a [Sexpr],
) -> Result<&'a [Sexpr], LogError>
    requires few { n < 2 }
    ensures ok { IfOk result (λ others. after_constant n name.now (expressions_of items.now) ≡ Some (expressions_of others.now)) }
    ensures form { (item code : ℕ) → IsErrOf result (Form item code) → (item ≡ n + 1) × (code ≡ departs) × (after_constant n name.now (expressions_of items.now) ≡ None) }
{
    match first_of(items) {
        None => Err(departs_at(n + 1)),
        Some((first, others)) => {
            if is_constant_line(alloc, n, name, first)? {
                return Ok(others);
            }
            Err(departs_at(n + 1))
        }
    }
}

/// The record of the items after the terms 0 and 1.
fn read_record(alloc: Global, sig: &Signature, items: &[Sexpr]) -> Result<Record, LogError>
    ensures ok { IfOk result (λ rec. ReadsTerms sig.now 3 truth_terms (expressions_of items.now) (Ok rec)) }
    ensures sorted { IfOk result (λ rec. AreSorted sig.now rec.terms) }
    ensures form { (item code : ℕ) → IsErrOf result (Form item code) → ReadsTerms sig.now 3 truth_terms (expressions_of items.now) (Err (item, code)) }
{
    let mut table = new_table(alloc, sig)?;
    match read_into(alloc, sig, &mut table, items) {
        Err(error) => {
            drop(table);
            Err(error)
        }
        Ok(lines) => Ok(Record::new(table, lines)),
    }
}

/// The table of `true` and `false`.
fn new_table(alloc: Global, sig: &Signature) -> Result<TermTable, LogError>
    ensures ok { IfOk result (λ table. table ≡ truth_terms) }
    ensures sorted { IfOk result (λ table. AreSorted sig.now table) }
    ensures err { IfErr result (λ e. e ≡ NoMemory) }
{
    let _sorts = sig.sorts();
    growth();
    match TermTable::new(alloc) {
        Ok(table) => Ok(table),
        Err(_) => Err(LogError::NoMemory),
    }
}

/// The lines of the items after the terms 0 and 1, and all terms put into the table.
fn read_into(
    alloc: Global,
    sig: &Signature,
    table: &mut TermTable,
    items: &[Sexpr],
) -> Result<Vec<Line>, LogError>
    requires terms { AreSorted sig.now table.old }
    ensures ok { IfOk result (λ lines. ReadsTerms sig.now 3 table.old (expressions_of items.now) (Ok (record { terms = table.new; lines = lines.items }))) }
    ensures sorted { OnOk result (AreSorted sig.now table.new) }
    ensures form { (item code : ℕ) → IsErrOf result (Form item code) → ReadsTerms sig.now 3 table.old (expressions_of items.now) (Err (item, code)) }
{
    let (place, rest) = add_terms(alloc, sig, table, items)?;
    read_lines(alloc, place, table, rest)
}

/// Puts the terms of term lines into the table. The place of the first other item, and the items from there on.
fn add_terms<'a>(
    alloc: Global,
    sig: &Signature,
    table: &mut TermTable,
    items: &'a [Sexpr],
) -> Result<(u64, &'a [Sexpr]), LogError>
    requires terms { AreSorted sig.now table.old }
    ensures ok { IfOk result (λ at. (outcome : ReadOutcome) → outcome ≡ read_lines at.0 table.new [] (expressions_of at.1.now)
        → ReadsTerms sig.now 3 table.old (expressions_of items.now) outcome) }
    ensures place { IfOk result (λ at. at.0 + length at.1.now ≡ 3 + length items.now) }
    ensures sorted { OnOk result (AreSorted sig.now table.new) }
    ensures form { (item code : ℕ) → IsErrOf result (Form item code) → ReadsTerms sig.now 3 table.old (expressions_of items.now) (Err (item, code)) }
{
    let mut place = 3;
    let mut rest = items;
    while let [item, others @ ..] = rest {
        if parts_after(b"t", item).is_none() {
            return Ok((place, rest));
        }
        if let Some(code) = add_term(alloc, sig, table, item)? {
            return Err(LogError::Form { item: place, code });
        }
        place += 1;
        rest = others;
    }
    Ok((place, rest))
}

/// Puts the term of a term line into the table. The number of the error where it is refused.
fn add_term(
    alloc: Global,
    sig: &Signature,
    table: &mut TermTable,
    item: &Sexpr,
) -> Result<Option<u16>, LogError>
    requires terms { AreSorted sig.now table.old }
    ensures ok { IfOk result (λ refused. MatchOption refused
        (GivesTerm sig.now table.old (expression_of item.now) (Ok table.new))
        (λ code. GivesTerm sig.now table.old (expression_of item.now) (Err code))) }
    ensures sorted { OnOk result (AreSorted sig.now table.new) }
    ensures err { IfErr result (λ e. e ≡ NoMemory) }
{
    match term_line(alloc, table.len() as u64, item)? {
        None => Ok(Some(DEPARTS)),
        Some(line) => add_line(alloc, sig, table, &line),
    }
}

/// The same of a term line as it stands in the text.
fn add_line(
    alloc: Global,
    sig: &Signature,
    table: &mut TermTable,
    line: &TermLine,
) -> Result<Option<u16>, LogError>
    requires room { length table.old < most_terms }
    requires terms { AreSorted sig.now table.old }
    ensures ok { IfOk result (λ refused. MatchOption refused
        (GivesLine sig.now table.old (Some line.now) (Ok table.new))
        (λ code. GivesLine sig.now table.old (Some line.now) (Err code))) }
    ensures sorted { OnOk result (AreSorted sig.now table.new) }
    ensures err { IfErr result (λ e. e ≡ NoMemory) }
{
    let args = terms_of(alloc, line.numbers.as_slice())?;
    if !are_terms(table.len(), args.as_slice()) {
        return Ok(Some(NOT_YET));
    }
    let symbol = symbol_of(alloc, sig, table, line, args.as_slice())?;
    add_core(sig, table, core_of(line.kind, symbol, args))
}

/// Puts the term into the table, where there is one that is well sorted and new.
fn add_core(
    sig: &Signature,
    table: &mut TermTable,
    core: Option<Core>,
) -> Result<Option<u16>, LogError>
    requires room { length table.old < most_terms }
    ensures ok { IfOk result (λ refused. MatchOption refused
        (Adds sig.now table.old core (Ok table.new))
        (λ code. Adds sig.now table.old core (Err code))) }
    ensures sorted { AreSorted sig.now table.old → OnOk result (AreSorted sig.now table.new) }
    ensures err { IfErr result (λ e. e ≡ NoMemory) }
{
    let Some(core) = core else {
        return Ok(Some(MISFITS));
    };
    if !is_well_sorted(sig, table, &core) {
        return Ok(Some(MISFITS));
    }
    let count = table.len();
    match table.make(sig, core) {
        Err(_) => Err(LogError::NoMemory),
        Ok(t) => {
            if t.0 == count {
                return Ok(None);
            }
            Ok(Some(DEPARTS))
        }
    }
}

/// The lines of the items from this place on.
fn read_lines(
    alloc: Global,
    place: u64,
    table: &TermTable,
    items: &[Sexpr],
) -> Result<Vec<Line>, LogError>
    requires place { place + length items.now < 2 ^ 64 }
    ensures ok { IfOk result (λ lines. read_lines place table.now [] (expressions_of items.now) ≡ Ok (record { terms = table.now; lines = lines.items })) }
    ensures form { (item code : ℕ) → IsErrOf result (Form item code) → read_lines place table.now [] (expressions_of items.now) ≡ Err (item, code) }
{
    let mut place = place;
    let mut lines = Vec::new(alloc);
    let mut rest = items;
    while let [item, others @ ..] = rest {
        if is_end(lines.len() as u64, item) {
            return finish(place + 1, lines, others);
        }
        let line = read_line(alloc, table, lines.len() as u64 + 1, place, item)?;
        lines.push(line)?;
        place += 1;
        rest = others;
    }
    Err(departs_at(place))
}

/// The lines, where nothing comes after the end.
fn finish(place: u64, lines: Vec<Line>, others: &[Sexpr]) -> Result<Vec<Line>, LogError>
    ensures ok { IfOk result (λ same. (same.items ≡ lines.items) × (first_with_rest (expressions_of others.now) ≡ None)) }
    ensures err { IfErr result (λ e. (e ≡ Form place departs) × (is_some (first_with_rest (expressions_of others.now)) ≡ true)) }
{
    match first_of(others) {
        None => Ok(lines),
        Some(_) => {
            drop(lines);
            Err(departs_at(place))
        }
    }
}

/// The line with this number that the item at this place is.
fn read_line(
    alloc: Global,
    table: &TermTable,
    n: u64,
    place: u64,
    item: &Sexpr,
) -> Result<Line, LogError>
    ensures ok { IfOk result (λ line. checked_line table.now (line_in n (expression_of item.now)) ≡ Ok line) }
    ensures form { (at code : ℕ) → IsErrOf result (Form at code) → (at ≡ place) × (checked_line table.now (line_in n (expression_of item.now)) ≡ Err code) }
{
    match line_in(alloc, n, item)? {
        None => Err(departs_at(place)),
        Some(line) => check_line(table, place, line),
    }
}

/// The line, where it fits the terms.
fn check_line(table: &TermTable, place: u64, line: Line) -> Result<Line, LogError>
    ensures ok { IfOk result (λ same. checked_line table.now (Some line) ≡ Ok same) }
    ensures form { (at code : ℕ) → IsErrOf result (Form at code) → (at ≡ place) × (checked_line table.now (Some line) ≡ Err code) }
{
    if !has_terms(table.len(), &line) {
        drop(line);
        return Err(LogError::Form {
            item: place,
            code: NOT_YET,
        });
    }
    if !has_stripped(table, &line) {
        drop(line);
        return Err(LogError::Form {
            item: place,
            code: MISFITS,
        });
    }
    Ok(line)
}
