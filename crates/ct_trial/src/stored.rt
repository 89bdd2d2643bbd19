//! A copy of the terms of a table, which is compared with later tables.
ghost use Rattle.std.specs.Prelude.{◌≡◌, ◌+◌, ◌<◌, ◌≤◌, length, take, All, IsTrue, OnOk};
ghost use Rattle.ct_terms.specs.Terms.{Terms};
ghost use Rattle.ct_trial.specs.LastModel.{AppliesBelow};

use crate::error::TrialError;
use ct_sorts::SortId;
use ct_terms::{Core, TermId, TermTable};

/// How many of the first terms are the first ones of the table.
pub(crate) fn common(terms: &[(Core, SortId)], table: &TermTable) -> u32
    ensures within { result ≤ length terms.now }
    ensures few { result ≤ length table.now }
    ensures same { take result terms.now ≡ take result table.now }
{
    let mut count = 0;
    while count < table.len() && (count as usize) < terms.len() {
        if !is_next(terms, table, count) {
            return count;
        }
        count += 1;
    }
    count
}

// Whether the term with this number is that of the table.
fn is_next(terms: &[(Core, SortId)], table: &TermTable, count: u32) -> bool
    requires within { count < length table.now }
    requires listed { count < length terms.now }
    ensures same { IsTrue result → take count terms.now ≡ take count table.now → take (count + 1) terms.now ≡ take (count + 1) table.now }
{
    let t = TermId(count);
    let core = table.core(t);
    let sort = table.sort(t);
    is_term(&terms[count as usize], core, sort)
}

// Whether the term is this one, of this sort.
fn is_term(term: &(Core, SortId), core: &Core, sort: SortId) -> bool
    ensures same { IsTrue result → term.now ≡ (core.now, sort) }
{
    if term.1 != sort {
        return false;
    }
    is_core(&term.0, core)
}

// Whether the terms are the same.
fn is_core(core: &Core, other: &Core) -> bool
    ensures same { IsTrue result → core.now ≡ other.now }
{
    let same = *core == *other;
    same
}

/// Appends the terms of the table that are not there yet.
pub(crate) fn copy_rest(
    table: &TermTable,
    terms: &mut Vec<(Core, SortId)>,
) -> Result<(), TrialError>
    requires begun { terms.old.items ≡ take (length terms.old.items) table.now }
    ensures all { OnOk result (terms.new.items ≡ table.now) }
{
    while terms.len() < table.len() as usize {
        copy_next(table, terms)?;
    }
    Ok(())
}

// Appends the next term of the table.
fn copy_next(table: &TermTable, terms: &mut Vec<(Core, SortId)>) -> Result<(), TrialError>
    requires begun { terms.old.items ≡ take (length terms.old.items) table.now }
    requires more { length terms.old.items < length table.now }
    ensures begun { OnOk result (terms.new.items ≡ take (length terms.new.items) table.now) }
    ensures one { OnOk result (length terms.new.items ≡ length terms.old.items + 1) }
{
    let _terms = table.len();
    let t = TermId(terms.len() as u32);
    let core = table.core(t).copy()?;
    let sort = table.sort(t);
    terms.push((core, sort))?;
    Ok(())
}

/// How many of the first terms apply no other functions than the first ones, so many.
pub(crate) fn count_below(terms: &[(Core, SortId)], funs: u32) -> u32
    ensures within { result ≤ length terms.now }
    ensures below { All (AppliesBelow funs) (take result terms.now) }
{
    let mut count: u32 = 0;
    while count < u32::MAX && (count as usize) < terms.len() {
        if !is_below(&terms[count as usize], funs) {
            return count;
        }
        count += 1;
    }
    count
}

// Whether the term applies no other function.
fn is_below(term: &(Core, SortId), funs: u32) -> bool
    ensures below { IsTrue result → AppliesBelow funs term.now }
{
    match &term.0 {
        Core::Apply(f, _) => f.0 < funs,
        _ => true,
    }
}
