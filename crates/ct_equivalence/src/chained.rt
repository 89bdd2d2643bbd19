//! A table of terms by digests, into which is only put at the end and which is cut back.
ghost use Rattle.std.specs.Prelude.{◌≡◌, ◌<◌, ◌-◌, [], ◌∷◌, ◌++◌, length, take, map, Some, slice_get, MatchBool, IfSome, IfOk, OnOk, OnErr, ◌%◌, ℕ};
ghost use Rattle.ct_equivalence.specs.declared.chained.Row.{Row};
ghost use Rattle.ct_terms.specs.declared.ids.TermId.{TermId};
ghost use Rattle.ct_equivalence.specs.Chains.{IsLastRow, IsEntry, AreChained, row_pair};

use crate::error::EquivalenceError;
use ct_terms::TermId;
use std::alloc::Global;
use std::marker::Model;

/// The most rows.
const MOST_ROWS: usize = 0xffff_ffff;

/// A term with its digest.
#[derive(Clone, Copy, Debug, Drop)]
pub struct Row {
    // The digest.
    digest: u64,
    // The term.
    term: TermId,
    // One more than the number of the last row of the same chain before this one, or zero.
    before: u32,
}

/// Terms by digests, in the order in which they came. Clauses see the list of both.
#[derive(Drop)]
pub struct DigestTable {
    rows: Vec<Row>,
    // For each chain one more than the number of its last row, or zero.
    tops: Vec<u32>,
}

impl Model for DigestTable {
    ghost use Rattle.std.specs.Prelude.{map};
    ghost use Rattle.ct_equivalence.specs.Chains.{SignatureRows, AreChained, row_pair};

    ghost Value = { SignatureRows };

    ghost view = { λ t. map row_pair t.rows.items };

    ghost invariant = { λ t. AreChained t.rows.items t.tops.items };
}

impl DigestTable {
    /// A table of nothing, for about so many rows.
    pub fn new(alloc: Global, rows: u32) -> Result<DigestTable, EquivalenceError>
        ensures empty { IfOk result (λ table. table ≡ []) }
    {
        let tops = vec![in alloc; 0; rows as usize + 1]?;
        Ok(DigestTable {
            rows: Vec::new(alloc),
            tops,
        })
    }

    /// The number of rows.
    pub fn len(&self) -> usize
        ensures value { result ≡ length self.now }
    {
        self.rows.len()
    }

    /// The term of the row.
    pub fn term(&self, row: usize) -> TermId
        requires inside { row < length self.now }
        ensures value { (digest : ℕ) (t : TermId) → slice_get self.now row ≡ Some (digest, t) → result ≡ t }
    {
        self.rows[row].term
    }

    /// The last row with the digest before a row or the end of the table.
    pub fn last(&self, digest: u64, end: usize) -> Option<usize>
        ensures value { IsLastRow self.now end digest result }
    {
        find_last(self.rows.as_slice(), self.tops.as_slice(), digest, end)
    }

    /// Puts a term with its digest to the end. An error changes nothing.
    pub fn push(&mut self, digest: u64, term: TermId) -> Result<(), EquivalenceError>
        ensures pushed { OnOk result (self.new ≡ self.old ++ (digest, term) ∷ []) }
        ensures unchanged { OnErr result (self.new ≡ self.old) }
    {
        push_row(&mut self.rows, &mut self.tops, digest, term)
    }

    /// Keeps the first rows, so many as `len` says. Takes no memory.
    pub fn cut(&mut self, len: usize)
        ensures first { self.new ≡ take len self.old }
    {
        cut_rows(&mut self.rows, &mut self.tops, len);
    }
}

// The last row with the digest before a row or the end.
fn find_last(rows: &[Row], tops: &[u32], digest: u64, end: usize) -> Option<usize>
    requires chained { AreChained rows.now tops.now }
    ensures value { IsLastRow (map row_pair rows.now) end digest result }
{
    let mut next = start(rows, tops, digest, end);
    while next > 0 {
        let at = next as usize - 1;
        let row = rows[at];
        if is_hit(row, at, digest, end) {
            return Some(at);
        }
        next = row.before;
    }
    None
}

// Whether the row at this number is one with the digest before the end.
fn is_hit(row: Row, at: usize, digest: u64, end: usize) -> bool
    ensures value { MatchBool result ((at < end) × (row.digest ≡ digest)) (at < end → row.digest ≡ digest → ⊥) }
{
    at < end && row.digest == digest
}

// Where the chain of the digest is entered: one more than the number of its last row before the end, or of one after it.
fn start(rows: &[Row], tops: &[u32], digest: u64, end: usize) -> u32
    requires chained { AreChained rows.now tops.now }
    ensures entry { IsEntry rows.now (length tops.now) digest end result }
{
    let chains = tops.len() as u64;
    let chain = digest % chains;
    match row_before(rows, chains, chain, end) {
        Some(before) => before,
        None => tops[chain as usize],
    }
}

// What the row at the end tells, if it is of the chain.
fn row_before(rows: &[Row], chains: u64, chain: u64, end: usize) -> Option<u32>
    requires some { 0 < chains }
    ensures found { IfSome result (λ before. (row : Row) × (slice_get rows.now end ≡ Some row) × (row.digest % chains ≡ chain) × (before ≡ row.before)) }
{
    let Some(row) = rows.get(end) else {
        return None;
    };
    if row.digest % chains != chain {
        return None;
    }
    Some(row.before)
}

// Puts a term with its digest to the end.
fn push_row(
    rows: &mut Vec<Row>,
    tops: &mut Vec<u32>,
    digest: u64,
    term: TermId,
) -> Result<(), EquivalenceError>
    requires chained { AreChained rows.old.items tops.old.items }
    ensures chained { AreChained rows.new.items tops.new.items }
    ensures pushed { OnOk result (map row_pair rows.new.items ≡ map row_pair rows.old.items ++ (digest, term) ∷ []) }
    ensures unchanged { OnErr result (rows.new.items ≡ rows.old.items) }
{
    let len = rows.len();
    if len >= MOST_ROWS {
        return Err(EquivalenceError);
    }
    rows.reserve(1)?;
    let chain = (digest % tops.len() as u64) as usize;
    let before = tops[chain];
    rows.push(Row {
        digest,
        term,
        before,
    })
    .unwrap();
    tops[chain] = len as u32 + 1;
    Ok(())
}

// Keeps the first rows.
fn cut_rows(rows: &mut Vec<Row>, tops: &mut Vec<u32>, len: usize)
    requires chained { AreChained rows.old.items tops.old.items }
    ensures chained { AreChained rows.new.items tops.new.items }
    ensures first { rows.new.items ≡ take len rows.old.items }
{
    while rows.len() > len {
        pop_row(rows, tops);
    }
}

// Takes the last row away.
fn pop_row(rows: &mut Vec<Row>, tops: &mut Vec<u32>)
    requires chained { AreChained rows.old.items tops.old.items }
    requires some { 0 < length rows.old.items }
    ensures chained { AreChained rows.new.items tops.new.items }
    ensures first { rows.new.items ≡ take (length rows.old.items - 1) rows.old.items }
{
    let Some(row) = rows.pop() else {
        return;
    };
    let chain = (row.digest % tops.len() as u64) as usize;
    tops[chain] = row.before;
}
