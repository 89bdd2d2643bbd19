//! Uniqueness: pairs of constructor terms that cannot be told apart (Reynolds and Blanchette 2015, section 4).
ghost use Rattle.std.specs.Prelude.{◌≡◌, ◌↔◌, ℕ, Some, slice_get, IsTrue};
ghost use Rattle.ct_terms.specs.declared.ids.TermId.{TermId};
ghost use Rattle.ct_log.specs.declared.rules.Pair.{Pair};
ghost use Rattle.ct_log.specs.Equations.{AreUnique, IsPairBy, AreEntriesFor, IsEntryFor, equation};

use crate::look::gave;
use crate::rules::{Entry, Pair};
use ct_rules::Equation;
use ct_terms::{Core, TermId, TermTable};

/// The equation of the pair with this number, where all pairs are of terms that cannot be told apart.
pub(crate) fn unique(
    table: &TermTable,
    given: &[Equation],
    number: u64,
    pairs: &[Pair],
) -> Option<Equation>
    ensures unique { (x y : TermId) → AreUnique table.now given.now number pairs.now x y ↔ (result ≡ Some (equation x y)) }
{
    if number >= pairs.len() as u64 || !are_pairs(table, given, pairs) {
        return None;
    }
    let asked = &pairs[number as usize];
    Some(Equation {
        left: asked.left,
        right: asked.right,
    })
}

// Whether every pair is of two terms of one constructor, with an entry for the arguments at each place.
fn are_pairs(table: &TermTable, given: &[Equation], pairs: &[Pair]) -> bool
    ensures each { IsTrue result ↔ ((index : ℕ) (pair : Pair) → slice_get pairs.now index ≡ Some pair → IsPairBy table.now given.now pairs.now pair) }
{
    for pair in pairs {
        if !is_pair(table, given, pairs, pair) {
            return false;
        }
    }
    true
}

// Whether the pair is of two terms of one constructor, with an entry for the arguments at each place.
fn is_pair(table: &TermTable, given: &[Equation], pairs: &[Pair], pair: &Pair) -> bool
    ensures pair { IsTrue result ↔ IsPairBy table.now given.now pairs.now pair.now }
{
    if pair.left.0 >= table.len() || pair.right.0 >= table.len() {
        return false;
    }
    match table.core(pair.left) {
        Core::Con(c, xs) => match table.core(pair.right) {
            Core::Con(d, ys) => {
                *c == *d
                    && are_entries(
                        given,
                        pairs,
                        pair.entries.as_slice(),
                        xs.as_slice(),
                        ys.as_slice(),
                    )
            }
            _ => false,
        },
        _ => false,
    }
}

// Whether the entries say why these terms are equal, one for one.
fn are_entries(
    given: &[Equation],
    pairs: &[Pair],
    entries: &[Entry],
    xs: &[TermId],
    ys: &[TermId],
) -> bool
    ensures entries { IsTrue result ↔ AreEntriesFor given.now pairs.now entries.now xs.now ys.now }
{
    if xs.len() != entries.len() {
        return false;
    }
    if ys.len() != entries.len() {
        return false;
    }
    for i in 0..entries.len() {
        if !is_entry(given, pairs, entries[i], xs[i], ys[i]) {
            return false;
        }
    }
    true
}

// Whether the entry says why the two terms are equal.
fn is_entry(given: &[Equation], pairs: &[Pair], entry: Entry, x: TermId, y: TermId) -> bool
    ensures entry { IsTrue result ↔ IsEntryFor given.now pairs.now entry x y }
{
    match entry {
        Entry::Step(i) => gave(given, i, x, y),
        Entry::Pair(k, i, j) => {
            if k >= pairs.len() as u64 {
                return false;
            }
            let pair = &pairs[k as usize];
            gave(given, i, x, pair.left) && gave(given, j, pair.right, y)
        }
    }
}
