//! Terms of closed values of listable sorts: each is made once, after those under it.
ghost use Rattle.std.specs.Prelude.{◌≡◌, ◌⊎◌, ◌<◌, ◌≤◌, List, length, drop, Contains, Some, slice_get, OnOk, IfOk, IfErr};
ghost use Rattle.indexmap.specs.IndexMap.{get};
ghost use Rattle.ct_sorts.specs.declared.ids.SortId.{SortId};
ghost use Rattle.ct_sorts.specs.Declarations.{Declarations};
ghost use Rattle.ct_listing.specs.Closed.{ClosedValue};
ghost use Rattle.ct_listing.specs.Listable.{IsListable};
ghost use Rattle.ct_listing.specs.Listing.{listed};
ghost use Rattle.ct_finite.specs.Counts.{AreCounts, most_values};
ghost use Rattle.ct_finite.specs.Entries.{AreEntries};
ghost use Rattle.ct_operators.specs.Effect.{IsSoundTable};
ghost use Rattle.ct_terms.specs.Terms.{Terms};
ghost use Rattle.ct_terms.specs.declared.ids.TermId.{TermId};
ghost use Rattle.ct_scope.specs.declared.values.ListedValue.{ListedValue};
ghost use Rattle.ct_scope.specs.Values.{same_value, AreValueTerms, BindsValue, BindsValues};

use crate::bound::Bound;
use crate::open_value::value_term;
use ct_finite::Finite;
use ct_sorts::{Items, Signature, SortId};
use ct_terms::{TermError, TermId, TermTable};
use indexmap::IndexMap;
use std::alloc::Global;

/// A value of a listable sort.
#[derive(Clone, Copy, Debug, Drop, PartialEq, Eq, Hash)]
pub struct ListedValue {
    /// The sort.
    pub sort: SortId,
    /// The number of the value in the list of the sort, from 0 on.
    pub number: u64,
}

/// The terms of values that have been made.
pub type ValueTerms = IndexMap<ListedValue, TermId>;

/// No terms.
pub fn no_value_terms(alloc: Global) -> ValueTerms
    ensures right { (d : Declarations) (table : Terms) → AreValueTerms d table result }
{
    IndexMap::new(alloc)
}

/// What the variables of a quantifier stand for: for each variable whose flag is set, the term of the value with this
/// number in the list of its sort.
pub fn value_bounds(
    alloc: Global,
    sig: &Signature,
    finite: &Finite,
    terms: &mut ValueTerms,
    table: &mut TermTable,
    sorts: &[SortId],
    flags: &[bool],
    numbers: &[u64],
) -> Result<Items<Bound>, TermError>
    requires counts { AreCounts sig.now finite.now }
    requires kept { IsSoundTable sig.now table.old }
    requires sorts { (s : SortId) → Contains sorts.now s → IsListable sig.now s × (length (listed sig.now s) ≤ most_values) }
    requires chosen { (vs : List ClosedValue) × AreEntries sig.now sorts.now numbers.now vs }
    requires long { length flags.now ≡ length sorts.now }
    requires right { AreValueTerms sig.now table.old terms.old }
    ensures outcome { (vs : List ClosedValue) → AreEntries sig.now sorts.now numbers.now vs → BindsValues sig.now table.old table.new flags.now vs result }
    ensures right { OnOk result (AreValueTerms sig.now table.new terms.new) }
{
    let mut bounds = Vec::with_capacity(alloc, sorts.len())?;
    let mut left = flags;
    let mut others = numbers;
    let mut rest = sorts;
    while let [s, more @ ..] = rest {
        let occurs = first_flag(left);
        let k = first_number(others);
        left = later_flags(left);
        others = later_numbers(others);
        rest = more;
        let bound = value_bound(alloc, sig, finite, terms, table, *s, occurs, k)?;
        bounds.push(bound)?;
    }
    Ok(Items::new(bounds))
}

// What one variable stands for.
fn value_bound(
    alloc: Global,
    sig: &Signature,
    finite: &Finite,
    terms: &mut ValueTerms,
    table: &mut TermTable,
    s: SortId,
    occurs: bool,
    k: u64,
) -> Result<Bound, TermError>
    requires counts { AreCounts sig.now finite.now }
    requires kept { IsSoundTable sig.now table.old }
    requires listable { IsListable sig.now s }
    requires few { length (listed sig.now s) ≤ most_values }
    requires there { k < length (listed sig.now s) }
    requires right { AreValueTerms sig.now table.old terms.old }
    ensures outcome { (v : ClosedValue) → slice_get (listed sig.now s) k ≡ Some v → BindsValue sig.now table.old table.new occurs v result }
    ensures right { OnOk result (AreValueTerms sig.now table.new terms.new) }
{
    if !occurs {
        return Ok(Bound::Absent);
    }
    let term = value_term(alloc, sig, finite, terms, table, s, k)?;
    Ok(Bound::Term(term))
}

// The first of the flags.
fn first_flag(flags: &[bool]) -> bool
    requires some { 0 < length flags.now }
    ensures value { slice_get flags.now 0 ≡ Some result }
{
    flags[0]
}

// The flags after the first.
fn later_flags(flags: &[bool]) -> &[bool]
    requires some { 0 < length flags.now }
    ensures value { result.now ≡ drop 1 flags.now }
{
    &flags[1..]
}

// The first of the numbers.
fn first_number(numbers: &[u64]) -> u64
    requires some { 0 < length numbers.now }
    ensures value { slice_get numbers.now 0 ≡ Some result }
{
    numbers[0]
}

// The numbers after the first.
fn later_numbers(numbers: &[u64]) -> &[u64]
    requires some { 0 < length numbers.now }
    ensures value { result.now ≡ drop 1 numbers.now }
{
    &numbers[1..]
}

// The term of a value, where it is known.
pub(crate) fn known_value(terms: &ValueTerms, value: &ListedValue) -> Option<TermId>
    ensures value { result ≡ get same_value terms.now value.now }
{
    terms.get(value).copied()
}

// Puts down the term of a value.
pub(crate) fn remember_value(
    terms: &mut ValueTerms,
    value: ListedValue,
    term: TermId,
) -> Result<(), TermError>
    ensures only { OnOk result ((other : ListedValue) (t : TermId)
        → get same_value terms.new other ≡ Some t
        → (get same_value terms.old other ≡ Some t) ⊎ ((other ≡ value) × (t ≡ term))) }
    ensures err { IfErr result (λ e. e ≡ TermError.NoMemory) }
{
    terms.insert(value, term)?;
    Ok(())
}
