//! The entries of the list of a sort, by their numbers: the constructor of an entry, and the numbers of its fields' values.
ghost use Rattle.std.specs.Prelude.{◌≡◌, ◌<◌, ◌≤◌, length, slice_get, Contains, IfOk};
ghost use Rattle.ct_sorts.specs.declared.ids.SortId.{SortId};
ghost use Rattle.ct_sorts.specs.Declarations.{IsSort, IsConstructor};
ghost use Rattle.ct_terms.specs.Fields.{ctor_ids_of_sort};
ghost use Rattle.ct_listing.specs.Listable.{IsListable, field_sorts};
ghost use Rattle.ct_listing.specs.Listing.{built_by, listed};
ghost use Rattle.ct_finite.specs.Counts.{AreCounts, count_at, most_values};
ghost use Rattle.ct_finite.specs.Counting.{ways, AreCapped};
ghost use Rattle.ct_finite.specs.Entries.{IsBuiltOf, digits};

use crate::count::count_of_ctor;
use crate::error::FiniteError;
use ct_listing::listed_values;
use ct_sorts::{CtorId, Signature, SortId};
use std::alloc::Global;

/// An entry of the list of a sort: its constructor, and for each field the number of the value that stands there in the list of
/// the field's sort.
#[derive(Debug, Drop)]
pub struct Part {
    /// The constructor.
    pub ctor: CtorId,
    /// The numbers of the fields' values, from 0 on.
    pub numbers: Vec<u64>,
}

/// The entry with this number.
pub(crate) fn part_at(
    alloc: Global,
    sig: &Signature,
    counts: &[u64],
    s: SortId,
    k: u64,
) -> Result<Part, FiniteError>
    requires inside { IsSort sig.now s }
    requires counts { AreCounts sig.now counts.now }
    requires listable { IsListable sig.now s }
    requires few { length (listed sig.now s) ≤ most_values }
    requires there { k < length (listed sig.now s) }
    ensures inside { IfOk result (λ part. Contains (ctor_ids_of_sort sig.now s) part.ctor × IsConstructor sig.now part.ctor) }
    ensures part { IfOk result (λ part. IsBuiltOf sig.now s k part.ctor part.numbers.items) }
    ensures fields { IfOk result (λ part. (f : SortId) → Contains (field_sorts sig.now part.ctor) f → IsListable sig.now f × (length (listed sig.now f) ≤ most_values)) }
{
    listed_values();
    prove!(sig.sorts() > 0);
    let (ctor, left) = ctor_at(sig, counts, s, k);
    let numbers = digits_of(alloc, sig, counts, ctor, left)?;
    Ok(Part { ctor, numbers })
}

// The constructor of the entry with this number, and the number of the entry among those of the constructor.
fn ctor_at(sig: &Signature, counts: &[u64], s: SortId, k: u64) -> (CtorId, u64)
    requires inside { IsSort sig.now s }
    requires counts { AreCounts sig.now counts.now }
    requires listable { IsListable sig.now s }
    requires few { length (listed sig.now s) ≤ most_values }
    requires there { k < length (listed sig.now s) }
    ensures inside { Contains (ctor_ids_of_sort sig.now s) result.0 × IsConstructor sig.now result.0 }
    ensures less { result.1 < length (built_by sig.now (listed sig.now) result.0) }
    ensures entry { slice_get (listed sig.now s) k ≡ slice_get (built_by sig.now (listed sig.now) result.0) result.1 }
{
    if counts[s.0 as usize] == sig.ctors(s).len() as u64 {
        return (single_at(sig, s, k), 0);
    }
    counted_at(sig, counts, s, k)
}

// The constructor of the entry with this number, where there are as many entries as constructors: each constructor has one.
fn single_at(sig: &Signature, s: SortId, k: u64) -> CtorId
    requires inside { IsSort sig.now s }
    requires listable { IsListable sig.now s }
    requires single { length (listed sig.now s) ≡ length (ctor_ids_of_sort sig.now s) }
    requires there { k < length (listed sig.now s) }
    ensures inside { Contains (ctor_ids_of_sort sig.now s) result × IsConstructor sig.now result }
    ensures less { 0 < length (built_by sig.now (listed sig.now) result) }
    ensures entry { slice_get (listed sig.now s) k ≡ slice_get (built_by sig.now (listed sig.now) result) 0 }
{
    listed_values();
    prove!(sig.sorts() > 0);
    sig.ctors(s)[k as usize]
}

// The same as `ctor_at`, whatever the numbers of entries of the constructors are.
fn counted_at(sig: &Signature, counts: &[u64], s: SortId, k: u64) -> (CtorId, u64)
    requires inside { IsSort sig.now s }
    requires counts { AreCounts sig.now counts.now }
    requires listable { IsListable sig.now s }
    requires few { length (listed sig.now s) ≤ most_values }
    requires there { k < length (listed sig.now s) }
    ensures inside { Contains (ctor_ids_of_sort sig.now s) result.0 × IsConstructor sig.now result.0 }
    ensures less { result.1 < length (built_by sig.now (listed sig.now) result.0) }
    ensures entry { slice_get (listed sig.now s) k ≡ slice_get (built_by sig.now (listed sig.now) result.0) result.1 }
{
    listed_values();
    prove!(sig.sorts() > 0);
    let mut left = k;
    for c in sig.ctors(s) {
        let count = count_of_ctor(sig, counts, *c);
        if left < count {
            return (*c, left);
        }
        left -= count;
    }
    (CtorId(0), 0)
}

// The number as one digit a field of the constructor, the first the greatest.
fn digits_of(
    alloc: Global,
    sig: &Signature,
    counts: &[u64],
    c: CtorId,
    k: u64,
) -> Result<Vec<u64>, FiniteError>
    requires inside { IsConstructor sig.now c }
    requires long { length counts.now ≡ length sig.now.sorts }
    requires capped { AreCapped counts.now }
    requires few { ways (count_at counts.now) (field_sorts sig.now c) ≤ most_values }
    requires less { k < ways (count_at counts.now) (field_sorts sig.now c) }
    ensures value { IfOk result (λ numbers. numbers.items ≡ digits (count_at counts.now) (field_sorts sig.now c) k) }
{
    let sels = sig.ctor_sels(c);
    let mut numbers = Vec::with_capacity(alloc, sels.len())?;
    let mut rest = count_of_ctor(sig, counts, c);
    let mut left = k;
    for sel in sels {
        rest /= counts[sig.sel_sort(*sel).0 as usize];
        numbers.push(left / rest)?;
        left %= rest;
    }
    Ok(numbers)
}
