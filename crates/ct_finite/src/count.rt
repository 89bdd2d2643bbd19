//! The number of values of a sort by those of its fields' sorts. Numbers above 4,096 count as 4,097.
ghost use Rattle.std.specs.Prelude.{◌≡◌, ℕ, ◌+◌, ◌*◌, ◌<◌, ◌≤◌, length, map, Contains};
ghost use Rattle.ct_sorts.specs.Declarations.{IsSort, IsConstructor};
ghost use Rattle.ct_terms.specs.Fields.{ctor_ids_of_sort};
ghost use Rattle.ct_listing.specs.Listable.{field_sorts};
ghost use Rattle.ct_finite.specs.Counts.{most_values, capped, count_at};
ghost use Rattle.ct_finite.specs.Counting.{AreCapped, AreReady, total, ways};

use ct_sorts::{CtorId, Signature, SortId};

/// The greatest number of values that is told apart from more.
pub(crate) const MOST_VALUES: u64 = 4096;

/// In how many ways the constructors of the sort can be applied. 0 where the sort has no constructor, or one with a field of a
/// sort whose count is not known.
pub(crate) fn count_of_sort(sig: &Signature, counts: &[u64], s: SortId) -> u64
    requires inside { IsSort sig.now s }
    requires long { length counts.now ≡ length sig.now.sorts }
    requires capped { AreCapped counts.now }
    ensures bound { result ≤ most_values + 1 }
    ensures ready { 0 < result → AreReady sig.now counts.now (ctor_ids_of_sort sig.now s) }
    ensures value { 0 < result → result ≡ capped (total (count_at counts.now) sig.now (ctor_ids_of_sort sig.now s)) }
    ensures none { AreReady sig.now counts.now (ctor_ids_of_sort sig.now s) → 0 < length (ctor_ids_of_sort sig.now s) → 0 < result }
{
    let mut sum = 0;
    for c in sig.ctors(s) {
        let count = count_of_ctor(sig, counts, *c);
        if count == 0 {
            return 0;
        }
        sum = capped(sum + count);
    }
    sum
}

/// In how many ways the constructor can be applied. 0 where it has a field of a sort whose count is not known.
pub(crate) fn count_of_ctor(sig: &Signature, counts: &[u64], c: CtorId) -> u64
    requires inside { IsConstructor sig.now c }
    requires long { length counts.now ≡ length sig.now.sorts }
    requires capped { AreCapped counts.now }
    ensures bound { result ≤ most_values + 1 }
    ensures value { result ≡ capped (ways (count_at counts.now) (field_sorts sig.now c)) }
{
    let mut product = 1;
    for sel in sig.ctor_sels(c) {
        product = capped(product * counts[sig.sel_sort(*sel).0 as usize]);
    }
    product
}

/// The number, or 4,097 where it is greater.
pub(crate) fn capped(n: u64) -> u64
    ensures value { result ≡ capped n }
    ensures bound { result ≤ most_values + 1 }
{
    if MOST_VALUES < n {
        return MOST_VALUES + 1;
    }
    n
}
