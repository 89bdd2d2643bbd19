//! Choices of a value for each of several variables, by their numbers; the first variable changes slowest.
ghost use Rattle.std.specs.Prelude.{◌≡◌, ◌<◌, ◌≤◌, ◌+◌, ◌*◌, ◌/◌, ◌%◌, length, All, IfOk, if◌then◌else◌};
ghost use Rattle.ct_finite.specs.Choosing.{first_like};
ghost use Rattle.ct_finite.specs.Counts.{most_values, capped, count_at};
ghost use Rattle.ct_finite.specs.Counting.{AreCapped, ways};
ghost use Rattle.ct_finite.specs.Entries.{digits};

use crate::count::capped;
use crate::error::FiniteError;
use ct_sorts::SortId;
use std::alloc::Global;

/// How many choices there are for variables of these sorts, or 4,097 where there are more.
pub(crate) fn choices_for(counts: &[u64], sorts: &[SortId]) -> u64
    requires inside { All (λ s. s.0 < length counts.now) sorts.now }
    requires capped { AreCapped counts.now }
    ensures bound { result ≤ most_values + 1 }
    ensures value { result ≡ capped (ways (count_at counts.now) sorts.now) }
{
    let mut product = 1;
    for s in sorts {
        product = capped(product * counts[s.0 as usize]);
    }
    product
}

/// The number of a choice as one number for each variable, in the list of its sort.
pub(crate) fn numbers_of(
    alloc: Global,
    counts: &[u64],
    sorts: &[SortId],
    k: u64,
) -> Result<Vec<u64>, FiniteError>
    requires inside { All (λ s. s.0 < length counts.now) sorts.now }
    requires capped { AreCapped counts.now }
    requires few { ways (count_at counts.now) sorts.now ≤ most_values }
    requires less { k < ways (count_at counts.now) sorts.now }
    ensures value { IfOk result (λ numbers. numbers.items ≡ digits (count_at counts.now) sorts.now k) }
{
    let mut numbers = Vec::with_capacity(alloc, sorts.len())?;
    let mut rest = choices_for(counts, sorts);
    let mut left = k;
    for s in sorts {
        rest /= counts[s.0 as usize];
        numbers.push(left / rest)?;
        left %= rest;
    }
    Ok(numbers)
}

/// The number of the first choice that has the same values for the variables whose flags are set.
pub(crate) fn first_like(counts: &[u64], sorts: &[SortId], flags: &[bool], k: u64) -> u64
    requires inside { All (λ s. s.0 < length counts.now) sorts.now }
    requires long { length flags.now ≡ length sorts.now }
    requires capped { AreCapped counts.now }
    requires few { ways (count_at counts.now) sorts.now ≤ most_values }
    requires less { k < ways (count_at counts.now) sorts.now }
    ensures value { result ≡ first_like (count_at counts.now) sorts.now flags.now k }
    ensures bound { result ≤ k }
{
    let mut first = 0;
    let mut rest = choices_for(counts, sorts);
    let mut left = k;
    for i in 0..sorts.len() {
        rest /= counts[sorts[i].0 as usize];
        first += gain(flags[i], left, rest);
        left %= rest;
    }
    first
}

// What the digit before the last ones counts, where it is kept.
fn gain(kept: bool, left: u64, rest: u64) -> u64
    requires some { 0 < rest }
    ensures value { result ≡ (if kept then left / rest else 0) * rest }
    ensures bound { result + left % rest ≤ left }
{
    if kept {
        return left - left % rest;
    }
    0
}
