//! Turns numbers into the least places that have them.
//!
//! A table holds for each number its least place. It is filled from the last place to the first, so that the least one is
//! what stays. The time is linear in the places and the largest number.
ghost use Rattle.std.specs.Prelude.{◌≡◌, ℕ, ◌<◌, ◌≤◌, length, IfOk, MatchBool};
ghost use Rattle.ct_values.specs.Partition.{class_at};
ghost use Rattle.ct_values.specs.Least.{AreLeast, ArePositive, TellsLeast};

use crate::error::ValueError;
use std::alloc::Global;

/// For each place the least one that has its number.
pub(crate) fn least_of(alloc: Global, numbers: &[usize]) -> Result<Vec<usize>, ValueError>
    requires positive { ArePositive numbers.now }
    ensures least { IfOk result (λ places. AreLeast numbers.now places.items) }
{
    let table = least_places(alloc, numbers)?;
    let mut places = Vec::with_capacity(alloc, numbers.len())?;
    for i in 0..numbers.len() {
        places.push(table[numbers[i] - 1])?;
    }
    Ok(places)
}

/// Whether no number is 0. Takes no memory.
pub(crate) fn are_positive(numbers: &[usize]) -> bool
    ensures value { MatchBool result (ArePositive numbers.now) (ArePositive numbers.now → ⊥) }
{
    for i in 0..numbers.len() {
        if numbers[i] == 0 {
            return false;
        }
    }
    true
}

// For each number, from 1 on, its least place.
fn least_places(alloc: Global, numbers: &[usize]) -> Result<Vec<usize>, ValueError>
    requires positive { ArePositive numbers.now }
    ensures least { IfOk result (λ table. TellsLeast numbers.now 0 table.items) }
{
    let mut table = vec![in alloc; 0; largest(numbers)]?;
    let mut i = numbers.len();
    'places: while i > 0 {
        i -= 1;
        table[numbers[i] - 1] = i;
    }
    Ok(table)
}

// The largest of the numbers, or 0.
fn largest(numbers: &[usize]) -> usize
    ensures above { (i : ℕ) → i < length numbers.now → class_at numbers.now i ≤ result }
{
    let mut largest = 0;
    for i in 0..numbers.len() {
        largest = largest.max(numbers[i]);
    }
    largest
}
