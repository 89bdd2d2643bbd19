//! Finds how far numbers that were found earlier are still those of equal terms.
ghost use Rattle.std.specs.Prelude.{◌≡◌, ◌+◌, ◌<◌, ◌≤◌, length, IfOk, IsTrue};
ghost use Rattle.ct_terms.specs.Children.{HasArgumentsBelow};
ghost use Rattle.ct_restriction.specs.Renamed.{number_in, renamed};
ghost use Rattle.ct_restriction.specs.Renumbered.{AreNumbersOf};

use crate::renaming::{number_in, renamed};
use ct_terms::{Core, TermId, TermTable};
use std::alloc::{AllocError, Global};

/// How many first terms of the table have the numbers in the list, in order, as those of equal terms of the other table. It looks
/// at these terms once each, and at what stands at their numbers. Its only error is out of memory.
pub fn equal_beginning(
    alloc: Global,
    from: &TermTable,
    to: &TermTable,
    numbers: &[TermId],
) -> Result<usize, AllocError>
    ensures few { IfOk result (λ count. count ≤ length from.now) }
    ensures listed { IfOk result (λ count. count ≤ length numbers.now) }
    ensures equal { IfOk result (AreNumbersOf from.now to.now numbers.now) }
{
    let _terms = from.len();
    let _others = to.len();
    let mut count = 0;
    while count < from.len() as usize && count < numbers.len() {
        if !is_next_equal(alloc, from, to, numbers, count)? {
            return Ok(count);
        }
        count += 1;
    }
    Ok(count)
}

// Whether the term at this index has its number in the list, where those before it have theirs.
fn is_next_equal(
    alloc: Global,
    from: &TermTable,
    to: &TermTable,
    numbers: &[TermId],
    index: usize,
) -> Result<bool, AllocError>
    requires within { index < length from.now }
    requires listed { index < length numbers.now }
    requires before { AreNumbersOf from.now to.now numbers.now index }
    ensures equal { IfOk result (λ is. IsTrue is → AreNumbersOf from.now to.now numbers.now (index + 1)) }
{
    let _terms = from.len();
    let _others = to.len();
    let t = TermId(index as u32);
    let number = number_in(numbers, t);
    if number.0 >= to.len() {
        return Ok(false);
    }
    is_renamed(alloc, from.core(t), numbers, to.core(number))
}

// Whether the second term is the first with each number right under it exchanged for the one that stands beside it in the list.
fn is_renamed(
    alloc: Global,
    core: &Core,
    numbers: &[TermId],
    other: &Core,
) -> Result<bool, AllocError>
    requires below { HasArgumentsBelow (length numbers.now) core.now }
    ensures renamed { IfOk result (λ is. IsTrue is → other.now ≡ renamed (number_in numbers.now) core.now) }
{
    let expected = renamed(alloc, core, numbers)?;
    let same = expected == *other;
    drop(expected);
    Ok(same)
}
