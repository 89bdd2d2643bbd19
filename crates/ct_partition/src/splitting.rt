//! Splits blocks by groups of points.
//!
//! Where a block falls into groups of points and the rest of it, the largest of these parts keeps the number of the
//! block, and each other part gets a new one. So a point that gets a new number is in a block of at most half the size,
//! which happens to it about log n times.
ghost use Rattle.std.specs.Prelude.{◌≡◌, ℕ, ◌<◌, length, IfOk, OnOk, All, nat_eq, ◌&&◌, if◌then◌else◌};
ghost use Rattle.ct_partition.specs.Points.{Points};
ghost use Rattle.ct_partition.specs.Partition.{block_at};
ghost use Rattle.ct_partition.specs.Sets.{has, IsSaturated};
ghost use Rattle.ct_partition.specs.Blocks.{AreBlocks, KeepAlike};

use crate::error::OutOfMemory;
use crate::numbers::Numbers;
use std::alloc::Global;
use std::cmp::Reverse;

/// Blocks with their numbers: for each point the number of its block, and for each number a row with all points of the
/// block, and perhaps points that were in it before, and how many points the block has.
#[derive(Drop)]
pub(crate) struct Blocks {
    pub(crate) numbers: Vec<usize>,
    pub(crate) rows: Vec<Numbers>,
    pub(crate) sizes: Vec<usize>,
}

/// Splits the blocks by the groups, each of which is within a block. The result has the points with new numbers.
pub(crate) fn split(
    alloc: Global,
    blocks: &mut Blocks,
    mut groups: Vec<Numbers>,
) -> Result<Vec<usize>, OutOfMemory>
    requires blocks { AreBlocks blocks.old.numbers.items blocks.old.rows.items blocks.old.sizes.items }
    requires within { All (λ group. All (λ i. i < length blocks.old.numbers.items) group) groups.items }
    ensures blocks { OnOk result
        (AreBlocks blocks.new.numbers.items blocks.new.rows.items blocks.new.sizes.items) }
    ensures long { OnOk result (length blocks.new.numbers.items ≡ length blocks.old.numbers.items) }
    ensures within { IfOk result (λ changed.
        All (λ i. i < length blocks.old.numbers.items) changed.items) }
    ensures alike { IfOk result (λ changed. (p : Points)
        → KeepAlike p blocks.old.numbers.items blocks.old.rows.items
        → All (λ group. IsSaturated p group) groups.items
        → KeepAlike p blocks.new.numbers.items blocks.new.rows.items
        × IsSaturated p changed.items) }
{
    // The largest group of a block comes last, when only the rest of the block is still with it.
    groups.sort_by_key(|group| Reverse(group.len()))?;
    let mut changed = Vec::new(alloc);
    while let Some(group) = groups.pop() {
        split_off(alloc, blocks, group, &mut changed)?;
    }
    Ok(changed)
}

// Splits the block of the group into the group and the rest of the block.
fn split_off(
    alloc: Global,
    blocks: &mut Blocks,
    group: Numbers,
    changed: &mut Vec<usize>,
) -> Result<(), OutOfMemory>
    requires blocks { AreBlocks blocks.old.numbers.items blocks.old.rows.items blocks.old.sizes.items }
    requires within { All (λ i. i < length blocks.old.numbers.items) group }
    requires changed { All (λ i. i < length blocks.old.numbers.items) changed.old.items }
    ensures blocks { OnOk result
        (AreBlocks blocks.new.numbers.items blocks.new.rows.items blocks.new.sizes.items) }
    ensures long { OnOk result (length blocks.new.numbers.items ≡ length blocks.old.numbers.items) }
    ensures within { OnOk result (All (λ i. i < length blocks.old.numbers.items) changed.new.items) }
    ensures alike { OnOk result ((p : Points)
        → KeepAlike p blocks.old.numbers.items blocks.old.rows.items
        → IsSaturated p group
        → IsSaturated p changed.old.items
        → KeepAlike p blocks.new.numbers.items blocks.new.rows.items
        × IsSaturated p changed.new.items) }
{
    let [first, ..] = group.as_slice() else {
        return Ok(());
    };
    let number = blocks.numbers[*first];
    let others = blocks.sizes[number].saturating_sub(group.len());
    if group.len() <= others {
        blocks.sizes[number] = others;
        return give_new_number(blocks, group, changed);
    }
    if others == 0 {
        return Ok(());
    }
    blocks.sizes[number] = group.len();
    let rest = take_rest(alloc, blocks, group, number)?;
    give_new_number(blocks, rest, changed)
}

// Takes the points outside the group out of the row of the block with this number. They have its number still.
fn take_rest(
    alloc: Global,
    blocks: &mut Blocks,
    group: Numbers,
    number: usize,
) -> Result<Numbers, OutOfMemory>
    requires blocks { AreBlocks blocks.old.numbers.items blocks.old.rows.items blocks.old.sizes.items }
    requires within { All (λ i. i < length blocks.old.numbers.items) group }
    requires number { number < length blocks.old.rows.items }
    ensures blocks { OnOk result
        (AreBlocks blocks.new.numbers.items blocks.new.rows.items blocks.new.sizes.items) }
    ensures long { OnOk result (length blocks.new.numbers.items ≡ length blocks.old.numbers.items) }
    ensures within { IfOk result (λ rest. All (λ i. i < length blocks.old.numbers.items) rest) }
    ensures alike { IfOk result (λ rest. (p : Points)
        → KeepAlike p blocks.old.numbers.items blocks.old.rows.items
        → IsSaturated p group
        → KeepAlike p blocks.new.numbers.items blocks.new.rows.items × IsSaturated p rest) }
{
    // Apart from the group, which for a moment has a number of no block, the block is the rest.
    renumber(&mut blocks.numbers, group.as_slice(), blocks.rows.len());
    let rest = with_number(
        alloc,
        blocks.rows[number].as_slice(),
        &blocks.numbers,
        number,
    )?;
    renumber(&mut blocks.numbers, group.as_slice(), number);
    blocks.rows[number] = group;
    Ok(rest)
}

// Makes a block of these points, with the next number.
fn give_new_number(
    blocks: &mut Blocks,
    points: Numbers,
    changed: &mut Vec<usize>,
) -> Result<(), OutOfMemory>
    requires blocks { AreBlocks blocks.old.numbers.items blocks.old.rows.items blocks.old.sizes.items }
    requires within { All (λ i. i < length blocks.old.numbers.items) points }
    requires changed { All (λ i. i < length blocks.old.numbers.items) changed.old.items }
    ensures blocks { OnOk result
        (AreBlocks blocks.new.numbers.items blocks.new.rows.items blocks.new.sizes.items) }
    ensures long { OnOk result (length blocks.new.numbers.items ≡ length blocks.old.numbers.items) }
    ensures within { OnOk result (All (λ i. i < length blocks.old.numbers.items) changed.new.items) }
    ensures alike { OnOk result ((p : Points)
        → KeepAlike p blocks.old.numbers.items blocks.old.rows.items
        → IsSaturated p points
        → IsSaturated p changed.old.items
        → KeepAlike p blocks.new.numbers.items blocks.new.rows.items
        × IsSaturated p changed.new.items) }
{
    changed.extend_from_slice(points.as_slice())?;
    renumber(&mut blocks.numbers, points.as_slice(), blocks.rows.len());
    blocks.sizes.push(points.len())?;
    blocks.rows.push(points)?;
    Ok(())
}

// Gives each of these points the number.
fn renumber(numbers: &mut Vec<usize>, points: &[usize], number: usize)
    requires within { All (λ i. i < length numbers.old.items) points.now }
    ensures long { length numbers.new.items ≡ length numbers.old.items }
    ensures value { (i : ℕ) → i < length numbers.old.items → block_at numbers.new.items i
        ≡ (if has points.now i then number else block_at numbers.old.items i) }
{
    for i in points {
        numbers[*i] = number;
    }
}

// Those of the points that have the number.
fn with_number(
    alloc: Global,
    points: &[usize],
    numbers: &[usize],
    number: usize,
) -> Result<Numbers, OutOfMemory>
    requires within { All (λ i. i < length numbers.now) points.now }
    ensures value { IfOk result (λ stored. (i : ℕ)
        → has stored i ≡ (has points.now i && nat_eq (block_at numbers.now i) number)) }
{
    let mut stored = Numbers::new(Vec::new(alloc));
    for i in points {
        if numbers[*i] == number {
            stored.push(*i)?;
        }
    }
    Ok(stored)
}
