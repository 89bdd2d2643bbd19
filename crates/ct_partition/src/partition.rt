//! The coarsest stable partition of labelled points with ordered children.
//!
//! First all points are one block and wait to be looked at. Each round puts the waiting points into
//! groups by their labels, their blocks and the blocks of their children, and splits blocks by these
//! groups; then the parents of all points with new numbers wait. The largest part of a block that is
//! split keeps its number (`splitting.rt`). So with n points that have e children in all, and no
//! more than w each, the time is near (n + w e) log n. That points which cannot be told apart stay
//! together is proved of this; that the partition is stable in the end is seen by rounds over all
//! points (`rounds.rt`).
ghost use Rattle.std.specs.Prelude.{◌≡◌, ℕ, ◌<◌, ◌↔◌, length, nat_lt, IfOk, All};
ghost use Rattle.ct_partition.specs.Points.{Points, points, ArePoints};
ghost use Rattle.ct_partition.specs.Bisimilarity.{AgreeAlways, AreBisimilar};
ghost use Rattle.ct_partition.specs.Partition.{block_at, IsStable, IsCoarsest, AreLeastPoints};
ghost use Rattle.ct_partition.specs.Sets.{has};
ghost use Rattle.ct_partition.specs.Refinement.{KeepsTogether};
ghost use Rattle.ct_partition.specs.Blocks.{AreBlocks, KeepAlike};

use crate::error::OutOfMemory;
use crate::groups::grouped;
use crate::numbers::Numbers;
use crate::parents::parents;
use crate::rounds::settled;
use crate::splitting::{Blocks, split};
use crate::waiting::parents_of;
use std::alloc::Global;

/// For each point the number of its block in the coarsest stable partition: two points share a block exactly if they
/// cannot be distinguished by their labels and, in order, by those of their children, the children of these, and so on.
/// The number of a block is that of its least point. A point that is to be told from all others has a label of its own.
///
/// Point i has the label `labels[i]` and the children `children[starts[i]..starts[i + 1]]`, in order
/// (`are_points`). With n points that have e children in all, and no more than w each, the time is
/// near (n + w e) log n. Nothing recurses. The only error is out of memory.
pub fn coarsest(
    alloc: Global,
    labels: &[u64],
    starts: &[usize],
    children: &[usize],
) -> Result<Vec<usize>, OutOfMemory>
    requires formed { ArePoints labels.now starts.now children.now }
    ensures long { IfOk result (λ blocks. length blocks.items ≡ length labels.now) }
    ensures stable { IfOk result (λ blocks.
        IsStable (points labels.now starts.now children.now) blocks.items) }
    ensures coarsest { IfOk result (λ blocks.
        IsCoarsest (points labels.now starts.now children.now) blocks.items) }
    ensures least { IfOk result (λ blocks.
        AreLeastPoints (points labels.now starts.now children.now) blocks.items) }
    ensures agreement { IfOk result (λ blocks. (i j : ℕ)
        → i < length labels.now
        → j < length labels.now
        → (block_at blocks.items i ≡ block_at blocks.items j)
        ↔ AgreeAlways (points labels.now starts.now children.now) i j) }
    ensures bisimilarity { IfOk result (λ blocks. (i j : ℕ)
        → i < length labels.now
        → j < length labels.now
        → (block_at blocks.items i ≡ block_at blocks.items j)
        ↔ AreBisimilar (points labels.now starts.now children.now) i j) }
{
    let split = split_by_changes(alloc, labels, starts, children)?;
    let blocks = settled(alloc, labels, starts, children, &split)?;
    Ok(blocks)
}

// A partition in which points that agree at every depth are in one block. That it is stable too has no clause: the rounds
// after it see to that.
fn split_by_changes(
    alloc: Global,
    labels: &[u64],
    starts: &[usize],
    children: &[usize],
) -> Result<Vec<usize>, OutOfMemory>
    requires formed { ArePoints labels.now starts.now children.now }
    ensures together { IfOk result (λ blocks.
        KeepsTogether (points labels.now starts.now children.now) blocks.items) }
{
    let parents = parents(alloc, labels, starts, children)?;
    let mut blocks = one_block(alloc, labels.len())?;
    let mut waiting = numbers_below(alloc, labels.len())?;
    let mut stamps = zeros(alloc, labels.len())?;
    // Each round with a waiting point but the last gives a new number, of which there are no more than points.
    for round in 0..labels.len() {
        if waiting.is_empty() {
            break;
        }
        let groups = grouped(alloc, labels, starts, children, &blocks.numbers, &waiting)?;
        let changed = split(alloc, &mut blocks, groups)?;
        waiting = parents_of(alloc, &parents, &changed, &mut stamps, round + 1)?;
    }
    Ok(blocks.numbers)
}

// All points in one block, with the number 0.
fn one_block(alloc: Global, count: usize) -> Result<Blocks, OutOfMemory>
    ensures blocks { IfOk result (λ blocks.
        AreBlocks blocks.numbers.items blocks.rows.items blocks.sizes.items) }
    ensures long { IfOk result (λ blocks. length blocks.numbers.items ≡ count) }
    ensures alike { IfOk result (λ blocks. (p : Points)
        → p.count ≡ count
        → KeepAlike p blocks.numbers.items blocks.rows.items) }
{
    let all = numbers_below(alloc, count)?;
    let numbers = zeros(alloc, count)?;
    let mut rows = Vec::new(alloc);
    rows.push(Numbers::new(all))?;
    let mut sizes = Vec::new(alloc);
    sizes.push(count)?;
    Ok(Blocks {
        numbers,
        rows,
        sizes,
    })
}

// The numbers below this one.
fn numbers_below(alloc: Global, count: usize) -> Result<Vec<usize>, OutOfMemory>
    ensures value { IfOk result (λ list. (i : ℕ) → has list.items i ≡ nat_lt i count) }
{
    let mut list = Vec::with_capacity(alloc, count)?;
    for i in 0..count {
        list.push(i)?;
    }
    Ok(list)
}

// So many zeros.
fn zeros(alloc: Global, count: usize) -> Result<Vec<usize>, OutOfMemory>
    ensures long { IfOk result (λ list. length list.items ≡ count) }
    ensures zeros { IfOk result (λ list. All (λ n. n ≡ 0) list.items) }
{
    let mut list = Vec::with_capacity(alloc, count)?;
    for _ in 0..count {
        list.push(0)?;
    }
    Ok(list)
}
