//! Rounds of refinement over all points, until one changes nothing.
//!
//! A round puts points of one key into one block and names each block for its first point. The time of a round is
//! near-linear in the points and their children. Each round but the last one splits a block. From a partition that is
//! stable two rounds are enough.
ghost use Rattle.std.specs.Prelude.{◌≡◌, ◌↔◌, length, IfOk, IsTrue};
ghost use Rattle.ct_partition.specs.Points.{points, ArePoints};
ghost use Rattle.ct_partition.specs.Refinement.{KeepsTogether, IsPartition, IsRefined, IsSteady};

use crate::error::OutOfMemory;
use crate::key::{number_of, point_key};
use indexmap::IndexMap;
use std::alloc::Global;

/// The partition after rounds of refinement from this one, until one changed nothing.
pub(crate) fn settled(
    alloc: Global,
    labels: &[u64],
    starts: &[usize],
    children: &[usize],
    blocks: &[usize],
) -> Result<Vec<usize>, OutOfMemory>
    requires formed { ArePoints labels.now starts.now children.now }
    requires together { KeepsTogether (points labels.now starts.now children.now) blocks.now }
    ensures partition { IfOk result (λ blocks.
        IsPartition (points labels.now starts.now children.now) blocks.items) }
    ensures steady { IfOk result (λ blocks.
        IsSteady (points labels.now starts.now children.now) blocks.items) }
{
    let mut blocks = refined(alloc, labels, starts, children, blocks)?;
    loop {
        let next = refined(alloc, labels, starts, children, &blocks)?;
        if are_equal(&next, &blocks) {
            return Ok(next);
        }
        blocks = next;
    }
}

// The partition after one round.
fn refined(
    alloc: Global,
    labels: &[u64],
    starts: &[usize],
    children: &[usize],
    blocks: &[usize],
) -> Result<Vec<usize>, OutOfMemory>
    requires formed { ArePoints labels.now starts.now children.now }
    requires long { length blocks.now ≡ length labels.now }
    ensures refined { IfOk result (λ next.
        IsRefined (points labels.now starts.now children.now) blocks.now next.items) }
{
    let mut representatives = IndexMap::new(alloc);
    let mut next = Vec::with_capacity(alloc, blocks.len())?;
    for i in 0..blocks.len() {
        let key = point_key(alloc, labels, starts, children, blocks, i)?;
        next.push(number_of(&mut representatives, key, i)?)?;
    }
    Ok(next)
}

// Whether the two partitions are equal.
fn are_equal(blocks: &[usize], others: &[usize]) -> bool
    ensures value { IsTrue result ↔ (blocks.now ≡ others.now) }
{
    blocks == others
}
