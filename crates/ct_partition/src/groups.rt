//! Points in groups of equal keys.
ghost use Rattle.std.specs.Prelude.{◌≡◌, ℕ, ◌<◌, ◌≤◌, length, IfOk, OnOk, All, nat_eq, ◌||◌, ◌&&◌};
ghost use Rattle.ct_partition.specs.Points.{points, ArePoints};
ghost use Rattle.ct_partition.specs.Sets.{has, row_at, IsSaturated};
ghost use Rattle.ct_partition.specs.Refinement.{KeepsTogether};

use crate::error::OutOfMemory;
use crate::key::{number_of, point_key};
use crate::numbers::Numbers;
use indexmap::IndexMap;
use std::alloc::Global;

/// The waiting points in groups: one for each key that some of them have.
pub(crate) fn grouped(
    alloc: Global,
    labels: &[u64],
    starts: &[usize],
    children: &[usize],
    blocks: &[usize],
    waiting: &[usize],
) -> Result<Vec<Numbers>, OutOfMemory>
    requires formed { ArePoints labels.now starts.now children.now }
    requires together { KeepsTogether (points labels.now starts.now children.now) blocks.now }
    requires within { All (λ i. i < length labels.now) waiting.now }
    requires saturated { IsSaturated (points labels.now starts.now children.now) waiting.now }
    ensures within { IfOk result (λ groups.
        All (λ group. All (λ i. i < length labels.now) group) groups.items) }
    ensures saturated { IfOk result (λ groups.
        All (λ group. IsSaturated (points labels.now starts.now children.now) group) groups.items) }
{
    let mut known = IndexMap::new(alloc);
    let mut groups = Vec::new(alloc);
    for i in waiting {
        let key = point_key(alloc, labels, starts, children, blocks, *i)?;
        let group = number_of(&mut known, key, groups.len())?;
        put(alloc, &mut groups, group, *i)?;
    }
    Ok(groups)
}

// Puts the point into the group, which may be a new one after the last.
fn put(alloc: Global, groups: &mut Vec<Numbers>, group: usize, i: usize) -> Result<(), OutOfMemory>
    requires next { group ≤ length groups.old.items }
    ensures room { OnOk result (group < length groups.new.items) }
    ensures more { OnOk result (length groups.old.items ≤ length groups.new.items) }
    ensures put { OnOk result ((g j : ℕ) → has (row_at groups.new.items g) j
        ≡ (has (row_at groups.old.items g) j || (nat_eq group g && nat_eq i j))) }
{
    if group == groups.len() {
        groups.push(Numbers::new(Vec::new(alloc)))?;
    }
    groups[group].push(i)?;
    Ok(())
}
