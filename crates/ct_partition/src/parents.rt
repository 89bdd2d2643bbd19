//! The parents of each point: those that have it as a child.
ghost use Rattle.std.specs.Prelude.{◌≡◌, ℕ, ◌<◌, length, [], IfOk, OnOk, All, nat_eq, ◌||◌, ◌&&◌};
ghost use Rattle.ct_partition.specs.Points.{points, ArePoints};
ghost use Rattle.ct_partition.specs.Sets.{has, row_at};
ghost use Rattle.ct_partition.specs.Parents.{AreParents};

use crate::children::children_of;
use crate::error::OutOfMemory;
use crate::numbers::Numbers;
use std::alloc::Global;

/// For each point the points of which it is a child. The time is linear in the points and their children.
pub(crate) fn parents(
    alloc: Global,
    labels: &[u64],
    starts: &[usize],
    children: &[usize],
) -> Result<Vec<Numbers>, OutOfMemory>
    requires formed { ArePoints labels.now starts.now children.now }
    ensures parents { IfOk result (λ rows.
        AreParents (points labels.now starts.now children.now) rows.items) }
{
    let mut rows = empty_rows(alloc, labels.len())?;
    for i in 0..labels.len() {
        add_parent(&mut rows, children_of(labels, starts, children, i), i)?;
    }
    Ok(rows)
}

// So many rows without points.
fn empty_rows(alloc: Global, count: usize) -> Result<Vec<Numbers>, OutOfMemory>
    ensures long { IfOk result (λ rows. length rows.items ≡ count) }
    ensures empty { IfOk result (λ rows. (n : ℕ) → row_at rows.items n ≡ []) }
{
    let mut rows = Vec::with_capacity(alloc, count)?;
    for _ in 0..count {
        rows.push(Numbers::new(Vec::new(alloc)))?;
    }
    Ok(rows)
}

// Puts the parent into the row of each of these children.
fn add_parent(rows: &mut Vec<Numbers>, children: &[usize], parent: usize) -> Result<(), OutOfMemory>
    requires within { All (λ child. child < length rows.old.items) children.now }
    ensures long { OnOk result (length rows.new.items ≡ length rows.old.items) }
    ensures added { OnOk result ((child i : ℕ) → has (row_at rows.new.items child) i
        ≡ (has (row_at rows.old.items child) i || (nat_eq parent i && has children.now child))) }
{
    for child in children {
        rows[*child].push(parent)?;
    }
    Ok(())
}
