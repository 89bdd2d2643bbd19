//! The points that still have to be looked at: those with a child whose block has a new number.
ghost use Rattle.std.specs.Prelude.{◌≡◌, ℕ, ◌<◌, ◌≤◌, length, IfOk, OnOk, All, IsTrue, ◌||◌, slice_index};
ghost use Rattle.ct_partition.specs.Sets.{has};
ghost use Rattle.ct_partition.specs.Parents.{in_row_of};

use crate::error::OutOfMemory;
use crate::numbers::Numbers;
use std::alloc::Global;

/// The parents of these points, each once. A point that is among them gets this stamp, which none had before.
pub(crate) fn parents_of(
    alloc: Global,
    parents: &[Numbers],
    changed: &[usize],
    stamps: &mut Vec<usize>,
    stamp: usize,
) -> Result<Vec<usize>, OutOfMemory>
    requires within { All (λ i. i < length parents.now) changed.now }
    requires rows { All (λ row. All (λ i. i < length stamps.old.items) row) parents.now }
    requires fresh { All (λ s. s < stamp) stamps.old.items }
    ensures parents { IfOk result (λ waiting. (i : ℕ)
        → has waiting.items i ≡ in_row_of parents.now changed.now i) }
    ensures stamps { OnOk result (All (λ s. s ≤ stamp) stamps.new.items) }
    ensures long { OnOk result (length stamps.new.items ≡ length stamps.old.items) }
{
    let mut waiting = Vec::new(alloc);
    for i in changed {
        add(parents[*i].as_slice(), stamps, stamp, &mut waiting)?;
    }
    Ok(waiting)
}

// Adds those of the points that do not have the stamp, and stamps them.
fn add(
    points: &[usize],
    stamps: &mut Vec<usize>,
    stamp: usize,
    waiting: &mut Vec<usize>,
) -> Result<(), OutOfMemory>
    requires within { All (λ i. i < length stamps.old.items) points.now }
    requires stamps { All (λ s. s ≤ stamp) stamps.old.items }
    requires stamped { (i : ℕ) → i < length stamps.old.items → slice_index stamps.old.items i ≡ stamp
        → IsTrue (has waiting.old.items i) }
    ensures long { OnOk result (length stamps.new.items ≡ length stamps.old.items) }
    ensures stamps { OnOk result (All (λ s. s ≤ stamp) stamps.new.items) }
    ensures stamped { OnOk result ((i : ℕ) → i < length stamps.new.items
        → slice_index stamps.new.items i ≡ stamp
        → IsTrue (has waiting.new.items i)) }
    ensures added { OnOk result ((i : ℕ)
        → has waiting.new.items i ≡ (has waiting.old.items i || has points.now i)) }
{
    for i in points {
        if stamps[*i] != stamp {
            stamps[*i] = stamp;
            waiting.push(*i)?;
        }
    }
    Ok(())
}
