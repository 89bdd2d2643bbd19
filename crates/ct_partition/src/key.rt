//! What a round of refinement compares of a point, and the map from that to numbers.
ghost use Rattle.std.specs.Prelude.{◌≡◌, ℕ, ◌<◌, ◌⊎◌, length, Some, IfOk, All, map};
ghost use Rattle.indexmap.specs.IndexMap.{get};
ghost use Rattle.ct_partition.specs.declared.key.Key.{Key};
ghost use Rattle.ct_partition.specs.KeyTest.{same_key};
ghost use Rattle.ct_partition.specs.Points.{points, ArePoints};
ghost use Rattle.ct_partition.specs.Partition.{block_at};
ghost use Rattle.ct_partition.specs.Refinement.{key_of};

use crate::children::children_of;
use crate::error::OutOfMemory;
use crate::numbers::Numbers;
use indexmap::IndexMap;
use std::alloc::Global;

/// The label of a point, its block, and the blocks of its children.
#[derive(Debug, Drop, PartialEq, Eq, Hash)]
pub(crate) struct Key {
    pub(crate) label: u64,
    pub(crate) block: usize,
    pub(crate) children: Numbers,
}

/// The key of a point, where the blocks have these numbers.
pub(crate) fn point_key(
    alloc: Global,
    labels: &[u64],
    starts: &[usize],
    children: &[usize],
    blocks: &[usize],
    i: usize,
) -> Result<Key, OutOfMemory>
    requires formed { ArePoints labels.now starts.now children.now }
    requires long { length blocks.now ≡ length labels.now }
    requires within { i < length labels.now }
    ensures value { IfOk result (λ key.
        key_of (points labels.now starts.now children.now) blocks.now i ≡ key) }
{
    let below = blocks_of(alloc, blocks, children_of(labels, starts, children, i))?;
    Ok(Key {
        label: labels[i],
        block: blocks[i],
        children: Numbers::new(below),
    })
}

// The blocks of these points.
fn blocks_of(alloc: Global, blocks: &[usize], points: &[usize]) -> Result<Vec<usize>, OutOfMemory>
    requires within { All (λ i. i < length blocks.now) points.now }
    ensures value { IfOk result (λ list. list.items ≡ map (block_at blocks.now) points.now) }
{
    let mut list = Vec::with_capacity(alloc, points.len())?;
    for i in points {
        list.push(blocks[*i])?;
    }
    Ok(list)
}

/// The number that the key has: the one that is stored for it, or this new one, which is then
/// stored.
pub(crate) fn number_of(
    known: &mut IndexMap<Key, usize>,
    key: Key,
    new: usize,
) -> Result<usize, OutOfMemory>
    ensures found { IfOk result (λ number. get same_key known.new key ≡ Some number) }
    ensures stay { IfOk result (λ number. (k : Key) (n : ℕ)
        → get same_key known.old k ≡ Some n
        → get same_key known.new k ≡ Some n) }
    ensures only { IfOk result (λ number. (k : Key) (n : ℕ)
        → get same_key known.new k ≡ Some n
        → (get same_key known.old k ≡ Some n) ⊎ ((k ≡ key) × (n ≡ new))) }
{
    if let Some(number) = known.get(&key) {
        return Ok(*number);
    }
    known.insert(key, new)?;
    Ok(new)
}
