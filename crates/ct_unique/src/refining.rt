//! The coarsest partition of the classes, by partition refinement.
ghost use Rattle.std.specs.Prelude.{◌≡◌, ◌<◌, ◌≤◌, ◌↔◌, ℕ, length, slice_index, IfOk};
ghost use Rattle.ct_terms.specs.declared.ids.TermId.{TermId};
ghost use Rattle.ct_congr.specs.State.{AreEqual, IsQuiet};
ghost use Rattle.ct_unique.specs.Partition.{block_of, AreAlike, IsCoarsest};
ghost use Rattle.ct_unique.specs.Nodes.{AreBlocks};

use crate::edges::rows;
use crate::error::UniqueError;
use crate::labelling::labels;
use crate::partition::Partition;
use ct_congr::Classes;
use ct_terms::TermId;
use std::alloc::Global;

/// The coarsest partition of the classes in which two classes of one block are one class, or have constructor terms with one
/// constructor and arguments in the same blocks (Reynolds and Blanchette 2015, section 4, on uniqueness). The classes are to
/// be closed without a clash. With n terms, whose stored constructor terms have e arguments in all and no more than w each,
/// the time is near (n + w e) log n. The only error is out of memory.
pub fn coarsest(alloc: Global, classes: &Classes) -> Result<Partition, UniqueError>
    requires quiet { IsQuiet classes.now }
    ensures coarsest { IfOk result (λ partition. IsCoarsest classes.now partition) }

    // Terms are in one block exactly where they are of one class or a bisimulation relates them.
    ensures exact { IfOk result (λ partition. (x y : TermId)
        → x.0 < length classes.now.terms
        → y.0 < length classes.now.terms
        → (block_of partition x ≡ block_of partition y) ↔ AreAlike classes.now x y) }
{
    let labels = labels(alloc, classes)?;
    let rows = rows(alloc, classes)?;
    let points = ct_partition::coarsest(alloc, &labels, &rows.starts, &rows.children)?;
    let by_term = blocks_of(alloc, classes, &points)?;
    Ok(Partition { blocks: by_term })
}

// For each term the block of its representative.
fn blocks_of(alloc: Global, classes: &Classes, points: &[usize]) -> Result<Vec<u32>, UniqueError>
    requires long { length points.now ≡ length classes.now.terms }
    requires least { (i : ℕ) → i < length classes.now.terms → slice_index points.now i ≤ i }
    ensures made { IfOk result (λ blocks. AreBlocks classes.now points.now (length classes.now.terms) blocks.items) }
{
    prove!(classes.merges().len() >= 0);
    let table = classes.table();
    let mut blocks = Vec::new(alloc);
    for t in 0..table.len() {
        let rep = classes.rep(TermId(t));
        prove!(rep.0 < table.len());
        blocks.push(points[rep.0 as usize] as u32)?;
    }
    Ok(blocks)
}
