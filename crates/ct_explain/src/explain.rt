//! Explanations of equations between terms of one class.
ghost use Rattle.std.specs.Prelude.{◌≡◌, ◌<◌, ℕ, None, replicate, length, IfOk, OnOk, OnErr};
ghost use Rattle.ct_congr.specs.State.{AreEqual};
ghost use Rattle.ct_explain.specs.Writing.{Told, HasWrittenMore, AreDone};
ghost use Rattle.ct_explain.specs.Explained.{IsExplained};
ghost use Rattle.ct_explain.specs.Trees.{IsForestOver, IsForestOfClasses};
ghost use Rattle.ct_explain.specs.Resting.{AreClosed, HasNumber, IsMarked};

use crate::error::ExplainError;
use crate::forest::{Forest, path};
use crate::merges::write_merge;
use crate::needed::{is_marked, needed};
use crate::proof::EqProof;
use crate::walk::write_way;
use crate::writer::Writer;
use ct_congr::Classes;
use ct_terms::TermId;
use std::alloc::Global;

impl Forest {
    /// Appends steps from the hypotheses of the classes to an equation between two terms of one class. The
    /// answer is the number of the step that states it. The forest is to be of these classes as they are.
    /// The steps of a merge are written once, so their number is linear in the merges that are needed and
    /// their ways. An error changes nothing, and comes only where memory ran out.
    pub fn explain(
        &self,
        classes: &Classes,
        a: TermId,
        b: TermId,
        into: &mut EqProof,
    ) -> Result<u64, ExplainError>
        requires equal { AreEqual classes.now a b }
        requires forest { IsForestOfClasses classes.now self.now }
        ensures explained { IfOk result (λ n. IsExplained classes.now into.old.steps.items into.new.steps.items n a b) }
        ensures unchanged { OnErr result (into.new.steps.items ≡ into.old.steps.items) }
    {
        let mut writer = Writer::new(self.alloc(), into.steps.len());
        let number = write(classes, self, a, b, &mut writer)?;
        let mut steps = writer.into_steps();
        into.steps.append(&mut steps)?;
        Ok(number)
    }
}

// Writes the needed merges, and then the equation.
fn write(
    classes: &Classes,
    forest: &Forest,
    a: TermId,
    b: TermId,
    writer: &mut Writer,
) -> Result<u64, ExplainError>
    requires equal { AreEqual classes.now a b }
    requires forest { IsForestOver classes.now forest.now.links }
    ensures grown { OnOk result (HasWrittenMore classes.now writer.old writer.new) }
    ensures told { IfOk result (λ n. Told writer.new n a b) }
{
    let bound = classes.merges().len();
    match path(forest, a, b, bound)? {
        Some(path) => {
            let marks = needed(classes, forest, &path)?;
            let done = write_needed(classes, forest, &marks, writer)?;
            let number = write_way(classes, &done, &path, a, b, writer)?;
            Ok(number)
        }
        None => unreachable!(),
    }
}

// Writes the equation of each marked merge, from the first to the last. The answer has their numbers.
fn write_needed(
    classes: &Classes,
    forest: &Forest,
    marks: &[bool],
    writer: &mut Writer,
) -> Result<Vec<Option<u64>>, ExplainError>
    requires forest { IsForestOver classes.now forest.now.links }
    requires closed { AreClosed classes.now forest.now.links marks.now }
    ensures grown { OnOk result (HasWrittenMore classes.now writer.old writer.new) }
    ensures done { IfOk result (λ done. AreDone writer.new classes.now.merges done.items) }
    ensures marked { IfOk result (λ done. (k : ℕ) → k < length classes.now.merges → IsMarked marks.now k → HasNumber done.items k) }
{
    let count = classes.merges().len();
    let mut done = none_done(forest.alloc(), count)?;
    for k in 0..count {
        write_next(classes, forest, marks, k, &mut done, writer)?;
    }
    Ok(done)
}

// No number for any of so many merges.
fn none_done(alloc: Global, count: usize) -> Result<Vec<Option<u64>>, ExplainError>
    ensures items { IfOk result (λ done. done.items ≡ replicate count None) }
{
    let mut done = Vec::new(alloc);
    for _ in 0..count {
        done.push(None)?;
    }
    Ok(done)
}

// Writes the equation of the merge with this number, where it is marked.
fn write_next(
    classes: &Classes,
    forest: &Forest,
    marks: &[bool],
    k: usize,
    done: &mut Vec<Option<u64>>,
    writer: &mut Writer,
) -> Result<(), ExplainError>
    requires forest { IsForestOver classes.now forest.now.links }
    requires inside { k < length classes.now.merges }
    requires long { length done.old.items ≡ length classes.now.merges }
    requires done { AreDone writer.old classes.now.merges done.old.items }
    requires closed { AreClosed classes.now forest.now.links marks.now }
    requires before { (j : ℕ) → j < k → IsMarked marks.now j → HasNumber done.old.items j }
    ensures grown { OnOk result (HasWrittenMore classes.now writer.old writer.new) }
    ensures long { length done.new.items ≡ length done.old.items }
    ensures done { OnOk result (AreDone writer.new classes.now.merges done.new.items) }
    ensures marked { OnOk result (IsMarked marks.now k → HasNumber done.new.items k) }
    ensures stays { OnOk result ((j : ℕ) → HasNumber done.old.items j → HasNumber done.new.items j) }
{
    if !is_marked(marks, k) {
        return Ok(());
    }
    let merges = classes.merges();
    let number = write_merge(classes, forest, &*done, k, &merges[k], writer)?;
    done[k] = Some(number);
    Ok(())
}
