//! Adds pending merges until none is left or two constructors meet.
ghost use Rattle.std.specs.Prelude.{◌≡◌, ◌<◌, ◌⊎◌, ◌∷◌, [], List, length, IfOk, IfSome, IfNone, MatchBool, Contains};
ghost use Rattle.ct_terms.specs.declared.ids.Lit.{Lit};
ghost use Rattle.ct_terms.specs.Terms.{AreSorted};
ghost use Rattle.ct_rules.specs.declared.equation.Equation.{Equation};
ghost use Rattle.ct_equivalence.specs.Over.{AreGroupingsOf};
ghost use Rattle.ct_congr.specs.declared.merge.Merge.{Merge};
ghost use Rattle.ct_congr.specs.declared.merge.Closed.TheVariants.{Quiet};
ghost use Rattle.ct_congr.specs.Partition.{InOneClass};
ghost use Rattle.ct_congr.specs.Sound.{IsSound};
ghost use Rattle.ct_congr.specs.Joined.{AreJoined, AreWaiting};
ghost use Rattle.ct_congr.specs.Covered.{AreKeys};
ghost use Rattle.ct_congr.specs.Step.{IsAdding};
ghost use Rattle.ct_congr.specs.History.{IsFurther};

use crate::adding::{Progress, add_merge};
use crate::error::CongrError;
use crate::merge::{Closed, Merge};
use crate::needed::are_equal;
use crate::store::reps;
use ct_rules::derivations;
use ct_sorts::Signature;
use ct_terms::{TermId, TermTable};
use std::alloc::Global;
use std::collections::VecDeque;

/// Adds the merges that wait, and those that they set off, until none waits. The answer is a clash where
/// two terms of different constructors meet; then nothing is said of what waits.
pub(crate) fn run(
    alloc: Global,
    sig: &Signature,
    table: &TermTable,
    progress: &mut Progress,
) -> Result<Closed, CongrError>
    requires sorted { AreSorted sig.now table.now }
    requires groupings { AreGroupingsOf table.now progress.old.store.parts }
    requires long { length progress.old.store.parts.now.reps ≡ length table.now }
    requires keys { AreKeys progress.old.store.parts.now.reps progress.old.keys }
    requires waits { AreWaiting sig.now table.now progress.old.store.parts.now.reps progress.old.waiting.items }
    ensures flag { progress.new.covered ≡ progress.old.covered }
    ensures further { IsFurther table.now progress.old.store.parts progress.new.store.parts progress.old.store.merges.items progress.new.store.merges.items progress.old.keys progress.new.keys }
    ensures sound { (hyps : List Lit) (given : List Equation)
        → IsSound sig.now table.now hyps given progress.old.store.parts.now.reps progress.old.store.parts.now.cons progress.old.store.merges.items
        → IsSound sig.now table.now hyps given progress.new.store.parts.now.reps progress.new.store.parts.now.cons progress.new.store.merges.items }
    ensures covered { IfOk result (IsAdding sig.now table.now progress.old.store.parts.now progress.new.store.parts.now progress.old.keys progress.new.keys
        (AreJoined progress.old.store.parts.now.reps progress.old.waiting.items) (AreJoined progress.new.store.parts.now.reps [])) }
    ensures empty { IfOk result (λ answer. answer ≡ Quiet → progress.new.waiting.items ≡ []) }
{
    derivations();
    while let Some(merge) = next(reps(&progress.store), &mut progress.waiting) {
        let answer = add_merge(alloc, sig, table, progress, merge)?;
        if !is_quiet(answer) {
            return Ok(answer);
        }
    }
    Ok(Closed::Quiet)
}

// The next merge whose sides are not of one class yet. Those before it are let go.
fn next(reps: &[TermId], waiting: &mut VecDeque<Merge>) -> Option<Merge>
    requires inside { (m : Merge) → Contains waiting.old.items m → (m.left.0 < length reps.now) × (m.right.0 < length reps.now) }
    ensures found { IfSome result (λ m. Contains waiting.old.items m × (InOneClass reps.now m.left m.right → ⊥)) }
    ensures rest { IfSome result (λ m. (n : Merge) → Contains waiting.old.items n → InOneClass reps.now n.left n.right ⊎ Contains (m ∷ waiting.new.items) n) }
    ensures from { (n : Merge) → Contains waiting.new.items n → Contains waiting.old.items n }
    ensures none { IfNone result ((waiting.new.items ≡ []) × ((n : Merge) → Contains waiting.old.items n → InOneClass reps.now n.left n.right)) }
{
    while let Some(merge) = waiting.pop_front() {
        if !are_equal(reps, merge.left, merge.right) {
            return Some(merge);
        }
    }
    None
}

/// Whether no class has two terms of different constructors.
pub(crate) fn is_quiet(answer: Closed) -> bool
    ensures value { MatchBool result (answer ≡ Quiet) (answer ≡ Quiet → ⊥) }
{
    match answer {
        Closed::Quiet => true,
        Closed::Clash(_, _) => false,
    }
}
