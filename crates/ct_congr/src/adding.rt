//! Adds merges to classes one by one, with the merges that each triggers.
ghost use Rattle.std.specs.Prelude.{◌≡◌, ◌<◌, ◌++◌, ◌∷◌, [], List, length, IfOk, OnOk};
ghost use Rattle.ct_terms.specs.declared.ids.Lit.{Lit};
ghost use Rattle.ct_terms.specs.Terms.{AreSorted};
ghost use Rattle.ct_rules.specs.declared.equation.Equation.{Equation};
ghost use Rattle.ct_rules.specs.Derivation.{Derives};
ghost use Rattle.ct_equivalence.specs.Over.{AreGroupingsOf};
ghost use Rattle.ct_congr.specs.declared.merge.Merge.{Merge};
ghost use Rattle.ct_congr.specs.Partition.{InOneClass};
ghost use Rattle.ct_congr.specs.Reasons.{IsJustified};
ghost use Rattle.ct_congr.specs.Sound.{IsJoined, IsSound};
ghost use Rattle.ct_congr.specs.Joined.{AreJoined, AreWaiting};
ghost use Rattle.ct_congr.specs.Covered.{AreKeys};
ghost use Rattle.ct_congr.specs.Step.{IsAdding};
ghost use Rattle.ct_congr.specs.History.{IsFurther};

use crate::error::CongrError;
use crate::merge::{Closed, Merge};
use crate::spreading::follow;
use crate::store::{Store, join};
use ct_equivalence::DigestTable;
use ct_sorts::Signature;
use ct_terms::{TermId, TermTable};
use std::alloc::Global;
use std::collections::VecDeque;

/// Classes of terms, and how far they are closed under the rules.
#[derive(Drop)]
pub(crate) struct Progress {
    /// The classes, and how they came to be.
    pub(crate) store: Store,
    /// The terms that were met, each with the digest that it had over the representatives of that time.
    pub(crate) keys: DigestTable,
    /// The merges that the rules ask for, first in, first out.
    pub(crate) waiting: VecDeque<Merge>,
    /// Whether the merges that wait cover the rules. They do so until two constructors meet or memory runs out.
    pub(crate) covered: bool,
    /// The clash that was met last.
    pub(crate) clash: Option<(TermId, TermId)>,
}

/// Adds the merge, and lets wait what it sets off. The answer is a clash where two terms of different
/// constructors meet; then nothing is said of what waits.
pub(crate) fn add_merge(
    alloc: Global,
    sig: &Signature,
    table: &TermTable,
    progress: &mut Progress,
    merge: Merge,
) -> Result<Closed, CongrError>
    requires sorted { AreSorted sig.now table.now }
    requires groupings { AreGroupingsOf table.now progress.old.store.parts }
    requires left { merge.left.0 < length table.now }
    requires right { merge.right.0 < length table.now }
    requires keys { AreKeys progress.old.store.parts.now.reps progress.old.keys }
    ensures flag { progress.new.covered ≡ progress.old.covered }
    ensures further { IsFurther table.now progress.old.store.parts progress.new.store.parts progress.old.store.merges.items progress.new.store.merges.items progress.old.keys progress.new.keys }
    ensures sound { (hyps : List Lit) (given : List Equation)
        → IsJustified sig.now table.now hyps (InOneClass progress.old.store.parts.now.reps) merge
        → Derives sig.now table.now hyps given merge.left merge.right
        → IsSound sig.now table.now hyps given progress.old.store.parts.now.reps progress.old.store.parts.now.cons progress.old.store.merges.items
        → IsSound sig.now table.now hyps given progress.new.store.parts.now.reps progress.new.store.parts.now.cons progress.new.store.merges.items }
    ensures merges { OnOk result (progress.new.store.merges.items ≡ progress.old.store.merges.items ++ merge ∷ []) }
    ensures joined { OnOk result (IsJoined progress.old.store.parts.now.reps progress.new.store.parts.now.reps merge.left merge.right) }
    ensures waits { OnOk result (AreWaiting sig.now table.now progress.old.store.parts.now.reps progress.old.waiting.items
        → AreWaiting sig.now table.now progress.new.store.parts.now.reps progress.new.waiting.items) }
    ensures covered { IfOk result (IsAdding sig.now table.now progress.old.store.parts.now progress.new.store.parts.now progress.old.keys progress.new.keys
        (AreJoined progress.old.store.parts.now.reps (merge ∷ progress.old.waiting.items)) (AreJoined progress.new.store.parts.now.reps progress.new.waiting.items)) }
{
    prove!(progress.store.parts.unions() >= 0);
    let united = join(&mut progress.store, merge)?;
    let answer = follow(
        alloc,
        sig,
        table,
        &progress.store.parts,
        united,
        &mut progress.keys,
        &mut progress.waiting,
    )?;
    Ok(answer)
}
