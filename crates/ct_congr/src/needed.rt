//! Collecting the merges that the rules ask for and that the classes do not have yet.
ghost use Rattle.std.specs.Prelude.{◌≡◌, ◌<◌, [], List, length, MatchBool, OnOk};
ghost use Rattle.ct_sorts.specs.Declarations.{Declarations};
ghost use Rattle.ct_terms.specs.declared.ids.Lit.{Lit};
ghost use Rattle.ct_terms.specs.Terms.{Terms};
ghost use Rattle.ct_congr.specs.Partition.{InOneClass};
ghost use Rattle.ct_congr.specs.Reasons.{IsReason, IsRule};
ghost use Rattle.ct_congr.specs.Needed.{AreNeeded};

use crate::error::CongrError;
use crate::merge::{Merge, Reason};
use ct_terms::TermId;

/// Whether the two terms are of one class.
pub(crate) fn are_equal(reps: &[TermId], left: TermId, right: TermId) -> bool
    requires left { left.0 < length reps.now }
    requires right { right.0 < length reps.now }
    ensures value { MatchBool result (InOneClass reps.now left right) (InOneClass reps.now left right → ⊥) }
{
    reps[left.0 as usize] == reps[right.0 as usize]
}

/// Puts the merge to those that are needed, unless its sides are of one class.
pub(crate) fn need(
    reps: &[TermId],
    found: &mut Vec<Merge>,
    left: TermId,
    right: TermId,
    why: Reason,
) -> Result<(), CongrError>
    requires left { left.0 < length reps.now }
    requires right { right.0 < length reps.now }
    ensures needed { OnOk result ((d : Declarations) (terms : Terms) (hyps : List Lit)
        → IsReason d terms hyps (InOneClass reps.now) left right why
        → IsRule why
        → AreNeeded d terms hyps reps.now found.old.items
        → AreNeeded d terms hyps reps.now found.new.items) }
    ensures same { OnOk result (InOneClass reps.now left right → found.new.items ≡ found.old.items) }
    ensures none { OnOk result (found.new.items ≡ [] → (found.old.items ≡ []) × InOneClass reps.now left right) }
{
    if are_equal(reps, left, right) {
        return Ok(());
    }
    found.push(Merge { left, right, why })?;
    Ok(())
}
