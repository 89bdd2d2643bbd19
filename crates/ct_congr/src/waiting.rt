//! Merges that are pending until they are added to the classes.
ghost use Rattle.std.specs.Prelude.{◌≡◌, ◌<◌, ◌↔◌, [], Bool, true, length, MatchBool, OnOk, Some, slice_get, Contains};
ghost use Rattle.ct_sorts.specs.Declarations.{Declarations};
ghost use Rattle.ct_terms.specs.declared.ids.TermId.{TermId};
ghost use Rattle.ct_terms.specs.Terms.{Terms};
ghost use Rattle.ct_rules.specs.Rules.{truth_term};
ghost use Rattle.ct_congr.specs.declared.merge.Merge.{Merge};
ghost use Rattle.ct_congr.specs.Partition.{InOneClass};
ghost use Rattle.ct_congr.specs.Reasons.{IsReason, IsRule};
ghost use Rattle.ct_congr.specs.Joined.{AreJoined, WaitsOn};
ghost use Rattle.ct_congr.specs.Covered.{HasCon};

use crate::error::CongrError;
use crate::merge::{Merge, Reason};
use crate::needed::are_equal;
use ct_terms::TermId;
use std::collections::VecDeque;

/// The term `true`, the first one of each table.
pub(crate) const TRUE: TermId = TermId(0);

/// The term `false`, the second one of each table.
pub(crate) const FALSE: TermId = TermId(1);

/// Lets the merge wait, unless its sides are of one class.
pub(crate) fn let_wait(
    reps: &[TermId],
    waiting: &mut VecDeque<Merge>,
    left: TermId,
    right: TermId,
    why: Reason,
) -> Result<(), CongrError>
    requires left { left.0 < length reps.now }
    requires right { right.0 < length reps.now }
    ensures waits { OnOk result ((d : Declarations) (terms : Terms)
        → IsReason d terms [] (InOneClass reps.now) left right why
        → IsRule why
        → WaitsOn d terms reps.now waiting.old.items waiting.new.items) }
    ensures still { OnOk result ((m : Merge) → Contains waiting.old.items m → Contains waiting.new.items m) }
    ensures same { OnOk result (InOneClass reps.now left right → waiting.new.items ≡ waiting.old.items) }
    ensures joined { OnOk result (AreJoined reps.now waiting.new.items left right) }
{
    if are_equal(reps, left, right) {
        return Ok(());
    }
    waiting.push_back(Merge { left, right, why })?;
    Ok(())
}

/// The constructor term that is stored for the term's class.
pub(crate) fn con_at(reps: &[TermId], cons: &[Option<TermId>], u: TermId) -> Option<TermId>
    requires inside { u.0 < length reps.now }
    requires long { length cons.now ≡ length reps.now }
    requires own { (r : TermId) → slice_get reps.now u.0 ≡ Some r → r.0 < length reps.now }
    ensures value { (c : TermId) → (result ≡ Some c) ↔ HasCon reps.now cons.now u c }
{
    let r = reps[u.0 as usize];
    cons[r.0 as usize]
}

/// Whether `true` is stored for the term's class.
pub(crate) fn is_true(reps: &[TermId], cons: &[Option<TermId>], t: TermId) -> bool
    requires inside { t.0 < length reps.now }
    requires long { length cons.now ≡ length reps.now }
    requires own { (r : TermId) → slice_get reps.now t.0 ≡ Some r → r.0 < length reps.now }
    ensures value { MatchBool result (HasCon reps.now cons.now t (truth_term true)) (HasCon reps.now cons.now t (truth_term true) → ⊥) }
{
    let Some(con) = con_at(reps, cons, t) else {
        return false;
    };
    is_term(con, TRUE)
}

/// Whether the two are one term.
pub(crate) fn is_term(t: TermId, u: TermId) -> bool
    ensures value { MatchBool result (t ≡ u) (t ≡ u → ⊥) }
{
    t == u
}

/// The truth value that the term is.
pub(crate) fn truth_of(t: TermId) -> Option<bool>
    ensures value { (v : Bool) → (result ≡ Some v) ↔ (t ≡ truth_term v) }
{
    if t == TRUE {
        return Some(true);
    }
    if t == FALSE {
        return Some(false);
    }
    None
}
