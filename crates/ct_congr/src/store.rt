//! Classes with the merges that made them, and a constructor term of each class.
ghost use Rattle.std.specs.Prelude.{◌≡◌, ◌<◌, ◌++◌, ◌∷◌, [], length, IfOk, OnOk, OnErr, Some, slice_get};
ghost use Rattle.ct_terms.specs.declared.ids.TermId.{TermId};
ghost use Rattle.ct_terms.specs.Terms.{Terms};
ghost use Rattle.ct_equivalence.specs.Over.{AreGroupingsOf};
ghost use Rattle.ct_equivalence.specs.Union.{IsUnited};
ghost use Rattle.ct_congr.specs.Sound.{AreCons, IsJoined};
ghost use Rattle.ct_congr.specs.History.{IsExtended};

use crate::error::CongrError;
use crate::merge::{Merge, Reason};
use ct_equivalence::{Equivalence, Union};
use ct_terms::TermId;

/// Classes of terms, and how they came to be.
#[derive(Drop)]
pub(crate) struct Store {
    /// The classes.
    pub(crate) parts: Equivalence,
    /// The merges, in order.
    pub(crate) merges: Vec<Merge>,
}

/// The representative of each term.
pub(crate) fn reps(store: &Store) -> &[TermId]
    ensures value { result.now ≡ store.now.parts.now.reps }
    ensures own { (x r : TermId) → slice_get store.now.parts.now.reps x.0 ≡ Some r → slice_get store.now.parts.now.reps r.0 ≡ Some r }
{
    store.parts.reps()
}

/// Puts the merge to the others, and makes the classes of its sides one. An error changes nothing.
pub(crate) fn join(store: &mut Store, merge: Merge) -> Result<Option<Union>, CongrError>
    requires left { merge.left.0 < length store.old.parts.now.reps }
    requires right { merge.right.0 < length store.old.parts.now.reps }
    ensures united { IfOk result (IsUnited store.old.parts.now store.new.parts.now merge.left merge.right) }
    ensures past { OnOk result (store.new.parts.past ≡ store.old.parts.now ∷ store.old.parts.past) }
    ensures of { OnOk result ((terms : Terms) → AreGroupingsOf terms store.old.parts → AreGroupingsOf terms store.new.parts) }
    ensures merges { OnOk result (store.new.merges.items ≡ store.old.merges.items ++ merge ∷ []) }
    ensures parts_unchanged { OnErr result (store.new.parts ≡ store.old.parts) }
    ensures merges_unchanged { OnErr result (store.new.merges.items ≡ store.old.merges.items) }
{
    store.merges.reserve(1)?;
    let united = store.parts.unite(merge.left, merge.right)?;
    store.merges.push(merge).unwrap();
    Ok(united)
}

/// Adds a merge for this reason. An error changes nothing.
pub(crate) fn add(
    store: &mut Store,
    left: TermId,
    right: TermId,
    why: Reason,
) -> Result<(), CongrError>
    requires left { left.0 < length store.old.parts.now.reps }
    requires right { right.0 < length store.old.parts.now.reps }
    requires cons_long { length store.old.parts.now.cons ≡ length store.old.parts.now.reps }
    ensures joined { OnOk result (IsJoined store.old.parts.now.reps store.new.parts.now.reps left right) }
    ensures merges { OnOk result (store.new.merges.items ≡ store.old.merges.items ++ (record { left = left; right = right; why = why }) ∷ []) }
    ensures cons { OnOk result ((terms : Terms) → AreCons terms store.old.parts.now.reps store.old.parts.now.cons → AreCons terms store.new.parts.now.reps store.new.parts.now.cons) }
    ensures cons_long { length store.new.parts.now.cons ≡ length store.old.parts.now.cons }
    ensures extended { OnOk result (IsExtended store.old.parts store.new.parts store.old.merges.items store.new.merges.items) }
    ensures of { (terms : Terms) → AreGroupingsOf terms store.old.parts → AreGroupingsOf terms store.new.parts }
    ensures parts_unchanged { OnErr result (store.new.parts ≡ store.old.parts) }
    ensures merges_unchanged { OnErr result (store.new.merges.items ≡ store.old.merges.items) }
{
    join(store, Merge { left, right, why })?;
    Ok(())
}

/// A constructor term of the term's class, as it is stored at the representative.
pub(crate) fn con_of(store: &Store, t: TermId) -> Option<TermId>
    requires inside { t.0 < length store.now.parts.now.reps }
    ensures stored { (r : TermId) × (slice_get store.now.parts.now.reps t.0 ≡ Some r) × (slice_get store.now.parts.now.reps r.0 ≡ Some r) × (slice_get store.now.parts.now.cons r.0 ≡ Some result) }
{
    prove!(store.parts.rep(t).0 <= u32::MAX);
    store.parts.con_of(t)
}
