//! That terms of one class are of one sort, and so are two terms that a reason makes equal.
ghost use Rattle.std.specs.Prelude.{List, Contains};
ghost use Rattle.ct_sorts.specs.declared.ids.SortId.{SortId};
ghost use Rattle.ct_terms.specs.declared.ids.TermId.{TermId};
ghost use Rattle.ct_terms.specs.declared.ids.Lit.{Lit};
ghost use Rattle.ct_terms.specs.Literal.{IsStripped};
ghost use Rattle.ct_terms.specs.Terms.{IsOfSort, AreSorted};
ghost use Rattle.ct_congr.specs.declared.merge.Reason.{Reason};
ghost use Rattle.ct_congr.specs.declared.merge.Merge.{Merge};
ghost use Rattle.ct_congr.specs.Partition.{InOneClass};
ghost use Rattle.ct_congr.specs.Reasons.{IsReason};
ghost use Rattle.ct_congr.specs.Merges.{AreConnected, AreJustified};

use ct_sorts::{Signature, structure};
use ct_terms::TermTable;

/// Terms that justified merges connect are of one sort, and so are the sides of a further merge. It
/// does nothing: a proof that needs this calls it.
pub(crate) fn one_sort(sig: &Signature, table: &TermTable)
    ensures one_sort { (hyps : List Lit) (merges : List Merge)
        → AreSorted sig.now table.now
        → ((l : Lit) → Contains hyps l → IsStripped table.now l.term)
        → AreJustified sig.now table.now hyps merges
        → (x y : TermId) → AreConnected merges x y
        → (s : SortId) → IsOfSort table.now x s → IsOfSort table.now y s }
    ensures sides { (hyps : List Lit) (merges : List Merge)
        → AreSorted sig.now table.now
        → ((l : Lit) → Contains hyps l → IsStripped table.now l.term)
        → AreJustified sig.now table.now hyps merges
        → (reps : List TermId)
        → ((x y : TermId) → InOneClass reps x y → AreConnected merges x y)
        → (x y : TermId) (why : Reason) → IsReason sig.now table.now hyps (InOneClass reps) x y why
        → (s : SortId) × IsOfSort table.now x s × IsOfSort table.now y s }
{
    structure();
    prove!(sig.sorts() > 0);
    prove!(table.len() >= 2);
}
