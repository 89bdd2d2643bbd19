//! What it means that pending merges cover the rules. Each theorem is the contract of a function that does nothing.
ghost use Rattle.std.specs.Prelude.{[], List, Option};
ghost use Rattle.ct_sorts.specs.Declarations.{Declarations};
ghost use Rattle.ct_terms.specs.declared.ids.TermId.{TermId};
ghost use Rattle.ct_terms.specs.Terms.{Terms, AreSorted, AreSingle, BeginsWithTruths};
ghost use Rattle.ct_congr.specs.Partition.{InOneClass};
ghost use Rattle.ct_congr.specs.Rules.{AreRulesClosed};
ghost use Rattle.ct_congr.specs.State.{IsClashOf};
ghost use Rattle.ct_congr.specs.Joined.{AreJoined};
ghost use Rattle.ct_congr.specs.Covered.{Keys, IsGrouped, IsCovered};

/// Where the rules are covered and no merge waits, the classes are closed under all rules but
/// uniqueness, and no class has two terms of different constructors. It does nothing: a proof that needs
/// this calls it.
pub(crate) fn covering()
    ensures closed { (d : Declarations) (terms : Terms) (reps : List TermId) (cons : List (Option TermId)) (keys : Keys)
        → AreSorted d terms → AreSingle terms → BeginsWithTruths terms
        → IsGrouped terms reps cons
        → IsCovered d terms reps cons keys (AreJoined reps [])
        → AreRulesClosed d terms (InOneClass reps) }
    ensures one { (d : Declarations) (terms : Terms) (reps : List TermId) (cons : List (Option TermId)) (keys : Keys)
        → AreSorted d terms → AreSingle terms → BeginsWithTruths terms
        → IsGrouped terms reps cons
        → IsCovered d terms reps cons keys (AreJoined reps [])
        → (a b : TermId) → IsClashOf terms reps a b → ⊥ }
{}
