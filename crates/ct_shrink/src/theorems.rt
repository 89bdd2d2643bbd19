//! Theorems about the definitions alone. Each is the contract of a function that does nothing.
ghost use Rattle.std.specs.Prelude.{ℕ, List};
ghost use Rattle.ct_sorts.specs.Declarations.{Declarations};
ghost use Rattle.ct_sorts.specs.Consistent.{IsConsistent};
ghost use Rattle.ct_terms.specs.declared.ids.TermId.{TermId};
ghost use Rattle.ct_terms.specs.Terms.{Terms};
ghost use Rattle.ct_log.specs.Acceptance.{Passes};
ghost use Rattle.ct_log.specs.Recorded.{Derived};
ghost use Rattle.ct_core.specs.Core.{IsCore};
ghost use Rattle.ct_engine.specs.Verdict.{IsRefutation};
ghost use Rattle.ct_shrink.specs.Shrunk.{IsCoreOf, IsRefutedAt};

use crate::facts::models;

/// The theorem on cores of refutations, for printing or shrinking them. The function does nothing.
pub fn cores_of_refutations()
    // The core of a refutation is a core of the assertions.
    ensures core { (d : Declarations) (table : Terms) (asserts : List TermId) (derived core : Derived) (places : List ℕ)
        → IsRefutation d table asserts derived
        → IsCore derived places core
        → Passes d core.rec.terms core.asserts core.rec.lines
        → IsCoreOf d table asserts places core }

    // So the assertions at its places hold in no proper interpretation.
    ensures refuted { (d : Declarations) (table : Terms) (asserts : List TermId) (derived core : Derived) (places : List ℕ)
        → IsConsistent d
        → IsRefutation d table asserts derived
        → IsCore derived places core
        → Passes d core.rec.terms core.asserts core.rec.lines
        → IsRefutedAt d table asserts places core }
{
    models();
}
