//! Theorems about the definitions alone.
ghost use Rattle.std.specs.Prelude.{◌↔◌, ℕ, suc, ◌<◌, ◌≤◌, ◌^◌, List};
ghost use Rattle.ct_sorts.specs.Declarations.{Declarations};
ghost use Rattle.ct_terms.specs.declared.ids.TermId.{TermId};
ghost use Rattle.ct_terms.specs.Terms.{Terms};
ghost use Rattle.ct_terms.specs.CoreTree.{CoreTree};
ghost use Rattle.ct_closure.specs.Closed.{InClosure, HasVariables};
ghost use Rattle.ct_closure.specs.ClosedTable.{HasTree, terms_at};
ghost use Rattle.ct_log.specs.declared.line.Line.{Line};
ghost use Rattle.ct_engine.specs.declared.verdict.Move.{Move};
ghost use Rattle.ct_engine.specs.declared.verdict.Verdict.{Verdict};
ghost use Rattle.ct_engine.specs.Moves.{IsSpentRecord};
ghost use Rattle.ct_engine.specs.Verdict.{IsVerdict, IsDecisive};

use crate::facts;

/// Theorems on searches that spent their decisions, for users of their records. The function does nothing.
///
/// A search over a closure with V propositional variables that needs another decision has made fewer than 2^V - 1: where it
/// backs up, the string of its decisions and of what follows from them rises.
pub fn spent_searches()
    // For a record over a table that holds exactly the closure of some terms.
    ensures recorded { (d : Declarations) (terms : Terms) (asserts : List TermId) (lines : List Line) (moves : List Move) (budget variables : ℕ) (roots : List CoreTree)
        → IsSpentRecord d terms asserts lines moves budget
        → ((t : CoreTree) → HasTree terms t ↔ InClosure d roots t)
        → HasVariables d roots variables
        → suc budget < 2 ^ variables }

    // So with 2^V - 1 decisions or more no verdict is unknown.
    ensures decides { (d : Declarations) (table : Terms) (asserts : List TermId) (budget variables : ℕ) (verdict : Verdict)
        → IsVerdict d table asserts budget verdict
        → HasVariables d (terms_at table asserts) variables
        → 2 ^ variables ≤ suc budget
        → IsDecisive verdict }
{
    facts::growth();
    facts::trees();
}
