//! Theorems about derivations. Each is the contract of a function that does nothing.
ghost use Rattle.std.specs.Prelude.{List, All};
ghost use Rattle.ct_sorts.specs.Declarations.{Declarations};
ghost use Rattle.ct_sorts.specs.Consistent.{IsConsistent};
ghost use Rattle.ct_terms.specs.declared.ids.TermId.{TermId};
ghost use Rattle.ct_terms.specs.Clause.{Clause};
ghost use Rattle.ct_terms.specs.Terms.{Terms, AreOrdered, AreSorted, BeginsWithTruths};
ghost use Rattle.ct_eval.specs.declared.interp.Interp.{Interp};
ghost use Rattle.ct_eval.specs.Interpretation.{IsProper};
ghost use Rattle.ct_eval.specs.Truth.{Holds, TrueIn};
ghost use Rattle.ct_log.specs.declared.line.Line.{Line};
ghost use Rattle.ct_log.specs.Acceptance.{IsAccepted, Passes};

use ct_card::single_sorts;
use ct_eval::{congruence, constructor_terms, evaluation, truth_values};
use ct_sorts::structure;
use ct_terms::propagation_is_sound;
use ct_values::{agreement, finite_values, fitting_graphs, well_sorted_values};

/// The theorems on derivations: no line that is accepted is false in a model (Reynolds and
/// Blanchette 2015, section 4, on the rules). It does nothing: a proof that needs them calls it.
pub fn accepted_lines()
    // The clause of an accepted line is true in every proper interpretation in which the assertions
    // and all earlier clauses are.
    ensures line { (d : Declarations) (i : Interp) (terms : Terms) (asserts : List TermId)
        (earlier : List Clause) (next : Line)
        → IsConsistent d
        → IsProper d i
        → AreOrdered terms
        → BeginsWithTruths terms
        → AreSorted d terms
        → IsAccepted d terms asserts earlier next
        → Holds d i terms asserts
        → All (TrueIn d i terms) earlier
        → TrueIn d i terms next.clause }

    // No proper interpretation makes the assertions of a record true that passes.
    ensures no_model { (d : Declarations) (i : Interp) (terms : Terms) (asserts : List TermId)
        (lines : List Line)
        → IsConsistent d
        → IsProper d i
        → AreOrdered terms
        → BeginsWithTruths terms
        → AreSorted d terms
        → Passes d terms asserts lines
        → Holds d i terms asserts
        → ⊥ }
{
    structure();
    agreement();
    fitting_graphs();
    well_sorted_values();
    finite_values();
    single_sorts();
    propagation_is_sound();
    evaluation();
    congruence();
    truth_values();
    constructor_terms();
}
