//! Theorems about the definitions alone. Each is the contract of a function that does nothing.
ghost use Rattle.std.specs.Prelude.{◌⊎◌, ◌++◌, List, map};
ghost use Rattle.ct_sorts.specs.Declarations.{Declarations};
ghost use Rattle.ct_terms.specs.declared.ids.TermId.{TermId};
ghost use Rattle.ct_terms.specs.Clause.{Clause, opposites};
ghost use Rattle.ct_terms.specs.Terms.{Terms, AreOrdered};
ghost use Rattle.ct_rules.specs.declared.equation.Equation.{Equation};
ghost use Rattle.ct_rules.specs.Rules.{Follows};
ghost use Rattle.ct_rules.specs.Derivation.{AreAmong, IsHypothesis};
ghost use Rattle.ct_rules.specs.Uniqueness.{IsUniqueness};
ghost use Rattle.ct_rules.specs.Cycle.{IsCycle};
ghost use Rattle.ct_log.specs.declared.line.Line.{Line};
ghost use Rattle.ct_log.specs.declared.rules.Hop.{Hop};
ghost use Rattle.ct_log.specs.declared.rules.EqStep.{EqStep};
ghost use Rattle.ct_log.specs.Acceptance.{IsAccepted};
ghost use Rattle.ct_log.specs.Equations.{Gives};
ghost use Rattle.ct_log.specs.Closing.{IsCycleBy};

use ct_terms::{one_lasting_sort, propagation_is_sound};

/// The theorem that acceptance lasts when a record grows. It does nothing: a proof that needs it calls it.
///
/// A line stays accepted over a longer table, with more assertions, and after more earlier lines.
pub fn lasting_acceptance()
    ensures lasting { (d : Declarations) (terms more : Terms) (asserts further : List TermId) (earlier later : List Clause) (line : Line)
        → AreOrdered (terms ++ more)
        → IsAccepted d terms asserts earlier line
        → IsAccepted d (terms ++ more) (asserts ++ further) (earlier ++ later) line }
{
    one_lasting_sort();
    propagation_is_sound();
}

/// The theorem that steps follow by the rules of equality. It does nothing: a proof that needs it calls it.
///
/// The equation that a step gives is stated by the opposite of a literal of the clause, follows from those before it by a
/// rule, or is that of two terms that cannot be told apart.
pub fn steps_follow()
    ensures step { (d : Declarations) (terms : Terms) (clause : Clause) (given : List Equation) (step : EqStep) (x y : TermId)
        → Gives d terms clause given step x y
        → IsHypothesis (opposites clause) x y
        ⊎ (Follows d terms (AreAmong given) x y ⊎ IsUniqueness terms (AreAmong given) x y) }
    ensures cycle { (d : Declarations) (terms : Terms) (given : List Equation) (hops : List Hop)
        → IsCycleBy d terms given hops
        → IsCycle d terms (AreAmong given) (map (λ hop. (hop.con, hop.place)) hops) }
{}
