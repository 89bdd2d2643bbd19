//! Theorems about the definitions alone.
ghost use Rattle.std.specs.Prelude.{◌≡◌, ℕ, ◌⊎◌, List, ◌++◌, take, Some, slice_get, All, Contains};
ghost use Rattle.ct_terms.specs.declared.ids.TermId.{TermId};
ghost use Rattle.ct_terms.specs.declared.ids.Lit.{Lit};
ghost use Rattle.ct_terms.specs.Literal.{opposite};
ghost use Rattle.ct_terms.specs.Clause.{Clause};
ghost use Rattle.ct_terms.specs.Propagation.{Rup};
ghost use Rattle.ct_sat.specs.declared.clause.StepClause.{StepClause};
ghost use Rattle.ct_sat.specs.declared.decided.Decided.{Decided};
ghost use Rattle.ct_sat.specs.Up.{IsClosed, Up, IsContradictory, IsAssigned, IsLowest};
ghost use Rattle.ct_sat.specs.State.{SearchState, clauses_of, literals_of, FollowsByUnits, IsSound, IsConflict, IsQuiet};
ghost use Rattle.ct_sat.specs.Learning.{FollowsBy, StandAtSteps};

/// Theorems on what follows by units, for proofs about searches. The function does nothing.
///
/// What follows is least, and itself closed; it grows with the clauses and the decisions. The trail follows, and its part
/// before a decision follows from the decisions before that. A clause that is false in the trail makes what follows
/// contradictory; where nothing more follows and no clause is false it is not, and has the values of the trail.
pub fn what_follows_by_units()
    ensures least { (clauses : List Clause) (decided set : List Lit) (l : Lit) → IsClosed clauses decided set → Up clauses decided l → Contains set l }
    ensures decided { (clauses : List Clause) (decided : List Lit) → All (Up clauses decided) decided }
    ensures forced { (clauses : List Clause) (decided : List Lit) (clause : Clause) (l : Lit) → Contains clauses clause
        → Contains clause l → All (λ k. (k ≡ l) ⊎ Up clauses decided (opposite k)) clause → Up clauses decided l }
    ensures more_clauses { (clauses more : List Clause) (decided : List Lit) (l : Lit) → Up clauses decided l → Up (clauses ++ more) decided l }
    ensures more_decided { (clauses : List Clause) (decided more : List Lit) (l : Lit) → Up clauses decided l → Up clauses (decided ++ more) l }
    ensures trail { (s : SearchState) (l : Lit) → IsSound s → Contains s.trail l → FollowsByUnits s l }
    ensures prefix { (s : SearchState) (k : ℕ) (next : Decided) (l : Lit) → IsSound s → slice_get s.decided k ≡ Some next
        → Contains (take next.index s.trail) l → Up (clauses_of s.clauses) (literals_of (take k s.decided)) l }
    ensures conflict { (s : SearchState) (step : ℕ) → IsSound s → IsConflict s step → IsContradictory (clauses_of s.clauses) (FollowsByUnits s) }
    ensures quiet { (s : SearchState) → IsQuiet s → IsContradictory (clauses_of s.clauses) (FollowsByUnits s) → ⊥ }
    ensures values { (s : SearchState) (t : TermId) → IsQuiet s → IsAssigned (Contains s.trail) t → IsAssigned (FollowsByUnits s) t }
    ensures unset { (s : SearchState) (t : TermId) → IsQuiet s → IsAssigned (FollowsByUnits s) t → IsAssigned (Contains s.trail) t }
    ensures lowest { (s : SearchState) (variables : List TermId) (t : TermId) → IsQuiet s → IsLowest variables (Contains s.trail) t → IsLowest variables (FollowsByUnits s) t }
{}

/// The theorem on learned clauses, for checkers of them. The function does nothing.
///
/// Where each clause of the search stands in a list at the number of its step, a clause that follows from the search by
/// hints follows by them from the list, by reverse unit propagation.
pub fn learned_clauses_follow()
    ensures listed { (clauses : List StepClause) (all : List Clause) (hints : List ℕ) (clause : Clause) → StandAtSteps clauses all
        → FollowsBy clauses hints clause → Rup all hints clause }
{}
