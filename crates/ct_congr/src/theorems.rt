//! Theorems about congruence classes. Each is the contract of a function that does nothing.
ghost use Rattle.std.specs.Prelude.{◌≡◌, ◌<◌, ◌++◌, ◌↔◌, Bool, true, List, length, Contains};
ghost use Rattle.ct_terms.specs.declared.ids.TermId.{TermId};
ghost use Rattle.ct_rules.specs.Rules.{Follows};
ghost use Rattle.ct_rules.specs.Derivation.{Derives};
ghost use Rattle.ct_congr.specs.declared.merge.Merge.{Merge};
ghost use Rattle.ct_congr.specs.Merges.{AreConnected};
ghost use Rattle.ct_congr.specs.State.{State, AreEqual, IsClash, IsClosed, IsQuiet};

/// The theorems on classes as they are after a close that found no clash. It does nothing: a proof
/// that needs them calls it.
pub fn quiet_classes()
    // Terms of one class are exactly those whose equation derives.
    ensures derives { (state : State)
        → IsQuiet state
        → (t u : TermId) → t.0 < length state.terms → u.0 < length state.terms
        → AreEqual state t u ↔ Derives state.declarations state.terms state.hypotheses state.given t u }

    // The classes are closed under every rule but uniqueness.
    ensures follows { (state : State)
        → IsQuiet state
        → (x y : TermId) → Follows state.declarations state.terms (AreEqual state) x y → AreEqual state x y }

    // No class has two terms of different constructors.
    ensures one { (state : State) → IsQuiet state → (a b : TermId) → IsClash state a b → ⊥ }
{}

/// Theorem: closed classes of the same terms under the same hypotheses and given equations are the same, whether they
/// were made at once, or marked, merged and undone. It does nothing: a proof that needs this calls it.
pub fn closed_classes()
    ensures same { (one other : State)
        → IsClosed one
        → IsClosed other
        → one.declarations ≡ other.declarations
        → one.terms ≡ other.terms
        → one.hypotheses ≡ other.hypotheses
        → one.given ≡ other.given
        → (t u : TermId) → t.0 < length one.terms → u.0 < length one.terms
        → AreEqual one t u ↔ AreEqual other t u }
{}

/// The theorems on the classes of any merges. It does nothing: a proof that needs them calls it.
pub fn classes_of_merges()
    // To be of one class is an equivalence on the terms that have one.
    ensures reflexive { (state : State) (x : TermId) → x.0 < length state.reps → AreEqual state x x }
    ensures symmetric { (state : State) (x y : TermId) → AreEqual state x y → AreEqual state y x }
    ensures transitive { (state : State) (x y z : TermId) → AreEqual state x y → AreEqual state y z → AreEqual state x z }
    ensures inside { (state : State) (x y : TermId) → AreEqual state x y → y.0 < length state.reps }

    // To be connected by merges is an equivalence that holds the merges, and any other that does so
    // holds of what is connected.
    ensures connected_reflexive { (merges : List Merge) (x : TermId) → AreConnected merges x x }
    ensures connected_symmetric { (merges : List Merge) (x y : TermId) → AreConnected merges x y → AreConnected merges y x }
    ensures connected_transitive { (merges : List Merge) (x y z : TermId)
        → AreConnected merges x y
        → AreConnected merges y z
        → AreConnected merges x z }
    ensures connected_merge { (merges : List Merge) (m : Merge) → Contains merges m → AreConnected merges m.left m.right }
    ensures connected_least { (merges : List Merge) (related : TermId → TermId → Bool)
        → ((x : TermId) → related x x ≡ true)
        → ((x y : TermId) → related x y ≡ true → related y x ≡ true)
        → ((x y z : TermId) → related x y ≡ true → related y z ≡ true → related x z ≡ true)
        → ((m : Merge) → Contains merges m → related m.left m.right ≡ true)
        → (x y : TermId) → AreConnected merges x y → related x y ≡ true }

    // More merges connect at least as much.
    ensures connected_more { (merges more : List Merge) (x y : TermId)
        → AreConnected merges x y
        → AreConnected (merges ++ more) x y }
{}
