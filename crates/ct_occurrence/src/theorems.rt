//! Theorems about the definitions that a formula can reach. Each is the contract of a function that does nothing.
ghost use Rattle.std.specs.Prelude.{◌≡◌, Bool, true, List, Some, slice_get};
ghost use Rattle.ct_sorts.specs.declared.ids.DefId.{DefId};
ghost use Rattle.ct_sorts.specs.Declarations.{Declarations};
ghost use Rattle.ct_values.specs.Value.{Value};
ghost use Rattle.ct_terms.specs.CoreTree.{CoreTree};
ghost use Rattle.ct_formulas.specs.Formula.{Formula};
ghost use Rattle.ct_formulas.specs.Compiled.{core_of};
ghost use Rattle.ct_eval.specs.declared.interp.Interp.{Interp};
ghost use Rattle.ct_meaning.specs.Meaning.{eval};
ghost use Rattle.ct_occurrence.specs.Calls.{CallsAre};
ghost use Rattle.ct_occurrence.specs.Reach.{CanReach, AgreeWhereReached};

/// The theorems on the definitions that a formula can reach. It does nothing: a proof that needs
/// them calls it.
pub fn reachable_definitions()
    // What a formula can reach is the least set that has the definitions that the formula names, and
    // with a definition those that its body names.
    ensures named { (bodies : List Formula) (t : Formula) → CallsAre (CanReach bodies t) t }
    ensures closed { (bodies : List Formula) (t body : Formula) (k : DefId)
        → CanReach bodies t k
        → slice_get bodies k.0 ≡ Some body
        → CallsAre (CanReach bodies t) body }
    ensures least { (bodies : List Formula) (t : Formula) (has : DefId → Bool)
        → CallsAre (λ k. has k ≡ true) t
        → ((k : DefId) (body : Formula)
        → has k ≡ true
        → slice_get bodies k.0 ≡ Some body
        → CallsAre (λ j. has j ≡ true) body)
        → (k : DefId) → CanReach bodies t k → has k ≡ true }

    // The meaning of a formula does not see definitions that it cannot reach: these may have other
    // bodies or none, and there may be more or fewer of them.
    ensures meaning { (d : Declarations) (i : Interp) (bodies others : List Formula)
        (env : List Value) (t : Formula)
        → AgreeWhereReached bodies others t
        → eval d i bodies env t ≡ eval d i others env t }

    // Nor does its core term.
    ensures core_term { (d : Declarations) (bodies others : List Formula)
        (env : List CoreTree) (t : Formula)
        → AgreeWhereReached bodies others t
        → core_of d bodies env t ≡ core_of d others env t }
{}
