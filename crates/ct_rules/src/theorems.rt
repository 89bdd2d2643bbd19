//! Theorems about derivations of equations. Each is the contract of a function that does nothing.
ghost use Rattle.std.specs.Prelude.{◌≡◌, Bool, true, List, Contains};
ghost use Rattle.ct_sorts.specs.Declarations.{Declarations};
ghost use Rattle.ct_terms.specs.declared.ids.TermId.{TermId};
ghost use Rattle.ct_terms.specs.declared.ids.Lit.{Lit};
ghost use Rattle.ct_terms.specs.Terms.{Terms};
ghost use Rattle.ct_rules.specs.declared.equation.Equation.{Equation};
ghost use Rattle.ct_rules.specs.Rules.{Follows};
ghost use Rattle.ct_rules.specs.Derivation.{AreAmong, IsHypothesis, Derives};

/// The theorems on derivations. It does nothing: a proof that needs them calls it.
pub fn derivations()
    // What a hypothesis states derives, and what is given does.
    ensures states { (d : Declarations) (terms : Terms) (hyps : List Lit) (given : List Equation)
        (x y : TermId)
        → IsHypothesis hyps x y
        → Derives d terms hyps given x y }
    ensures given { (d : Declarations) (terms : Terms) (hyps : List Lit) (given : List Equation)
        (x y : TermId)
        → AreAmong given x y
        → Derives d terms hyps given x y }

    // What follows by a rule from equations that derive does.
    ensures follows { (d : Declarations) (terms : Terms) (hyps : List Lit) (given : List Equation)
        (x y : TermId)
        → Follows d terms (Derives d terms hyps given) x y
        → Derives d terms hyps given x y }

    // A relation that holds of what the hypotheses state and of what is given, and that is closed
    // under the rules, holds of every equation that derives.
    ensures least { (d : Declarations) (terms : Terms) (hyps : List Lit) (given : List Equation)
        (related : TermId → TermId → Bool)
        → ((x y : TermId) → IsHypothesis hyps x y → related x y ≡ true)
        → ((x y : TermId) → AreAmong given x y → related x y ≡ true)
        → ((x y : TermId) → Follows d terms (λ a b. related a b ≡ true) x y → related x y ≡ true)
        → (x y : TermId) → Derives d terms hyps given x y → related x y ≡ true }

    // What derives from equations that derive from others derives from those.
    ensures more { (d : Declarations) (terms : Terms) (hyps more_hyps : List Lit)
        (given more_given : List Equation)
        → ((x y : TermId) → IsHypothesis hyps x y → Derives d terms more_hyps more_given x y)
        → ((x y : TermId) → AreAmong given x y → Derives d terms more_hyps more_given x y)
        → (x y : TermId)
        → Derives d terms hyps given x y
        → Derives d terms more_hyps more_given x y }

    // The rules give from more equations at least as many.
    ensures wider { (d : Declarations) (terms : Terms) (known wider : TermId → TermId → Bool)
        → ((x y : TermId) → known x y ≡ true → wider x y ≡ true)
        → (x y : TermId)
        → Follows d terms (λ a b. known a b ≡ true) x y
        → Follows d terms (λ a b. wider a b ≡ true) x y }
{}
