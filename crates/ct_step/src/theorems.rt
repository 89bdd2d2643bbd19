//! Theorems about checks. Each is the contract of a function that does nothing.
ghost use Rattle.std.specs.Prelude.{◌≡◌, ◌⊎◌, ℕ, suc, ◌≤◌, ◌^◌, Ok, codes};
ghost use Rattle.ct_closure.specs.Closed.{HasMoreThan, HasVariables, most_closure_terms};
ghost use Rattle.ct_command.specs.Command.{check_sat};
ghost use Rattle.ct_stack.specs.Stack.{in_force, cores};
ghost use Rattle.ct_step.specs.Growing.{Growing};
ghost use Rattle.ct_step.specs.Options.{budget};
ghost use Rattle.ct_step.specs.State.{State, context_of, declared};
ghost use Rattle.ct_step.specs.Step.{CommandEffect, Steps};

use ct_base::lasting_bases;
use ct_sorts::growth;
use ct_terms::one_lasting_sort;
use ct_trial::lasting_models;

/// The theorem that checks are decided. The function does nothing.
pub fn decided_checks()
    // Where the closure of the assertions has at most 200,000 terms and V propositional variables, and 2^V - 1 decisions or more
    // are allowed, a check is answered `sat` or `unsat`.
    ensures decided { (s : State) (number line variables : ℕ) (e : CommandEffect)
        → Steps s number line (Ok check_sat) e
        → (HasMoreThan (declared s) (cores (context_of s) (in_force s.stack)) most_closure_terms → ⊥)
        → HasVariables (declared s) (cores (context_of s) (in_force s.stack)) variables
        → 2 ^ variables ≤ suc (budget s.options)
        → (e.text ≡ codes "sat") ⊎ (e.text ≡ codes "unsat") }
{}

/// The theorems on declarations that grow, as one. The function does nothing.
pub(crate) fn growing()
    ensures hold { Growing }
{
    growth();
    one_lasting_sort();
    lasting_bases();
    lasting_models();
}
