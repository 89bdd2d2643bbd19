//! Checks with assumptions that are gone through without a verdict, as a replay does.
ghost use Rattle.std.specs.Prelude.{◌≡◌, ℕ, All, Option, OnOk, OnErr, IsErrOf};
ghost use Rattle.ct_terms.specs.Terms.{AreSorted, IsBoolean};
ghost use Rattle.ct_closure.specs.Closed.{HasMoreThan, most_closure_terms};
ghost use Rattle.ct_closure.specs.ClosedTable.{AreSubtermsOf, terms_at};
ghost use Rattle.ct_command.specs.Seen.{all_seen};
ghost use Rattle.ct_kept.specs.Kept.{Stored};
ghost use Rattle.ct_stack.specs.Assuming.{assumptions_seen, IsTruth};
ghost use Rattle.ct_stack.specs.declared.model_values.ModelValues.{ModelValues};
ghost use Rattle.ct_step.specs.declared.cache.Cache.{Cache};
ghost use Rattle.ct_step.specs.Cache.{IsCacheOf};
ghost use Rattle.ct_step.specs.Done.{IsSame, state_of};
ghost use Rattle.ct_step.specs.Known.{AreKnown};
ghost use Rattle.ct_step.specs.Numbers.{closure_too_large};
ghost use Rattle.ct_step.specs.Refusal.{IsAssumingRefusal, IsTooLarge};
ghost use Rattle.ct_step.specs.Rehearsal.{IsRehearsed};
ghost use Rattle.ct_step.specs.State.{declared};
ghost use Rattle.ct_step.specs.Store.{IsSoundWith};

use crate::check::CLOSURE_TOO_LARGE;
use crate::state::SessionState;
use crate::theorems::growing;
use ct_card::Sizes;
use ct_closure::{CloseError, close};
use ct_command::CommandError;
use ct_generics::additions;
use ct_sexpr::Sexpr;
use ct_sorts::Signature;
use ct_stack::{AssertionStack, Assumption};
use ct_terms::{TermId, TermTable};
use std::alloc::Global;

/// Does what a check does that assumes these terms, but for its verdict: the sorts that they need are declared, or it is refused. What
/// was answered does not stand any more.
pub fn rehearse_assuming(
    alloc: Global,
    state: &mut SessionState,
    terms: &[Sexpr],
) -> Result<(), CommandError>
    ensures rehearsed { OnOk result (IsRehearsed state.old (all_seen terms.now) state.new) }
    ensures refused { (n : ℕ) → IsErrOf result (CommandError.Refused n) → IsAssumingRefusal state.old.stack (all_seen terms.now) n }
    ensures unchanged { OnErr result (IsSame state.old state.new) }
    ensures sound { (store : Stored) → IsSoundWith (state_of state.old) store → IsSoundWith (state_of state.new) store }
    ensures cache { (cache : Cache) → IsCacheOf (declared (state_of state.old)) cache → IsCacheOf (declared (state_of state.new)) cache }
    ensures known { (values : Option ModelValues) → AreKnown (state_of state.old) values → AreKnown (state_of state.new) values }
{
    growing();
    additions();
    let assumed = state.stack.assume(alloc, terms)?;
    match fits(alloc, &state.stack, assumed.as_slice()) {
        Ok(()) => {
            state.stack.end_assuming(true);
            state.kept = None;
            Ok(())
        }
        Err(error) => {
            state.stack.end_assuming(false);
            Err(error)
        }
    }
}

// Whether the core terms of the assertions in force and of these assumptions are few enough, and so is their closure.
fn fits(alloc: Global, stack: &AssertionStack, assumed: &[Assumption]) -> Result<(), CommandError>
    requires assumed { All (IsTruth stack.now.top.context.declarations) assumed.now }
    ensures accepted { OnOk result ((n : ℕ) → IsTooLarge stack.now (assumptions_seen assumed.now) n → ⊥) }
    ensures refused { (n : ℕ) → IsErrOf result (CommandError.Refused n) → IsTooLarge stack.now (assumptions_seen assumed.now) n }
{
    let sig = &stack.scope().sig;
    let (mut table, numbers) = stack.core_terms_with(alloc, assumed)?;
    closes(alloc, sig, &mut table, numbers.as_slice())
}

// Closes the table of these assertions.
fn closes(
    alloc: Global,
    sig: &Signature,
    table: &mut TermTable,
    asserts: &[TermId],
) -> Result<(), CommandError>
    requires sorted { AreSorted sig.now table.old }
    requires asserts { All (IsBoolean table.old) asserts.now }
    requires exact { AreSubtermsOf table.old asserts.now }
    ensures fits { OnOk result (HasMoreThan sig.now (terms_at table.old asserts.now) most_closure_terms → ⊥) }
    ensures refused { (n : ℕ) → IsErrOf result (CommandError.Refused n) → (n ≡ closure_too_large)
        × HasMoreThan sig.now (terms_at table.old asserts.now) most_closure_terms }
{
    let Ok(sizes) = Sizes::new(alloc, sig) else {
        return Err(CommandError::NoMemory);
    };
    match close(alloc, sig, &sizes, table, asserts) {
        Ok(closure) => {
            drop(closure);
            Ok(())
        }
        Err(CloseError::TooLarge) => Err(CommandError::Refused(CLOSURE_TOO_LARGE)),
        Err(CloseError::NoMemory) => Err(CommandError::NoMemory),
    }
}
