//! Checks: verdicts on the assertions in force (SMT-LIB 2.7, section 4.2.5).
ghost use Rattle.std.specs.Prelude.{◌≡◌, ℕ, suc, ◌≤◌, ◌^◌, [], All, vec_capacity, IfSome, OnOk, IfOk, OnErr, IsErrOf};
ghost use Rattle.ct_terms.specs.Terms.{AreSorted, IsBoolean};
ghost use Rattle.ct_closure.specs.Closed.{HasMoreThan, HasVariables, most_closure_terms};
ghost use Rattle.ct_closure.specs.ClosedTable.{AreSubtermsOf, terms_at};
ghost use Rattle.ct_base.specs.Base.{IsBase};
ghost use Rattle.ct_command.specs.Command.{check_sat, check_sat_assuming};
ghost use Rattle.ct_command.specs.Seen.{all_seen};
ghost use Rattle.ct_engine.specs.Keeping.{HasKept};
ghost use Rattle.ct_engine.specs.Verdict.{IsModel, IsVerdict, IsDecisive};
ghost use Rattle.ct_stack.specs.Assuming.{assuming, assumptions_seen, IsTruth};
ghost use Rattle.ct_stack.specs.Stack.{in_force};
ghost use Rattle.ct_step.specs.Cache.{IsCacheOf};
ghost use Rattle.ct_step.specs.State.{declared};
ghost use Rattle.ct_step.specs.Numbers.{closure_too_large};
ghost use Rattle.ct_step.specs.Refusal.{IsCheckRefusal, IsAssumingRefusal, IsTooLarge};
ghost use Rattle.ct_step.specs.Step.{word_of};
ghost use Rattle.ct_step.specs.Done.{IsDone, IsSound, state_of};
ghost use Rattle.ct_step.specs.Store.{IsStoreOf, IsStored};
ghost use Rattle.ct_step.specs.Verdict.{ComesTo};
ghost use Rattle.ct_step.specs.Assumed.{IsDecidedAssuming};

use crate::answer::{Answer, LONGEST_WORD, said, word_of};
use crate::cache::{Cache, FEW_DECISIONS, forget, keep_model, last_model_of, put_by, take_base};
use crate::response::response_of;
use crate::state::{Asked, SessionState};
use crate::theorems::growing;
use ct_base::Base;
use ct_closure::CloseError;
use ct_command::CommandError;
use ct_engine::{Kept, SolveError, Verdict, solve_on};
use ct_eval::Interp;
use ct_generics::additions;
use ct_meaning::meanings;
use ct_sexpr::Sexpr;
use ct_sorts::Signature;
use ct_stack::{AssertionStack, Assumption};
use ct_terms::{TermId, TermTable};
use std::alloc::Global;

/// The number of the error of a closure that is too large.
pub(crate) const CLOSURE_TOO_LARGE: u16 = 30;

/// Checks the assertions in force, as the check of this number, with what earlier checks left in the store.
///
/// There is room for the answer before it is known, so that nothing has changed where memory runs out.
pub(crate) fn check(
    alloc: Global,
    state: &mut SessionState,
    store: &mut Kept,
    cache: &mut Cache,
    number: u64,
) -> Result<Answer, CommandError>
    requires sorted { IsStoreOf (state_of state.old) store.old }
    requires cache { IsCacheOf (declared (state_of state.old)) cache.old }
    ensures done { IsDone state.old number check_sat state.new result }
    ensures stored { IsStored state.old check_sat state.new result store.old store.new }
    ensures sorted { IsStoreOf (state_of state.new) store.new }
    ensures cache { IsCacheOf (declared (state_of state.new)) cache.new }
{
    state.responses.reserve(1)?;
    let mut text = Vec::with_capacity(alloc, LONGEST_WORD)?;
    let verdict = verdict(alloc, &state.stack, state.options.budget(), store, cache)?;
    put_word(&mut text, &verdict);
    state.responses.push(response_of(&verdict)).unwrap();
    put_by(state.last.take(), cache);
    state.last = Some(verdict);
    state.kept = Some(Asked {
        assumed: Vec::new(alloc),
        number: Some(number),
    });
    Ok(said(text))
}

/// Checks the assertions in force together with what these terms assume, with what earlier checks left in the store (SMT-LIB 2.7, section
/// 4.2.5). No assertion changes; the sorts that the terms need are declared.
///
/// There is room for the answer before it is known, so that nothing has changed where memory runs out.
pub(crate) fn check_assuming(
    alloc: Global,
    state: &mut SessionState,
    store: &mut Kept,
    cache: &mut Cache,
    terms: &[Sexpr],
) -> Result<Answer, CommandError>
    requires sorted { IsStoreOf (state_of state.old) store.old }
    requires cache { IsCacheOf (declared (state_of state.old)) cache.old }
    ensures done { (number : ℕ) → IsDone state.old number (check_sat_assuming (all_seen terms.now)) state.new result }
    ensures stored { IsStored state.old (check_sat_assuming (all_seen terms.now)) state.new result store.old store.new }
    ensures sorted { IsStoreOf (state_of state.new) store.new }
    ensures cache { IsCacheOf (declared (state_of state.new)) cache.new }
    ensures sound { OnOk result (IsSound (state_of state.new)) }
{
    state.responses.reserve(1)?;
    let mut text = Vec::with_capacity(alloc, LONGEST_WORD)?;
    let budget = state.options.budget();
    let (assumed, verdict) = decide_assuming(alloc, &mut state.stack, store, cache, terms, budget)?;
    put_word(&mut text, &verdict);
    state.responses.push(response_of(&verdict)).unwrap();
    put_by(state.last.take(), cache);
    state.last = Some(verdict);
    state.kept = Some(Asked {
        assumed,
        number: None,
    });
    Ok(said(text))
}

// Puts the word of the verdict into the text, which has room for it.
fn put_word(text: &mut Vec<u8>, verdict: &Verdict)
    requires empty { text.old.items ≡ [] }
    requires room { LONGEST_WORD ≤ vec_capacity text.old }
    ensures word { text.new.items ≡ word_of verdict.now }
{
    text.extend_from_slice(word_of(verdict)).unwrap();
}

// A verdict on the assertions in force, in at most so many decisions, with what earlier checks left in the store.
fn verdict(
    alloc: Global,
    stack: &AssertionStack,
    budget: u64,
    store: &mut Kept,
    cache: &mut Cache,
) -> Result<Verdict, CommandError>
    requires sorted { AreSorted stack.now.top.context.declarations store.old.table }
    requires cache { IsCacheOf stack.now.top.context.declarations cache.old }
    ensures verdict { IfOk result (ComesTo stack.now.top.context (in_force stack.now) budget) }
    ensures accepted { OnOk result ((n : ℕ) → IsCheckRefusal stack.now n → ⊥) }
    ensures refused { (n : ℕ) → IsErrOf result (CommandError.Refused n) → IsCheckRefusal stack.now n }
    ensures kept { IfOk result (HasKept stack.now.top.context.declarations store.old store.new) }
    ensures sorted { AreSorted stack.now.top.context.declarations store.new.table }
    ensures cache { IsCacheOf stack.now.top.context.declarations cache.new }
    ensures same { OnErr result (store.new ≡ store.old) }
{
    meanings();
    let sig = &stack.scope().sig;
    sig.sorts();
    let (table, numbers) = stack.core_terms();
    let verdict = verdict_over(alloc, sig, table, numbers, budget, store, cache)?;
    Ok(verdict)
}

// A verdict on the assertions in force with these assumptions, in at most so many decisions, with what earlier checks left in the
// store.
fn verdict_assuming(
    alloc: Global,
    stack: &AssertionStack,
    assumed: &[Assumption],
    budget: u64,
    store: &mut Kept,
    cache: &mut Cache,
) -> Result<Verdict, CommandError>
    requires sorted { AreSorted stack.now.top.context.declarations store.old.table }
    requires cache { IsCacheOf stack.now.top.context.declarations cache.old }
    requires assumed { All (IsTruth stack.now.top.context.declarations) assumed.now }
    ensures verdict { IfOk result (ComesTo stack.now.top.context (assuming stack.now (assumptions_seen assumed.now)) budget) }
    ensures accepted { OnOk result ((n : ℕ) → IsTooLarge stack.now (assumptions_seen assumed.now) n → ⊥) }
    ensures refused { (n : ℕ) → IsErrOf result (CommandError.Refused n) → IsTooLarge stack.now (assumptions_seen assumed.now) n }
    ensures kept { IfOk result (HasKept stack.now.top.context.declarations store.old store.new) }
    ensures sorted { AreSorted stack.now.top.context.declarations store.new.table }
    ensures cache { IsCacheOf stack.now.top.context.declarations cache.new }
    ensures same { OnErr result (store.new ≡ store.old) }
{
    meanings();
    let sig = &stack.scope().sig;
    sig.sorts();
    let (table, numbers) = stack.core_terms_with(alloc, assumed)?;
    let verdict = verdict_over(alloc, sig, &table, numbers.as_slice(), budget, store, cache)?;
    Ok(verdict)
}

// What these terms assume, and a verdict on the assertions in force with that, in at most so many decisions, with what earlier checks
// left in the store. The sorts that the terms need are declared.
fn decide_assuming(
    alloc: Global,
    stack: &mut AssertionStack,
    store: &mut Kept,
    cache: &mut Cache,
    terms: &[Sexpr],
    budget: u64,
) -> Result<(Vec<Assumption>, Verdict), CommandError>
    requires sorted { AreSorted stack.old.top.context.declarations store.old.table }
    requires cache { IsCacheOf stack.old.top.context.declarations cache.old }
    ensures decided { IfOk result (λ r. IsDecidedAssuming stack.old (all_seen terms.now) budget stack.new r.0.items r.1) }
    ensures accepted { OnOk result ((n : ℕ) → IsAssumingRefusal stack.old (all_seen terms.now) n → ⊥) }
    ensures refused { (n : ℕ) → IsErrOf result (CommandError.Refused n) → IsAssumingRefusal stack.old (all_seen terms.now) n }
    ensures kept { IfOk result (λ r. HasKept stack.new.top.context.declarations store.old store.new r.1) }
    ensures sorted { AreSorted stack.new.top.context.declarations store.new.table }
    ensures cache { IsCacheOf stack.new.top.context.declarations cache.new }
    ensures same { OnErr result (store.new ≡ store.old) }
    ensures unchanged { OnErr result (stack.new ≡ stack.old) }
{
    growing();
    additions();
    let assumed = stack.assume(alloc, terms)?;
    match verdict_assuming(alloc, stack, assumed.as_slice(), budget, store, cache) {
        Ok(verdict) => {
            stack.end_assuming(true);
            Ok((assumed, verdict))
        }
        Err(error) => {
            stack.end_assuming(false);
            forget(cache);
            Err(error)
        }
    }
}

// A verdict on assertions that are terms of a table, in at most so many decisions, with what earlier checks left in the store.
fn verdict_over(
    alloc: Global,
    sig: &Signature,
    table: &TermTable,
    asserts: &[TermId],
    budget: u64,
    store: &mut Kept,
    cache: &mut Cache,
) -> Result<Verdict, CommandError>
    requires sorted { AreSorted sig.now table.now }
    requires asserts { All (IsBoolean table.now) asserts.now }
    requires exact { AreSubtermsOf table.now asserts.now }
    requires kept { AreSorted sig.now store.old.table }
    requires cache { IsCacheOf sig.now cache.old }
    ensures verdict { IfOk result (IsVerdict sig.now table.now asserts.now budget) }
    ensures decides { IfOk result (λ verdict. (variables : ℕ) → HasVariables sig.now (terms_at table.now asserts.now) variables
        → 2 ^ variables ≤ suc budget → IsDecisive verdict) }
    ensures fits { OnOk result (HasMoreThan sig.now (terms_at table.now asserts.now) most_closure_terms → ⊥) }
    ensures refused { (n : ℕ) → IsErrOf result (CommandError.Refused n) → (n ≡ closure_too_large)
        × HasMoreThan sig.now (terms_at table.now asserts.now) most_closure_terms }
    ensures kept { IfOk result (HasKept sig.now store.old store.new) }
    ensures sorted { AreSorted sig.now store.new.table }
    ensures cache { IsCacheOf sig.now cache.new }
    ensures same { OnErr result (store.new ≡ store.old) }
{
    if budget <= FEW_DECISIONS {
        return search(alloc, sig, table, asserts, budget, store, &mut cache.base);
    }
    let again = cache.base.is_some();
    if let Some(interp) = tried(alloc, sig, table, asserts, cache)? {
        return Ok(Verdict::Sat(interp));
    }
    let verdict = search(alloc, sig, table, asserts, budget, store, &mut cache.base)?;
    if again {
        keep_model(alloc, sig, table, &verdict, &mut cache.model);
    }
    Ok(verdict)
}

// A model of these assertions, if their closure is not too large, and the last model serves once it has grown.
fn tried(
    alloc: Global,
    sig: &Signature,
    table: &TermTable,
    asserts: &[TermId],
    cache: &mut Cache,
) -> Result<Option<Interp>, CommandError>
    requires sorted { AreSorted sig.now table.now }
    requires asserts { All (IsBoolean table.now) asserts.now }
    requires exact { AreSubtermsOf table.now asserts.now }
    requires cache { IsCacheOf sig.now cache.old }
    ensures model { IfOk result (λ found. IfSome found (IsModel sig.now table.now asserts.now)) }
    ensures fits { OnOk result (HasMoreThan sig.now (terms_at table.now asserts.now) most_closure_terms → ⊥) }
    ensures refused { (n : ℕ) → IsErrOf result (CommandError.Refused n) → (n ≡ closure_too_large)
        × HasMoreThan sig.now (terms_at table.now asserts.now) most_closure_terms }
    ensures cache { IsCacheOf sig.now cache.new }
{
    close_first(alloc, sig, table, asserts, &mut cache.base)?;
    let found = last_model_of(
        alloc,
        sig,
        table,
        asserts,
        &mut cache.model,
        &mut cache.spare,
    );
    Ok(found)
}

// Closes the assertions, if their closure is not too large.
fn close_first(
    alloc: Global,
    sig: &Signature,
    table: &TermTable,
    asserts: &[TermId],
    base: &mut Option<Box<Base>>,
) -> Result<(), CommandError>
    requires sorted { AreSorted sig.now table.now }
    requires asserts { All (IsBoolean table.now) asserts.now }
    requires exact { AreSubtermsOf table.now asserts.now }
    requires base { IfSome base.old (λ base. IsBase sig.now base.value) }
    ensures fits { OnOk result (HasMoreThan sig.now (terms_at table.now asserts.now) most_closure_terms → ⊥) }
    ensures refused { (n : ℕ) → IsErrOf result (CommandError.Refused n) → (n ≡ closure_too_large)
        × HasMoreThan sig.now (terms_at table.now asserts.now) most_closure_terms }
    ensures base { IfSome base.new (λ base. IsBase sig.now base.value) }
{
    let mut closed = take_base(alloc, sig, base)?;
    match closed.close_over(alloc, sig, table, asserts) {
        Ok(closure) => {
            drop(closure);
            *base = Some(closed);
            Ok(())
        }
        Err(CloseError::TooLarge) => {
            *base = Some(closed);
            Err(CommandError::Refused(CLOSURE_TOO_LARGE))
        }
        Err(CloseError::NoMemory) => {
            drop(closed);
            Err(CommandError::NoMemory)
        }
    }
}

// A verdict that a search comes to.
fn search(
    alloc: Global,
    sig: &Signature,
    table: &TermTable,
    asserts: &[TermId],
    budget: u64,
    store: &mut Kept,
    base: &mut Option<Box<Base>>,
) -> Result<Verdict, CommandError>
    requires sorted { AreSorted sig.now table.now }
    requires asserts { All (IsBoolean table.now) asserts.now }
    requires exact { AreSubtermsOf table.now asserts.now }
    requires kept { AreSorted sig.now store.old.table }
    requires base { IfSome base.old (λ base. IsBase sig.now base.value) }
    ensures verdict { IfOk result (IsVerdict sig.now table.now asserts.now budget) }
    ensures decides { IfOk result (λ verdict. (variables : ℕ) → HasVariables sig.now (terms_at table.now asserts.now) variables
        → 2 ^ variables ≤ suc budget → IsDecisive verdict) }
    ensures fits { OnOk result (HasMoreThan sig.now (terms_at table.now asserts.now) most_closure_terms → ⊥) }
    ensures refused { (n : ℕ) → IsErrOf result (CommandError.Refused n) → (n ≡ closure_too_large)
        × HasMoreThan sig.now (terms_at table.now asserts.now) most_closure_terms }
    ensures kept { IfOk result (HasKept sig.now store.old store.new) }
    ensures sorted { AreSorted sig.now store.new.table }
    ensures base { IfSome base.new (λ base. IsBase sig.now base.value) }
    ensures same { OnErr result (store.new ≡ store.old) }
{
    let mut closed = take_base(alloc, sig, base)?;
    match solve_on(alloc, sig, &mut closed, table, asserts, budget, store) {
        Ok(verdict) => {
            *base = Some(closed);
            Ok(verdict)
        }
        Err(SolveError::TooLarge) => {
            *base = Some(closed);
            Err(CommandError::Refused(CLOSURE_TOO_LARGE))
        }
        Err(SolveError::NoMemory) => {
            drop(closed);
            Err(CommandError::NoMemory)
        }
    }
}
