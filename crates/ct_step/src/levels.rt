//! The commands that add and remove levels of the assertion stack (SMT-LIB 2.7, sections 4.2.1 and 4.2.2).
ghost use Rattle.std.specs.Prelude.{◌≡◌, ◌↔◌, ℕ, length, take, IfSome, IsTrue, OnOk, OnErr};
ghost use Rattle.ct_sorts.specs.Marks.{CanCut, cut, lengths};
ghost use Rattle.ct_terms.specs.Terms.{AreSorted};
ghost use Rattle.ct_command.specs.Command.{push, pop, reset_assertions, reset};
ghost use Rattle.ct_stack.specs.Levels.{IsBeside};
ghost use Rattle.ct_stack.specs.Stack.{in_force};
ghost use Rattle.ct_step.specs.Cache.{IsCacheOf};
ghost use Rattle.ct_step.specs.Done.{IsDone, state_of};
ghost use Rattle.ct_step.specs.State.{declared};
ghost use Rattle.ct_step.specs.Store.{IsStoreOf, IsCut, IsStored};

use crate::answer::{Answer, quiet};
use crate::cache::{Cache, close_level, cut_cache, forget, keep_asserted};
use crate::options::Options;
use crate::state::SessionState;
use ct_command::CommandError;
use ct_engine::Kept;
use ct_sorts::{Mark, Signature, growth};
use ct_stack::AssertionStack;
use std::alloc::{AllocError, Global};

/// Adds levels.
pub(crate) fn push(
    alloc: Global,
    state: &mut SessionState,
    cache: &mut Cache,
    count: u128,
) -> Result<Answer, CommandError>
    requires cache { IsCacheOf (declared (state_of state.old)) cache.old }
    ensures done { (number : ℕ) → IsDone state.old number (push count) state.new result }
    ensures cache { IsCacheOf (declared (state_of state.old)) cache.new }
{
    let answer = quiet(alloc, state.options)?;
    close_level(alloc, &state.stack, state.options.budget(), cache);
    state.stack.push(count)?;
    state.kept = None;
    Ok(answer)
}

/// Removes levels.
pub(crate) fn pop(
    alloc: Global,
    state: &mut SessionState,
    store: &mut Kept,
    cache: &mut Cache,
    count: u128,
) -> Result<Answer, CommandError>
    requires sorted { IsStoreOf (state_of state.old) store.old }
    requires cache { IsCacheOf (declared (state_of state.old)) cache.old }
    ensures done { (number : ℕ) → IsDone state.old number (pop count) state.new result }
    ensures stored { IsStored state.old (pop count) state.new result store.old store.new }
    ensures sorted { IsStoreOf (state_of state.new) store.new }
    ensures cache { IsCacheOf (declared (state_of state.new)) cache.new }
{
    let answer = quiet(alloc, state.options)?;
    let global = state.options.global_declarations;
    let mark = state.stack.mark_below(global, count);
    cut_store(alloc, &state.stack, mark, store)?;
    cut_cache(alloc, &state.stack, global, count, cache);
    state.stack.pop(global, count)?;
    keep_asserted(&state.stack, cache);
    cut_labels(state);
    state.kept = None;
    Ok(answer)
}

/// Removes all levels but the outermost, and every assertion.
pub(crate) fn reset_assertions(
    alloc: Global,
    state: &mut SessionState,
    store: &mut Kept,
    cache: &mut Cache,
) -> Result<Answer, CommandError>
    requires sorted { IsStoreOf (state_of state.old) store.old }
    requires cache { IsCacheOf (declared (state_of state.old)) cache.old }
    ensures done { (number : ℕ) → IsDone state.old number reset_assertions state.new result }
    ensures stored { IsStored state.old reset_assertions state.new result store.old store.new }
    ensures sorted { IsStoreOf (state_of state.new) store.new }
    ensures cache { IsCacheOf (declared (state_of state.new)) cache.new }
{
    let answer = quiet(alloc, state.options)?;
    let global = state.options.global_declarations;
    let mark = state.stack.first_mark(global);
    cut_store(alloc, &state.stack, mark, store)?;
    state.stack.empty(global);
    forget(cache);
    cut_labels(state);
    state.kept = None;
    Ok(answer)
}

/// Makes the state what it was at the start.
pub(crate) fn reset(
    alloc: Global,
    state: &mut SessionState,
    store: &mut Kept,
    cache: &mut Cache,
) -> Result<Answer, CommandError>
    requires sorted { IsStoreOf (state_of state.old) store.old }
    requires cache { IsCacheOf (declared (state_of state.old)) cache.old }
    ensures done { (number : ℕ) → IsDone state.old number reset state.new result }
    ensures stored { IsStored state.old reset state.new result store.old store.new }
    ensures sorted { IsStoreOf (state_of state.new) store.new }
    ensures cache { IsCacheOf (declared (state_of state.new)) cache.new }
{
    let options = Options::new(state.options.first_error_behavior);
    let answer = quiet(alloc, options)?;
    let mark = state.stack.first_mark(false);
    cut_store(alloc, &state.stack, mark, store)?;
    state.stack.reset();
    forget(cache);
    state.labels.truncate(0);
    state.options = options;
    state.diagnostic_output = None;
    state.kept = None;
    Ok(answer)
}

// Takes the labels of assertions back that are no longer in force.
fn cut_labels(state: &mut SessionState)
    ensures cut { state.new ≡ record state.old { labels = state.new.labels } }
    ensures labels { state.new.labels.items ≡ take (length (in_force state.old.stack)) state.old.labels.items }
{
    let left = state.stack.assertions().len();
    state.labels.truncate(left);
}

// Leaves in the store what names only what is below the mark, where there is one and something goes with it.
fn cut_store(
    alloc: Global,
    stack: &AssertionStack,
    mark: Option<Mark>,
    store: &mut Kept,
) -> Result<(), AllocError>
    requires sorted { AreSorted stack.now.top.context.declarations store.old.table }
    requires can_cut { IfSome mark (λ m. CanCut stack.now.top.context.declarations m) }
    ensures cut { OnOk result (IsCut stack.now.top.context.declarations mark store.old store.new) }
    ensures sorted { OnOk result (IfSome mark (λ m. AreSorted (cut stack.now.top.context.declarations m) store.new.table)) }
    ensures same { OnErr result (store.new ≡ store.old) }
{
    growth();
    let Some(mark) = mark else {
        return Ok(());
    };
    let sig = &stack.scope().sig;
    if is_all(sig, &mark) {
        return Ok(());
    }
    match store.within(alloc, sig, &mark) {
        Ok(left) => {
            *store = left;
            Ok(())
        }
        Err(_) => Err(AllocError),
    }
}

// Whether the mark is that of all that is declared.
fn is_all(sig: &Signature, mark: &Mark) -> bool
    requires can_cut { CanCut sig.now mark.now }
    ensures all { IsTrue result ↔ (mark.now ≡ lengths sig.now) }
{
    sig.sorts();
    let all = sig.mark();
    is_same(mark, &all)
}

// Whether the marks are the same.
fn is_same(mark: &Mark, other: &Mark) -> bool
    requires mark { IsBeside mark.now }
    requires other { IsBeside other.now }
    ensures same { IsTrue result ↔ (mark.now ≡ other.now) }
{
    mark.sorts() == other.sorts()
        && mark.ctors() == other.ctors()
        && mark.sels() == other.sels()
        && mark.funs() == other.funs()
        && mark.defs() == other.defs()
        && mark.heads() == other.heads()
        && mark.synonyms() == other.synonyms()
        && mark.symbols() == other.symbols()
}
