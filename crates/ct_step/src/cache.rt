//! What is stored between checks for speed alone, and may be dropped at any time.
//!
//! No clause of a command speaks of it: all that a command promises holds with it and without it. Which model a check leaves may
//! depend on it, and so may `sat` in place of `unknown`.
ghost use Rattle.std.specs.Prelude.{◌≡◌, ◌<◌, ◌≤◌, length, None, All, Err, IfSome, IfOk, OnErr};
ghost use Rattle.ct_sorts.specs.Consistent.{IsConsistent};
ghost use Rattle.ct_sorts.specs.Marks.{CanCut, cut};
ghost use Rattle.ct_terms.specs.Terms.{AreSorted, IsBoolean};
ghost use Rattle.ct_card.specs.Sizes.{AreSizes};
ghost use Rattle.ct_base.specs.Base.{IsBase};
ghost use Rattle.ct_sorts.specs.Declarations.{Declarations};
ghost use Rattle.ct_eval.specs.declared.interp.Interp.{Interp};
ghost use Rattle.ct_eval.specs.Interpretation.{IsProper};
ghost use Rattle.ct_trial.specs.LastModel.{IsLastModel};
ghost use Rattle.ct_engine.specs.Verdict.{IsModel};
ghost use Rattle.ct_stack.specs.Levels.{popped_by};
ghost use Rattle.ct_step.specs.Cache.{IsCacheOf};

use ct_base::Base;
use ct_closure::CloseError;
use ct_command::CommandError;
use ct_engine::Verdict;
use ct_eval::Interp;
use ct_sorts::{Mark, Signature};
use ct_stack::AssertionStack;
use ct_terms::{TermId, TermTable};
use ct_trial::LastModel;
use std::alloc::Global;

/// With no more decisions than these a check uses nothing that is stored of earlier ones but the sizes of sorts.
pub(crate) const FEW_DECISIONS: u64 = 10_000;

/// What is stored between checks for speed alone.
#[derive(Drop)]
pub struct Cache {
    /// The sizes of all sorts, and the closures of earlier checks.
    pub base: Option<Box<Base>>,
    /// The model of an earlier check.
    pub model: Option<Box<LastModel>>,
    /// An interpretation of which nothing is asked but its memory.
    pub spare: Option<Interp>,
}

/// Nothing is stored.
pub fn empty_cache() -> Cache
    ensures cache { (d : Declarations) → IsCacheOf d result }
{
    Cache {
        base: None,
        model: None,
        spare: None,
    }
}

/// Drops all that is stored, where memory ran out.
pub(crate) fn forget_if(cache: &mut Cache, ran_out: bool)
    ensures cache { (d : Declarations) → IsCacheOf d cache.old → IsCacheOf d cache.new }
{
    if ran_out {
        forget(cache);
    }
}

/// Drops all that is stored.
pub(crate) fn forget(cache: &mut Cache)
    ensures cache { (d : Declarations) → IsCacheOf d cache.new }
{
    cache.base = None;
    cache.model = None;
    cache.spare = None;
}

/// Stores the interpretation of a verdict that is let go, if a model may be copied there.
pub(crate) fn put_by(earlier: Option<Verdict>, cache: &mut Cache)
    ensures cache { (d : Declarations) → IsCacheOf d cache.old → IsCacheOf d cache.new }
{
    if cache.model.is_none() {
        return;
    }
    if let Some(Verdict::Sat(interp)) = earlier {
        cache.spare = Some(interp);
    }
}

/// The base, or a new one, which is taken out.
pub(crate) fn take_base(
    alloc: Global,
    sig: &Signature,
    base: &mut Option<Box<Base>>,
) -> Result<Box<Base>, CommandError>
    requires base { IfSome base.old (λ base. IsBase sig.now base.value) }
    ensures base { IfOk result (λ base. IsBase sig.now base.value) }
    ensures gone { base.new ≡ None }
    ensures err { OnErr result (result ≡ Err CommandError.NoMemory) }
{
    match base.take() {
        Some(base) => Ok(base),
        None => new_base(alloc, sig),
    }
}

// A base without a closure.
fn new_base(alloc: Global, sig: &Signature) -> Result<Box<Base>, CommandError>
    ensures base { IfOk result (λ base. IsBase sig.now base.value) }
    ensures err { OnErr result (result ≡ Err CommandError.NoMemory) }
{
    match Base::new(alloc, sig) {
        Ok(base) => Ok(Box::new(alloc, base)?),
        Err(_) => Err(CommandError::NoMemory),
    }
}

/// The base with the sizes of all sorts of the signature, which is taken out.
pub(crate) fn take_sized(
    alloc: Global,
    sig: &Signature,
    base: &mut Option<Box<Base>>,
) -> Result<Box<Base>, CommandError>
    requires base { IfSome base.old (λ base. IsBase sig.now base.value) }
    ensures base { IfOk result (λ base. IsBase sig.now base.value) }
    ensures sizes { IfOk result (λ base. AreSizes sig.now base.value.sizes) }
    ensures gone { base.new ≡ None }
    ensures err { OnErr result (result ≡ Err CommandError.NoMemory) }
{
    let mut base = take_base(alloc, sig, base)?;
    match base.size_all(sig) {
        Ok(()) => Ok(base),
        Err(_) => Err(CommandError::NoMemory),
    }
}

/// Closes what is asserted, where there is a base and something new, so that what comes in at deeper levels stands after it. With few
/// decisions it does nothing.
pub(crate) fn close_level(alloc: Global, stack: &AssertionStack, budget: u64, cache: &mut Cache)
    requires cache { IsCacheOf stack.now.top.context.declarations cache.old }
    ensures cache { IsCacheOf stack.now.top.context.declarations cache.new }
{
    if budget > FEW_DECISIONS {
        close_base(alloc, stack, &mut cache.base);
    }
}

// Closes what is asserted, where there is a base and something new.
fn close_base(alloc: Global, stack: &AssertionStack, base: &mut Option<Box<Base>>)
    requires base { IfSome base.old (λ base. IsBase stack.now.top.context.declarations base.value) }
    ensures base { IfSome base.new (λ base. IsBase stack.now.top.context.declarations base.value) }
{
    let Some(mut closed) = base.take() else {
        return;
    };
    let (table, numbers) = stack.core_terms();
    if closed.root_count() == numbers.len() {
        *base = Some(closed);
        return;
    }
    match closed.close_over(alloc, &stack.scope().sig, table, numbers) {
        Ok(closure) => {
            drop(closure);
            *base = Some(closed);
        }
        Err(CloseError::TooLarge) => *base = Some(closed),
        Err(CloseError::NoMemory) => drop(closed),
    }
}

/// Takes what is stored back to what is declared after a `pop` of this many levels, or drops it. Where there are fewer levels it stays.
pub(crate) fn cut_cache(
    alloc: Global,
    stack: &AssertionStack,
    global: bool,
    count: u128,
    cache: &mut Cache,
)
    requires cache { IsCacheOf stack.now.top.context.declarations cache.old }
    ensures cut { count ≤ length stack.now.below → IsCacheOf (popped_by global count stack.now).top.context.declarations cache.new }
    ensures above { length stack.now.below < count → IsCacheOf stack.now.top.context.declarations cache.new }
{
    let Some(mark) = stack.mark_below(global, count) else {
        return;
    };
    let sig = &stack.scope().sig;
    cut_base(sig, &mark, &mut cache.base);
    cut_model(alloc, sig, &mark, &mut cache.model);
}

// Takes the base back to what is declared at the mark, or drops it.
fn cut_base(sig: &Signature, mark: &Mark, base: &mut Option<Box<Base>>)
    requires base { IfSome base.old (λ base. IsBase sig.now base.value) }
    requires can_cut { CanCut sig.now mark.now }
    requires consistent { IsConsistent (cut sig.now mark.now) }
    ensures base { IfSome base.new (λ base. IsBase (cut sig.now mark.now) base.value) }
{
    let Some(mut cut) = base.take() else {
        return;
    };
    if cut.cut(sig, mark) {
        *base = Some(cut);
    } else {
        drop(cut);
    }
}

// Takes the last model back to what is declared at the mark, or drops it.
fn cut_model(alloc: Global, sig: &Signature, mark: &Mark, model: &mut Option<Box<LastModel>>)
    requires model { IfSome model.old (λ model. IsLastModel sig.now model.value) }
    requires can_cut { CanCut sig.now mark.now }
    requires consistent { IsConsistent (cut sig.now mark.now) }
    ensures model { IfSome model.new (λ model. IsLastModel (cut sig.now mark.now) model.value) }
{
    let Some(mut cut) = model.take() else {
        return;
    };
    if cut.cut(alloc, sig, mark) {
        *model = Some(cut);
    } else {
        drop(cut);
    }
}

/// Takes the base back to what is asserted.
pub(crate) fn keep_asserted(stack: &AssertionStack, cache: &mut Cache)
    requires cache { IsCacheOf stack.now.top.context.declarations cache.old }
    ensures cache { IsCacheOf stack.now.top.context.declarations cache.new }
{
    keep_roots(stack.assertions().len(), &mut cache.base);
}

// Takes the base back to so many assertions.
fn keep_roots(count: usize, base: &mut Option<Box<Base>>)
    requires base { (d : Declarations) × IfSome base.old (λ base. IsBase d base.value) }
    ensures base { (d : Declarations) → IfSome base.old (λ base. IsBase d base.value) → IfSome base.new (λ base. IsBase d base.value) }
{
    let Some(mut left) = base.take() else {
        return;
    };
    left.keep_roots(count);
    *base = Some(left);
}

/// A model of these assertions, if the last one serves once it has grown.
pub(crate) fn last_model_of(
    alloc: Global,
    sig: &Signature,
    table: &TermTable,
    asserts: &[TermId],
    last: &mut Option<Box<LastModel>>,
    spare: &mut Option<Interp>,
) -> Option<Interp>
    requires last { IfSome last.old (λ model. IsLastModel sig.now model.value) }
    requires sorted { AreSorted sig.now table.now }
    requires asserts { All (IsBoolean table.now) asserts.now }
    ensures last { IfSome last.new (λ model. IsLastModel sig.now model.value) }
    ensures model { IfSome result (IsModel sig.now table.now asserts.now) }
{
    let Some(mut model) = last.take() else {
        return None;
    };
    match model.satisfying(alloc, sig, table, asserts, spare) {
        Ok(found) => {
            *last = Some(model);
            found
        }
        Err(_) => {
            drop(model);
            None
        }
    }
}

/// Stores a copy of the model of a verdict as the last one, if there is memory for it.
pub(crate) fn keep_model(
    alloc: Global,
    sig: &Signature,
    table: &TermTable,
    verdict: &Verdict,
    last: &mut Option<Box<LastModel>>,
)
    requires last { IfSome last.old (λ model. IsLastModel sig.now model.value) }
    requires sorted { AreSorted sig.now table.now }
    requires proper { (i : Interp) → verdict.now ≡ Verdict.Sat i → IsProper sig.now i }
    ensures last { IfSome last.new (λ model. IsLastModel sig.now model.value) }
{
    let Verdict::Sat(interp) = verdict else {
        return;
    };
    *last = new_model(alloc, sig, interp, table);
}

// A copy of the interpretation, to be tried on the assertions of later checks, if there is memory for it.
fn new_model(
    alloc: Global,
    sig: &Signature,
    interp: &Interp,
    table: &TermTable,
) -> Option<Box<LastModel>>
    requires proper { IsProper sig.now interp.now }
    requires sorted { AreSorted sig.now table.now }
    ensures model { IfSome result (λ model. IsLastModel sig.now model.value) }
{
    match LastModel::new(alloc, sig, interp, table) {
        Ok(model) => Box::new(alloc, model).ok(),
        Err(_) => None,
    }
}
