//! What is printed of the core of a refutation (SMT-LIB 2.7, section 4.2.7): names of assertions, or assumptions.
ghost use Rattle.std.specs.Prelude.{◌≡◌, ℕ, true, false, ◌∷◌, ◌++◌, All, None, option_to_list, Err, IfOk, OnOk, OnErr, IsErrOf};
ghost use Rattle.ct_sexpr.specs.Written.{written_name};
ghost use Rattle.ct_card.specs.Sizes.{AreSizes};
ghost use Rattle.ct_terms.specs.Terms.{AreSorted, IsBoolean};
ghost use Rattle.ct_closure.specs.Closed.{HasMoreThan, most_closure_terms};
ghost use Rattle.ct_closure.specs.ClosedTable.{terms_at};
ghost use Rattle.ct_core.specs.Core.{IsCore};
ghost use Rattle.ct_log.specs.Acceptance.{Passes};
ghost use Rattle.ct_command.specs.Command.{get_unsat_core, get_unsat_assumptions};
ghost use Rattle.ct_command.specs.Seen.{bytes_seen};
ghost use Rattle.ct_shrink.specs.Shrunk.{IsCoreOf, IsShrunk};
ghost use Rattle.ct_model.specs.Listed.{joined, spaced, listed};
ghost use Rattle.ct_stack.specs.Assuming.{assuming, with_assumed, assumptions_seen, IsTruth};
ghost use Rattle.ct_stack.specs.Held.{IsHeld, as_one};
ghost use Rattle.ct_step.specs.Cores.{IsShrunkTo, label_at, name_at, text_at, assumption_at, member_at, members_at, core_text};
ghost use Rattle.ct_step.specs.Done.{IsDone, IsSound, state_of, assumed_in};
ghost use Rattle.ct_step.specs.Numbers.{no_derivation};
ghost use Rattle.ct_step.specs.Options.{budget};
ghost use Rattle.ct_step.specs.Printing.{IsKeptCore, IsPrinted};
ghost use Rattle.ct_step.specs.Cache.{IsCacheOf};
ghost use Rattle.ct_step.specs.State.{context_of, declared, derived_kept};

use crate::answer::{Answer, said};
use crate::ask::NO_DERIVATION;
use crate::cache::{Cache, take_sized};
use crate::state::{SessionState, is_of_assumptions, kept_assumptions, kept_refutation};
use ct_card::Sizes;
use ct_command::CommandError;
use ct_core::{UnsatCore, core_of};
use ct_log::Derivation;
use ct_meaning::meanings;
use ct_sexpr::{Bytes, Sexpr, sexpr_text};
use ct_shrink::{Shrunk, cores_of_refutations, shrink};
use ct_sorts::Signature;
use ct_stack::Assumption;
use ct_terms::{TermId, TermTable};
use std::alloc::{AllocError, Global};

/// What is printed of a core.
#[derive(Clone, Copy, Debug, PartialEq, Eq)]
pub enum Members {
    /// The names of its assertions that are labelled.
    Names,
    /// Its assumptions.
    Assumptions,
}

/// The names of the labelled assertions in the core of the last derivation.
pub(crate) fn unsat_core(
    alloc: Global,
    state: &mut SessionState,
    cache: &mut Cache,
) -> Result<Answer, CommandError>
    requires cache { IsCacheOf (declared (state_of state.old)) cache.old }
    requires sound { IsSound (state_of state.old) }
    ensures done { (number : ℕ) → IsDone state.old number get_unsat_core state.new result }
    ensures cache { IsCacheOf (declared (state_of state.old)) cache.new }
{
    core_answer(alloc, state, cache, Members::Names)
}

/// The assumptions in the core of the last derivation, where it is of a check with assumptions.
pub(crate) fn unsat_assumptions(
    alloc: Global,
    state: &mut SessionState,
    cache: &mut Cache,
) -> Result<Answer, CommandError>
    requires cache { IsCacheOf (declared (state_of state.old)) cache.old }
    requires sound { IsSound (state_of state.old) }
    ensures done { (number : ℕ) → IsDone state.old number get_unsat_assumptions state.new result }
    ensures cache { IsCacheOf (declared (state_of state.old)) cache.new }
{
    if !is_of_assumptions(&state.kept) {
        return Err(CommandError::Refused(NO_DERIVATION));
    }
    core_answer(alloc, state, cache, Members::Assumptions)
}

// The members of the core of the last derivation, which is shrunk first where the option says so.
fn core_answer(
    alloc: Global,
    state: &mut SessionState,
    cache: &mut Cache,
    members: Members,
) -> Result<Answer, CommandError>
    requires cache { IsCacheOf (declared (state_of state.old)) cache.old }
    requires sound { IsSound (state_of state.old) }
    ensures printed { IsPrinted state.old members state.new result }
    ensures cache { IsCacheOf (declared (state_of state.old)) cache.new }
{
    if state.options.minimal_unsat_cores {
        return shrunk_answer(alloc, state, cache, members);
    }
    whole_answer(alloc, state, cache, members)
}

// The members of the core of the last derivation.
fn whole_answer(
    alloc: Global,
    state: &SessionState,
    cache: &mut Cache,
    members: Members,
) -> Result<Answer, CommandError>
    requires cache { IsCacheOf (declared (state_of state.now)) cache.old }
    requires sound { IsSound (state_of state.now) }
    ensures printed { state.now.options.minimal_unsat_cores ≡ false → IsPrinted state.now members state.now result }
    ensures cache { IsCacheOf (declared (state_of state.now)) cache.new }
{
    let core = kept_core(alloc, state, cache)?;
    let text = core_text(alloc, state, members, core.places.as_slice())?;
    Ok(said(text))
}

// The members of the core of the last derivation, shrunk.
fn shrunk_answer(
    alloc: Global,
    state: &mut SessionState,
    cache: &mut Cache,
    members: Members,
) -> Result<Answer, CommandError>
    requires cache { IsCacheOf (declared (state_of state.old)) cache.old }
    requires sound { IsSound (state_of state.old) }
    ensures printed { state.old.options.minimal_unsat_cores ≡ true → IsPrinted state.old members state.new result }
    ensures cache { IsCacheOf (declared (state_of state.old)) cache.new }
{
    let core = kept_core(alloc, state, cache)?;
    let shrunk = shrunk_core(alloc, state, cache, core)?;
    let text = core_text(alloc, state, members, shrunk.core.places.as_slice())?;
    state.shrunk = Some(Box::into_inner(shrunk));
    Ok(said(text))
}

// The core of the last derivation, where there is one.
fn kept_core(
    alloc: Global,
    state: &SessionState,
    cache: &mut Cache,
) -> Result<Box<UnsatCore>, CommandError>
    requires cache { IsCacheOf (declared (state_of state.now)) cache.old }
    requires sound { IsSound (state_of state.now) }
    ensures core { IfOk result (λ core. IsKeptCore state.now core.value) }
    ensures refused { (n : ℕ) → IsErrOf result (CommandError.Refused n) → (n ≡ no_derivation) × (derived_kept (state_of state.now).kept ≡ None) }
    ensures cache { IsCacheOf (declared (state_of state.now)) cache.new }
{
    let Some(derivation) = kept_refutation(&state.last, &state.kept) else {
        return Err(CommandError::Refused(NO_DERIVATION));
    };
    meanings();
    cores_of_refutations();
    let sig = &state.stack.scope().sig;
    sig.sorts();
    let base = take_sized(alloc, sig, &mut cache.base)?;
    let core = core_of_derivation(alloc, sig, base.sizes(), derivation);
    cache.base = Some(base);
    core
}

// The core of a derivation over these declarations.
fn core_of_derivation(
    alloc: Global,
    sig: &Signature,
    sizes: &Sizes,
    derivation: &Derivation,
) -> Result<Box<UnsatCore>, CommandError>
    requires sizes { AreSizes sig.now sizes.now }
    requires declarations { derivation.now.declarations ≡ sig.now }
    ensures core { IfOk result (λ core. IsCore derivation.now core.value.places.items core.value.derivation) }
    ensures passes { IfOk result (λ core. Passes sig.now derivation.now.rec.terms derivation.now.asserts derivation.now.rec.lines
        → Passes sig.now core.value.derivation.rec.terms core.value.derivation.asserts core.value.derivation.rec.lines) }
    ensures err { OnErr result (result ≡ Err CommandError.NoMemory) }
{
    match core_of(alloc, sig, sizes, derivation) {
        Ok(core) => Ok(Box::new(alloc, core)?),
        Err(_) => Err(CommandError::NoMemory),
    }
}

// A core of what the last check asked, shrunk.
fn shrunk_core(
    alloc: Global,
    state: &SessionState,
    cache: &mut Cache,
    core: Box<UnsatCore>,
) -> Result<Box<Shrunk>, CommandError>
    requires cache { IsCacheOf (declared (state_of state.now)) cache.old }
    requires sound { IsSound (state_of state.now) }
    requires core { IsKeptCore state.now core.value }
    ensures shrunk { IfOk result (λ shrunk. IsShrunkTo (context_of (state_of state.now)) (assuming state.now.stack (assumptions_seen (assumed_in state.now.kept)))
        (budget state.now.options) core.value.places.items shrunk.value) }
    ensures err { OnErr result (result ≡ Err CommandError.NoMemory) }
    ensures cache { IsCacheOf (declared (state_of state.now)) cache.new }
{
    meanings();
    cores_of_refutations();
    let sig = &state.stack.scope().sig;
    sig.sorts();
    let (table, numbers) = asked_terms(alloc, state)?;
    let limit = state.options.budget();
    let base = take_sized(alloc, sig, &mut cache.base)?;
    let shrunk = boxed_shrunk(
        alloc,
        sig,
        base.sizes(),
        &table,
        numbers.as_slice(),
        limit,
        Box::into_inner(core),
    );
    cache.base = Some(base);
    shrunk
}

// A core of assertions that are terms of a table, shrunk.
fn boxed_shrunk(
    alloc: Global,
    sig: &Signature,
    sizes: &Sizes,
    table: &TermTable,
    asserts: &[TermId],
    budget: u64,
    core: UnsatCore,
) -> Result<Box<Shrunk>, CommandError>
    requires sizes { AreSizes sig.now sizes.now }
    requires sorted { AreSorted sig.now table.now }
    requires asserts { All (IsBoolean table.now) asserts.now }
    requires fits { HasMoreThan sig.now (terms_at table.now asserts.now) most_closure_terms → ⊥ }
    requires core { IsCoreOf sig.now table.now asserts.now core.places.items core.derivation }
    ensures shrunk { IfOk result (λ shrunk. IsShrunk sig.now table.now asserts.now budget core.places.items shrunk.value) }
    ensures err { OnErr result (result ≡ Err CommandError.NoMemory) }
{
    match shrink(alloc, sig, sizes, table, asserts, budget, core) {
        Ok(shrunk) => Ok(Box::new(alloc, shrunk)?),
        Err(_) => Err(CommandError::NoMemory),
    }
}

// The core terms of what the last check asked. They had room then, so that only memory can be missing.
fn asked_terms(
    alloc: Global,
    state: &SessionState,
) -> Result<(Box<TermTable>, Vec<TermId>), CommandError>
    requires sorted { All (IsTruth state.now.stack.top.context.declarations) (assumed_in state.now.kept) }
    ensures held { IfOk result (λ terms. IsHeld (with_assumed (as_one state.now.stack) (assumptions_seen (assumed_in state.now.kept))) terms.0.value terms.1.items) }
    ensures err { OnErr result (result ≡ Err CommandError.NoMemory) }
{
    match state
        .stack
        .core_terms_with(alloc, kept_assumptions(&state.kept))
    {
        Ok(terms) => Ok(terms),
        Err(_) => Err(CommandError::NoMemory),
    }
}

// What is printed of a core with these places.
fn core_text(
    alloc: Global,
    state: &SessionState,
    members: Members,
    places: &[u64],
) -> Result<Vec<u8>, CommandError>
    ensures text { IfOk result (λ text. text.items ≡ core_text members (state_of state.now) (assumptions_seen (assumed_in state.now.kept)) places.now) }
    ensures err { OnErr result (result ≡ Err CommandError.NoMemory) }
{
    let texts = members_at(alloc, state, members, places)?;
    Ok(listed(alloc, texts.as_slice())?)
}

// What is printed for these places, in order, where there is something.
fn members_at(
    alloc: Global,
    state: &SessionState,
    members: Members,
    places: &[u64],
) -> Result<Vec<Bytes>, CommandError>
    ensures texts { IfOk result (λ texts. texts.items ≡ members_at members (state_of state.now) (assumptions_seen (assumed_in state.now.kept)) places.now) }
    ensures err { OnErr result (result ≡ Err CommandError.NoMemory) }
{
    let mut left = places;
    let mut texts = Vec::new(alloc);
    while let [first, others @ ..] = left {
        let member = member_at(alloc, state, members, *first)?;
        put_member(&mut texts, member)?;
        left = others;
    }
    Ok(texts)
}

// Puts a text at the end, where there is one.
fn put_member(texts: &mut Vec<Bytes>, member: Option<Bytes>) -> Result<(), AllocError>
    ensures put { OnOk result (texts.new.items ≡ texts.old.items ++ option_to_list member) }
{
    if let Some(text) = member {
        texts.push(text)?;
    }
    Ok(())
}

// What is printed for a place, where there is something.
fn member_at(
    alloc: Global,
    state: &SessionState,
    members: Members,
    place: u64,
) -> Result<Option<Bytes>, CommandError>
    ensures text { IfOk result (λ text. text ≡ member_at members (state_of state.now) (assumptions_seen (assumed_in state.now.kept)) place) }
    ensures err { OnErr result (result ≡ Err CommandError.NoMemory) }
{
    match members {
        Members::Names => name_at(alloc, state.labels.as_slice(), place),
        Members::Assumptions => {
            let count = state.stack.assertions().len();
            let assumed = kept_assumptions(&state.kept);
            Ok(assumption_at(alloc, count, assumed, place)?)
        }
    }
}

// The name of the assertion at this place, as it is written, where it is labelled.
fn name_at(
    alloc: Global,
    labels: &[Option<Bytes>],
    place: u64,
) -> Result<Option<Bytes>, CommandError>
    ensures text { IfOk result (λ text. text ≡ name_at labels.now place) }
    ensures err { OnErr result (result ≡ Err CommandError.NoMemory) }
{
    match label_at(labels, place) {
        Some(name) => {
            let text = name_text(alloc, name)?;
            Ok(Some(text))
        }
        None => Ok(None),
    }
}

// The label at this place, where there is one.
fn label_at(labels: &[Option<Bytes>], place: u64) -> Option<&[u8]>
    ensures label { bytes_seen result ≡ label_at labels.now place }
{
    match labels.get(place as usize) {
        Some(Some(name)) => Some(name.as_slice()),
        Some(None) | None => None,
    }
}

// How a name is written.
fn name_text(alloc: Global, name: &[u8]) -> Result<Bytes, CommandError>
    ensures text { IfOk result (λ text. text ≡ written_name name.now) }
    ensures err { OnErr result (result ≡ Err CommandError.NoMemory) }
{
    let name = Sexpr::Quoted(Bytes::new(Vec::from_slice(alloc, name)?));
    match sexpr_text(alloc, &name) {
        Ok(text) => Ok(text),
        Err(_) => Err(CommandError::NoMemory),
    }
}

// The text of the assumption at this place, where the assumptions stand behind so many assertions.
fn assumption_at(
    alloc: Global,
    count: usize,
    assumed: &[Assumption],
    place: u64,
) -> Result<Option<Bytes>, AllocError>
    ensures text { IfOk result (λ text. text ≡ assumption_at count (assumptions_seen assumed.now) place) }
{
    let place = place as usize;
    if place < count {
        return Ok(None);
    }
    match text_at(assumed, place - count) {
        Some(text) => {
            let copy = Vec::from_slice(alloc, text)?;
            Ok(Some(Bytes::new(copy)))
        }
        None => Ok(None),
    }
}

// The text of the assumption at this place among the assumptions.
fn text_at(assumed: &[Assumption], place: usize) -> Option<&[u8]>
    ensures text { bytes_seen result ≡ text_at (assumptions_seen assumed.now) place }
{
    match assumed.get(place) {
        Some(found) => Some(found.text.as_slice()),
        None => None,
    }
}

// The texts as a list.
fn listed(alloc: Global, texts: &[Bytes]) -> Result<Vec<u8>, AllocError>
    ensures text { IfOk result (λ text. text.items ≡ listed texts.now) }
{
    let mut out = Vec::new(alloc);
    out.push(b'(')?;
    put_joined(texts, &mut out)?;
    out.push(b')')?;
    Ok(out)
}

// Puts the texts at the end, with a space between two.
fn put_joined(texts: &[Bytes], out: &mut Vec<u8>) -> Result<(), AllocError>
    ensures put { OnOk result (out.new.items ≡ out.old.items ++ joined texts.now) }
{
    let [first, others @ ..] = texts else {
        return Ok(());
    };
    out.extend_from_slice(first.as_slice())?;
    put_spaced(others, out)
}

// Puts the texts at the end, each after a space.
fn put_spaced(texts: &[Bytes], out: &mut Vec<u8>) -> Result<(), AllocError>
    ensures put { OnOk result (out.new.items ≡ out.old.items ++ spaced texts.now) }
{
    let mut left = texts;
    while let [first, others @ ..] = left {
        put_after_space(first.as_slice(), out)?;
        left = others;
    }
    Ok(())
}

// Puts a space and a text at the end.
fn put_after_space(text: &[u8], out: &mut Vec<u8>) -> Result<(), AllocError>
    ensures put { OnOk result (out.new.items ≡ out.old.items ++ 32 ∷ text.now) }
{
    out.push(b' ')?;
    out.extend_from_slice(text)?;
    Ok(())
}
