//! Shrinks cores.
//!
//! A check without each assertion in turn says whether it is needed: where the others are refuted, it goes (the deletion filter of
//! Chinneck and Dravnieks 1991).
ghost use Rattle.std.specs.Prelude.{◌≡◌, ◌+◌, ◌<◌, ◌≤◌, ◌∷◌, ◌++◌, [], ℕ, drop, All, Some, length, slice_get, IfOk, OnOk};
ghost use Rattle.ct_card.specs.Sizes.{AreSizes};
ghost use Rattle.ct_terms.specs.Terms.{AreSorted, IsBoolean};
ghost use Rattle.ct_closure.specs.Closed.{HasMoreThan, most_closure_terms};
ghost use Rattle.ct_closure.specs.ClosedTable.{terms_at};
ghost use Rattle.ct_shrink.specs.Shrunk.{IsCoreOf, IsRefutedAt, IsShrunk};
ghost use Rattle.ct_shrink.specs.Shrinking.{IsDraft};

use crate::asking::verdict_at;
use crate::error::ShrinkError;
use crate::facts::models;
use crate::shrunk::{Need, Shrunk};
use ct_card::Sizes;
use ct_core::UnsatCore;
use ct_engine::{Kept, Verdict};
use ct_log::Derivation;
use ct_sorts::{Signature, growth};
use ct_terms::{TermId, TermTable};
use std::alloc::Global;

/// A core that is being shrunk: of the places so far those that are needed, why they are, and a derivation from the assertions at
/// these and the later places.
#[derive(Drop)]
pub(crate) struct Draft {
    /// The places that are needed.
    pub(crate) places: Vec<u64>,
    /// For each of them why.
    pub(crate) needs: Vec<Need>,
    /// The derivation.
    pub(crate) derivation: Box<Derivation>,
}

/// Shrinks a core of the assertions, which are terms of the table. For each place of the core in order it checks the
/// other assertions, with at most `budget` decisions, and removes the place after `Unsat`. The checks have the clauses
/// of the theory that the derivation of the core has, and those that earlier ones of them gave.
///
/// The closure of all assertions has at most 200,000 terms. There are as many checks as the core has places. The only error is
/// out of memory, after which the core is gone.
pub fn shrink(
    alloc: Global,
    sig: &Signature,
    sizes: &Sizes,
    table: &TermTable,
    asserts: &[TermId],
    budget: u64,
    core: UnsatCore,
) -> Result<Shrunk, ShrinkError>
    requires sizes { AreSizes sig.now sizes.now }
    requires sorted { AreSorted sig.now table.now }
    requires asserts { All (IsBoolean table.now) asserts.now }
    requires fits { HasMoreThan sig.now (terms_at table.now asserts.now) most_closure_terms → ⊥ }
    requires core { IsCoreOf sig.now table.now asserts.now core.places.items core.derivation }
    ensures shrunk { IfOk result (IsShrunk sig.now table.now asserts.now budget core.places.items) }
{
    let UnsatCore { places, derivation } = core;
    let mut kept = store_of(alloc, sig, &derivation)?;
    let mut draft = begun(alloc, sig, table, asserts, places.as_slice(), derivation)?;
    consider_all(
        alloc,
        sig,
        sizes,
        table,
        asserts,
        budget,
        places.as_slice(),
        &mut kept,
        &mut draft,
    )?;
    drop(kept);
    Ok(finished(draft))
}

// A store with the clauses that the theory gave in the derivation.
fn store_of(
    alloc: Global,
    sig: &Signature,
    derivation: &Derivation,
) -> Result<Box<Kept>, ShrinkError>
    requires declarations { derivation.now.declarations ≡ sig.now }
    ensures sorted { IfOk result (λ kept. AreSorted sig.now kept.value.table) }
{
    growth();
    let _sorts = sig.sorts();
    let mut kept = Box::new(alloc, Kept::new(alloc)?)?;
    kept.take(alloc, sig, derivation, 0)?;
    Ok(kept)
}

// Nothing is known of any place.
fn begun(
    alloc: Global,
    sig: &Signature,
    table: &TermTable,
    asserts: &[TermId],
    places: &[u64],
    derivation: Derivation,
) -> Result<Draft, ShrinkError>
    requires core { IsCoreOf sig.now table.now asserts.now places.now derivation }
    ensures draft { IfOk result (λ draft. (budget : ℕ) → IsDraft sig.now table.now asserts.now budget places.now 0 draft) }
{
    models();
    let derivation = Box::new(alloc, derivation)?;
    refuted(sig, table, asserts, places, &derivation);
    Ok(Draft {
        places: Vec::new(alloc),
        needs: Vec::new(alloc),
        derivation,
    })
}

// The derivation of a core refutes its assertions.
fn refuted(
    sig: &Signature,
    table: &TermTable,
    asserts: &[TermId],
    places: &[u64],
    derivation: &Derivation,
)
    requires core { IsCoreOf sig.now table.now asserts.now places.now derivation.now }
    ensures refuted { IsRefutedAt sig.now table.now asserts.now places.now derivation.now }
{
    models();
    let _sorts = sig.sorts();
    let _terms = derivation.rec().table().len();
}

// Asks for each place in order whether it is needed.
fn consider_all(
    alloc: Global,
    sig: &Signature,
    sizes: &Sizes,
    table: &TermTable,
    asserts: &[TermId],
    budget: u64,
    places: &[u64],
    kept: &mut Kept,
    draft: &mut Draft,
) -> Result<(), ShrinkError>
    requires sizes { AreSizes sig.now sizes.now }
    requires sorted { AreSorted sig.now table.now }
    requires asserts { All (IsBoolean table.now) asserts.now }
    requires fits { HasMoreThan sig.now (terms_at table.now asserts.now) most_closure_terms → ⊥ }
    requires kept { AreSorted sig.now kept.old.table }
    requires draft { IsDraft sig.now table.now asserts.now budget places.now 0 draft.old }
    ensures draft { OnOk result (IsDraft sig.now table.now asserts.now budget places.now (length places.now) draft.new) }
{
    for index in 0..places.len() {
        consider(
            alloc, sig, sizes, table, asserts, budget, places, index, kept, draft,
        )?;
    }
    Ok(())
}

// Asks whether the place at this index is needed, and keeps it where it is, or where this is left open.
fn consider(
    alloc: Global,
    sig: &Signature,
    sizes: &Sizes,
    table: &TermTable,
    asserts: &[TermId],
    budget: u64,
    places: &[u64],
    index: usize,
    kept: &mut Kept,
    draft: &mut Draft,
) -> Result<(), ShrinkError>
    requires sizes { AreSizes sig.now sizes.now }
    requires sorted { AreSorted sig.now table.now }
    requires asserts { All (IsBoolean table.now) asserts.now }
    requires fits { HasMoreThan sig.now (terms_at table.now asserts.now) most_closure_terms → ⊥ }
    requires index { index < length places.now }
    requires kept { AreSorted sig.now kept.old.table }
    requires draft { IsDraft sig.now table.now asserts.now budget places.now index draft.old }
    ensures draft { OnOk result (IsDraft sig.now table.now asserts.now budget places.now (index + 1) draft.new) }
    ensures kept { AreSorted sig.now kept.new.table }
{
    let place = place_at(places, index);
    let later = after(places, index + 1);
    let asked = others(alloc, draft.places.as_slice(), later)?;
    let verdict = verdict_at(
        alloc,
        sig,
        sizes,
        table,
        asserts,
        budget,
        asked.as_slice(),
        kept,
    )?;
    match verdict {
        Verdict::Sat(interp) => {
            keep(draft, place, Need::Shown(interp))?;
            Ok(())
        }
        Verdict::Unsat(derivation) => {
            replace(alloc, draft, derivation)?;
            Ok(())
        }
        Verdict::Unknown(spent) => {
            keep(draft, place, Need::Open(spent))?;
            Ok(())
        }
    }
}

// The place at this index.
fn place_at(places: &[u64], index: usize) -> u64
    requires within { index < length places.now }
    ensures stands { slice_get places.now index ≡ Some result }
{
    places[index]
}

// The places after so many first ones.
fn after(places: &[u64], count: usize) -> &[u64]
    requires within { count ≤ length places.now }
    ensures value { result.now ≡ drop count places.now }
{
    &places[count..]
}

// The places that are needed, and the later ones.
fn others(alloc: Global, needed: &[u64], later: &[u64]) -> Result<Vec<u64>, ShrinkError>
    ensures both { IfOk result (λ places. places.items ≡ needed.now ++ later.now) }
{
    let mut places = Vec::from_slice(alloc, needed)?;
    places.extend_from_slice(later)?;
    Ok(places)
}

// Keeps the place, with why it is needed.
fn keep(draft: &mut Draft, place: u64, need: Need) -> Result<(), ShrinkError>
    ensures places { OnOk result (draft.new.places.items ≡ draft.old.places.items ++ place ∷ []) }
    ensures needs { OnOk result (draft.new.needs.items ≡ draft.old.needs.items ++ need ∷ []) }
    ensures derivation { OnOk result (draft.new.derivation ≡ draft.old.derivation) }
{
    draft.places.push(place)?;
    draft.needs.push(need)?;
    Ok(())
}

// Exchanges the derivation.
fn replace(alloc: Global, draft: &mut Draft, derivation: Derivation) -> Result<(), ShrinkError>
    ensures places { OnOk result (draft.new.places.items ≡ draft.old.places.items) }
    ensures needs { OnOk result (draft.new.needs.items ≡ draft.old.needs.items) }
    ensures derivation { OnOk result (draft.new.derivation.value ≡ derivation) }
{
    draft.derivation = Box::new(alloc, derivation)?;
    Ok(())
}

// The core that is left.
fn finished(draft: Draft) -> Shrunk
    ensures places { result.core.places.items ≡ draft.places.items }
    ensures needs { result.needs.items ≡ draft.needs.items }
    ensures derivation { result.core.derivation ≡ draft.derivation.value }
{
    let Draft {
        places,
        needs,
        derivation,
    } = draft;
    Shrunk {
        core: UnsatCore {
            places,
            derivation: Box::into_inner(derivation),
        },
        needs,
    }
}
