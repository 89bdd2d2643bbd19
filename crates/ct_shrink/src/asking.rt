//! A check of the assertions at some of the places.
ghost use Rattle.std.specs.Prelude.{◌≡◌, ◌<◌, List, All, Contains, Some, length, slice_get, IfOk};
ghost use Rattle.ct_terms.specs.declared.ids.TermId.{TermId};
ghost use Rattle.ct_card.specs.Sizes.{AreSizes};
ghost use Rattle.ct_terms.specs.Terms.{AreSorted, IsBoolean};
ghost use Rattle.ct_closure.specs.Closed.{HasMoreThan, most_closure_terms};
ghost use Rattle.ct_closure.specs.ClosedTable.{AreSubtermsOf, terms_at};
ghost use Rattle.ct_core.specs.Core.{AreAt};
ghost use Rattle.ct_engine.specs.Verdict.{IsVerdict};

use crate::error::ShrinkError;
use crate::facts::models;
use ct_card::Sizes;
use ct_engine::{Kept, SolveError, Verdict, solve_kept};
use ct_restriction::restrict;
use ct_sorts::Signature;
use ct_terms::{TermId, TermTable};
use std::alloc::Global;

/// A verdict on the assertions at these places, over a table that is restricted to them, with the clauses of the store.
pub(crate) fn verdict_at(
    alloc: Global,
    sig: &Signature,
    sizes: &Sizes,
    table: &TermTable,
    asserts: &[TermId],
    budget: u64,
    places: &[u64],
    kept: &mut Kept,
) -> Result<Verdict, ShrinkError>
    requires sizes { AreSizes sig.now sizes.now }
    requires sorted { AreSorted sig.now table.now }
    requires asserts { All (IsBoolean table.now) asserts.now }
    requires fits { HasMoreThan sig.now (terms_at table.now asserts.now) most_closure_terms → ⊥ }
    requires within { All (λ place. place < length asserts.now) places.now }
    requires kept { AreSorted sig.now kept.old.table }
    ensures verdict { (chosen : List TermId) → AreAt asserts.now places.now chosen → IfOk result (IsVerdict sig.now table.now chosen budget) }
    ensures kept { AreSorted sig.now kept.new.table }
{
    let chosen = chosen_terms(alloc, asserts, places)?;
    let verdict = verdict_on(
        alloc,
        sig,
        sizes,
        table,
        asserts,
        budget,
        chosen.as_slice(),
        kept,
    )?;
    Ok(verdict)
}

// The assertions at these places, in order.
fn chosen_terms(
    alloc: Global,
    asserts: &[TermId],
    places: &[u64],
) -> Result<Vec<TermId>, ShrinkError>
    requires within { All (λ place. place < length asserts.now) places.now }
    ensures terms { IfOk result (λ terms. AreAt asserts.now places.now terms.items) }
{
    let mut terms = Vec::with_capacity(alloc, places.len())?;
    for place in places {
        let t = term_at(asserts, *place);
        terms.push(t)?;
    }
    Ok(terms)
}

// The assertion at this place.
fn term_at(asserts: &[TermId], place: u64) -> TermId
    requires within { place < length asserts.now }
    ensures stands { slice_get asserts.now place ≡ Some result }
{
    asserts[place as usize]
}

// A verdict on these of the assertions.
fn verdict_on(
    alloc: Global,
    sig: &Signature,
    sizes: &Sizes,
    table: &TermTable,
    asserts: &[TermId],
    budget: u64,
    chosen: &[TermId],
    kept: &mut Kept,
) -> Result<Verdict, ShrinkError>
    requires sizes { AreSizes sig.now sizes.now }
    requires sorted { AreSorted sig.now table.now }
    requires asserts { All (IsBoolean table.now) asserts.now }
    requires fits { HasMoreThan sig.now (terms_at table.now asserts.now) most_closure_terms → ⊥ }
    requires chosen { All (Contains asserts.now) chosen.now }
    requires kept { AreSorted sig.now kept.old.table }
    ensures verdict { IfOk result (IsVerdict sig.now table.now chosen.now budget) }
    ensures kept { AreSorted sig.now kept.new.table }
{
    models();
    let (restricted, roots) = restrict(alloc, sig, table, chosen)?;
    let verdict = verdict_over(
        alloc,
        sig,
        sizes,
        &restricted,
        roots.as_slice(),
        budget,
        kept,
    )?;
    drop(restricted);
    Ok(verdict)
}

// A verdict on assertions whose closure is not too large, over a table of their subterms alone.
fn verdict_over(
    alloc: Global,
    sig: &Signature,
    sizes: &Sizes,
    table: &TermTable,
    asserts: &[TermId],
    budget: u64,
    kept: &mut Kept,
) -> Result<Verdict, ShrinkError>
    requires sizes { AreSizes sig.now sizes.now }
    requires sorted { AreSorted sig.now table.now }
    requires asserts { All (IsBoolean table.now) asserts.now }
    requires exact { AreSubtermsOf table.now asserts.now }
    requires fits { HasMoreThan sig.now (terms_at table.now asserts.now) most_closure_terms → ⊥ }
    requires kept { AreSorted sig.now kept.old.table }
    ensures verdict { IfOk result (IsVerdict sig.now table.now asserts.now budget) }
    ensures kept { AreSorted sig.now kept.new.table }
{
    match solve_kept(alloc, sig, sizes, table, asserts, budget, kept) {
        Ok(verdict) => Ok(verdict),
        Err(SolveError::TooLarge) => unreachable!(),
        Err(SolveError::NoMemory) => Err(ShrinkError),
    }
}
