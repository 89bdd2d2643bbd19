//! Cores that are shrunk. `(shrink LIMIT EXPRESSION ..)` asserts formulas, and where they are refuted shrinks the core of the
//! derivation, with at most so many decisions a check. It shows the places that are left, with ` shown` or ` open` behind each, and
//! whether the checker passes the derivation of the core that is left. `(shrink-all LIMIT EXPRESSION ..)` does so with the whole of
//! the derivation and all places.
ghost use Rattle.std.specs.Prelude.{IfOk, IfSome};
ghost use Rattle.ct_closure.specs.Closed.{HasMoreThan, most_closure_terms};
ghost use Rattle.ct_closure.specs.ClosedTable.{terms_at};
ghost use Rattle.ct_engine.specs.Verdict.{IsRefutation};
ghost use Rattle.ct_shrink.specs.Shrunk.{IsCoreOf};
ghost use Rattle.test_engine.specs.Asserted.{IsAsserted};
ghost use Rattle.test_engine.specs.Scopes.{IsSound};

use crate::show::{show_passed, sizes_of};
use crate::table::{Assertions, assert_formulas};
use ct_cases::CaseError;
use ct_compile::Scope;
use ct_core::{CoreError, UnsatCore, core_of};
use ct_engine::{SolveError, Verdict, solve};
use ct_log::Derivation;
use ct_sexpr::Sexpr;
use ct_shrink::{Need, ShrinkError, Shrunk, cores_of_refutations, shrink};
use ct_sorts::Signature;
use std::alloc::Global;

/// The decisions of the first check.
const MANY: u64 = 1_000_000;

/// Shows the shrunk core of formulas: of the core of their derivation.
pub fn show_shrunk(
    alloc: Global,
    scope: &Scope,
    limit: u64,
    exprs: &[Sexpr],
    out: &mut String,
) -> Result<(), CaseError>
    requires sound { IsSound scope.now }
{
    let formulas = assert_formulas(alloc, scope, exprs)?;
    match refutation(alloc, scope, &formulas)? {
        Some(derivation) => {
            let core = core(alloc, &scope.sig, &formulas, &derivation)?;
            drop(derivation);
            show(alloc, &scope.sig, &formulas, limit, core, out)
        }
        None => Ok(out.push_str(" none")?),
    }
}

/// Shows the shrunk core of formulas: of all of their derivation.
pub fn show_all_shrunk(
    alloc: Global,
    scope: &Scope,
    limit: u64,
    exprs: &[Sexpr],
    out: &mut String,
) -> Result<(), CaseError>
    requires sound { IsSound scope.now }
{
    let formulas = assert_formulas(alloc, scope, exprs)?;
    match refutation(alloc, scope, &formulas)? {
        Some(derivation) => {
            let core = whole(alloc, &scope.sig, &formulas, derivation)?;
            show(alloc, &scope.sig, &formulas, limit, core, out)
        }
        None => Ok(out.push_str(" none")?),
    }
}

/// A derivation that refutes the formulas; none where there is no such.
fn refutation(
    alloc: Global,
    scope: &Scope,
    formulas: &Assertions,
) -> Result<Option<Box<Derivation>>, CaseError>
    requires asserted { IsAsserted scope.now.sig formulas.now.table.value formulas.now.asserts.items }
    ensures refutation { IfOk result (λ found. IfSome found (λ derivation. IsRefutation scope.now.sig formulas.now.table.value formulas.now.asserts.items derivation.value)) }
    ensures fits { IfOk result (λ found. IfSome found (λ derivation. HasMoreThan scope.now.sig (terms_at formulas.now.table.value formulas.now.asserts.items) most_closure_terms → ⊥)) }
{
    match solve(alloc, &scope.sig, &formulas.table, &formulas.asserts, MANY) {
        Ok(Verdict::Unsat(derivation)) => Ok(Some(Box::new(alloc, derivation)?)),
        Ok(_) => Ok(None),
        Err(SolveError::TooLarge) => Ok(None),
        Err(SolveError::NoMemory) => Err(CaseError::NoMemory),
    }
}

/// The core of the derivation.
fn core(
    alloc: Global,
    sig: &Signature,
    formulas: &Assertions,
    derivation: &Derivation,
) -> Result<Box<UnsatCore>, CaseError>
    requires refutation { IsRefutation sig.now formulas.now.table.value formulas.now.asserts.items derivation.now }
    ensures core { IfOk result (λ core. IsCoreOf sig.now formulas.now.table.value formulas.now.asserts.items core.value.places.items core.value.derivation) }
{
    cores_of_refutations();
    let sizes = sizes_of(alloc, sig)?;
    match core_of(alloc, sig, &sizes, derivation) {
        Ok(core) => Ok(Box::new(alloc, core)?),
        Err(CoreError) => Err(CaseError::NoMemory),
    }
}

/// The whole of the derivation, with all places.
fn whole(
    alloc: Global,
    sig: &Signature,
    formulas: &Assertions,
    derivation: Box<Derivation>,
) -> Result<Box<UnsatCore>, CaseError>
    requires refutation { IsRefutation sig.now formulas.now.table.value formulas.now.asserts.items derivation.value }
    ensures core { IfOk result (λ core. IsCoreOf sig.now formulas.now.table.value formulas.now.asserts.items core.value.places.items core.value.derivation) }
{
    let mut places = Vec::new(alloc);
    for place in 0..formulas.asserts.len() {
        places.push(place as u64)?;
    }
    let core = UnsatCore {
        places,
        derivation: Box::into_inner(derivation),
    };
    Ok(Box::new(alloc, core)?)
}

/// Shrinks the core, and shows what is left.
fn show(
    alloc: Global,
    sig: &Signature,
    formulas: &Assertions,
    limit: u64,
    core: Box<UnsatCore>,
    out: &mut String,
) -> Result<(), CaseError>
    requires asserted { IsAsserted sig.now formulas.now.table.value formulas.now.asserts.items }
    requires fits { HasMoreThan sig.now (terms_at formulas.now.table.value formulas.now.asserts.items) most_closure_terms → ⊥ }
    requires core { IsCoreOf sig.now formulas.now.table.value formulas.now.asserts.items core.value.places.items core.value.derivation }
{
    let sizes = sizes_of(alloc, sig)?;
    match shrink(
        alloc,
        sig,
        &sizes,
        &formulas.table,
        &formulas.asserts,
        limit,
        Box::into_inner(core),
    ) {
        Ok(shrunk) => {
            let shrunk = Box::new(alloc, shrunk)?;
            show_places(alloc, &shrunk.core.places, &shrunk.needs, out)?;
            show_passed(alloc, sig, &shrunk.core.derivation, out)
        }
        Err(ShrinkError) => Err(CaseError::NoMemory),
    }
}

/// Shows each place, with why it is needed.
fn show_places(
    alloc: Global,
    places: &[u64],
    needs: &[Need],
    out: &mut String,
) -> Result<(), CaseError> {
    for (place, need) in places.iter().zip(needs) {
        let why = match need {
            Need::Shown(_) => "shown",
            Need::Open(_) => "open",
        };
        out.push_str(format!(in alloc; " {place} {why}")?.as_str())?;
    }
    Ok(())
}
