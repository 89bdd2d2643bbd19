//! Verdicts. `(solve BUDGET EXPRESSION ..)` asserts formulas, and shows the verdict on them in at most so many decisions: `sat
//! verified`, once the interpretation is seen to be proper and to make all of them true; `unsat verified`, once the checker has
//! passed the derivation; or `unknown` with the number of variables and the moves. `(show BUDGET EXPRESSION ..)` shows
//! derivations as a whole, and `(count BUDGET EXPRESSION ..)` how many moves of each kind there are.
ghost use Rattle.std.specs.Prelude.{◌≡◌, IfOk, IfSome};
ghost use Rattle.test_engine.specs.Asserted.{IsAsserted};
ghost use Rattle.test_engine.specs.Verdicts.{IsOver};
ghost use Rattle.test_engine.specs.Scopes.{IsSound};

use crate::model::show_model;
use crate::show::{show_moves, show_passed};
use crate::table::{Assertions, assert_formulas};
use crate::tally::show_tally;
use crate::text::show_record;
use ct_cases::CaseError;
use ct_compile::Scope;
use ct_engine::{SolveError, Verdict, solve};
use ct_log::Derivation;
use ct_sexpr::Sexpr;
use ct_sorts::Signature;
use std::alloc::Global;

/// Shows the verdict on formulas.
pub fn show_verdict(
    alloc: Global,
    scope: &Scope,
    budget: u64,
    exprs: &[Sexpr],
    out: &mut String,
) -> Result<(), CaseError>
    requires sound { IsSound scope.now }
{
    let formulas = assert_formulas(alloc, scope, exprs)?;
    match verdict_on(alloc, scope, budget, &formulas)? {
        Some(verdict) => show(alloc, scope, &formulas, &verdict, out),
        None => Ok(out.push_str(" too-large")?),
    }
}

/// Shows the verdict on formulas, with the whole of its derivation where it has one.
pub fn show_contents(
    alloc: Global,
    scope: &Scope,
    budget: u64,
    exprs: &[Sexpr],
    out: &mut String,
) -> Result<(), CaseError>
    requires sound { IsSound scope.now }
{
    let formulas = assert_formulas(alloc, scope, exprs)?;
    match verdict_on(alloc, scope, budget, &formulas)? {
        Some(verdict) => {
            show(alloc, scope, &formulas, &verdict, out)?;
            show_derivation(alloc, scope, &verdict, out)
        }
        None => Ok(out.push_str(" too-large")?),
    }
}

/// Shows the word of the verdict on formulas, and counts of the moves where there are any.
pub fn show_counts(
    alloc: Global,
    scope: &Scope,
    budget: u64,
    exprs: &[Sexpr],
    out: &mut String,
) -> Result<(), CaseError>
    requires sound { IsSound scope.now }
{
    let formulas = assert_formulas(alloc, scope, exprs)?;
    match verdict_on(alloc, scope, budget, &formulas)? {
        Some(verdict) => show_word(alloc, &verdict, out),
        None => Ok(out.push_str(" too-large")?),
    }
}

/// Shows the word of a verdict, and counts of its moves.
fn show_word(alloc: Global, verdict: &Verdict, out: &mut String) -> Result<(), CaseError> {
    match verdict {
        Verdict::Sat(_) => Ok(out.push_str(" sat")?),
        Verdict::Unsat(_) => Ok(out.push_str(" unsat")?),
        Verdict::Unknown(spent) => {
            let text = format!(in alloc; " unknown {}", spent.variables)?;
            out.push_str(text.as_str())?;
            show_tally(alloc, spent, out)
        }
    }
}

/// The verdict on formulas; none where their closure is too large.
#[tactic(auto, using(crate::proofs::VerdictLemmas::own_declarations))]
fn verdict_on(
    alloc: Global,
    scope: &Scope,
    budget: u64,
    formulas: &Assertions,
) -> Result<Option<Box<Verdict>>, CaseError>
    requires asserted { IsAsserted scope.now.sig formulas.now.table.value formulas.now.asserts.items }
    ensures own { IfOk result (λ found. IfSome found (λ verdict. IsOver scope.now.sig verdict.value)) }
{
    match solve(
        alloc,
        &scope.sig,
        &formulas.table,
        &formulas.asserts,
        budget,
    ) {
        Ok(verdict) => Ok(Some(Box::new(alloc, verdict)?)),
        Err(SolveError::TooLarge) => Ok(None),
        Err(SolveError::NoMemory) => Err(CaseError::NoMemory),
    }
}

/// Shows a verdict.
pub fn show(
    alloc: Global,
    scope: &Scope,
    formulas: &Assertions,
    verdict: &Verdict,
    out: &mut String,
) -> Result<(), CaseError>
    requires asserted { IsAsserted scope.now.sig formulas.now.table.value formulas.now.asserts.items }
    requires own { IsOver scope.now.sig verdict.now }
{
    match verdict {
        Verdict::Sat(interp) => show_model(alloc, &scope.sig, interp, formulas, out),
        Verdict::Unsat(derivation) => show_passed(alloc, &scope.sig, derivation, out),
        Verdict::Unknown(spent) => {
            let text = format!(in alloc; " unknown {}", spent.variables)?;
            out.push_str(text.as_str())?;
            show_moves(alloc, spent, out)
        }
    }
}

/// Shows the derivation of a verdict, where it has one.
fn show_derivation(
    alloc: Global,
    scope: &Scope,
    verdict: &Verdict,
    out: &mut String,
) -> Result<(), CaseError>
    requires own { IsOver scope.now.sig verdict.now }
{
    match verdict {
        Verdict::Unsat(derivation) => show_lines(alloc, &scope.sig, derivation, out),
        Verdict::Unknown(spent) => show_lines(alloc, &scope.sig, &spent.derivation, out),
        _ => Ok(()),
    }
}

/// Shows a derivation over these declarations.
fn show_lines(
    alloc: Global,
    sig: &Signature,
    derivation: &Derivation,
    out: &mut String,
) -> Result<(), CaseError>
    requires own { derivation.now.declarations ≡ sig.now }
{
    show_record(alloc, sig, derivation.rec(), out)
}
