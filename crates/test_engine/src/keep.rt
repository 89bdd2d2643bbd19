//! Checks one after the other over one store. `(keep BUDGET (EXPRESSION ..) (EXPRESSION ..) ..)` asserts the formulas of each list
//! alone, and shows the verdict on them, how many lines of the derivation the theory gave, and how many clauses are in the store
//! after the check.
ghost use Rattle.std.specs.Prelude.{IfOk, IfSome};
ghost use Rattle.ct_terms.specs.Terms.{AreSorted};
ghost use Rattle.test_engine.specs.Asserted.{IsAsserted};
ghost use Rattle.test_engine.specs.Scopes.{IsSound};
ghost use Rattle.test_engine.specs.Verdicts.{IsOver};

use crate::show::sizes_of;
use crate::solve::show;
use crate::table::{Assertions, assert_formulas};
use ct_cases::{CaseError, extends_start, items_of};
use ct_compile::Scope;
use ct_engine::{Kept, SolveError, Verdict, solve_kept};
use ct_log::{Line, Step};
use ct_sexpr::Sexpr;
use ct_sorts::Signature;
use std::alloc::Global;

/// Shows the verdicts on lists of formulas, over one store.
pub fn show_checks(
    alloc: Global,
    scope: &Scope,
    budget: u64,
    lists: &[Sexpr],
    out: &mut String,
) -> Result<(), CaseError>
    requires sound { IsSound scope.now }
{
    let mut kept = new_store(alloc, &scope.sig)?;
    'lists: for list in lists {
        show_check(alloc, scope, budget, list, &mut kept, out)?;
    }
    Ok(())
}

/// A store without clauses.
fn new_store(alloc: Global, sig: &Signature) -> Result<Box<Kept>, CaseError>
    ensures sorted { IfOk result (λ kept. AreSorted sig.now kept.value.table) }
{
    extends_start(sig);
    match Kept::new(alloc) {
        Ok(kept) => Ok(Box::new(alloc, kept)?),
        Err(_) => Err(CaseError::NoMemory),
    }
}

/// Shows the verdict on formulas, with the counts.
fn show_check(
    alloc: Global,
    scope: &Scope,
    budget: u64,
    list: &Sexpr,
    kept: &mut Kept,
    out: &mut String,
) -> Result<(), CaseError>
    requires sound { IsSound scope.now }
    requires sorted { AreSorted scope.now.sig kept.old.table }
    ensures sorted { AreSorted scope.now.sig kept.new.table }
{
    let formulas = assert_formulas(alloc, scope, items_of(list)?)?;
    match verdict_over(alloc, scope, budget, &formulas, kept)? {
        Some(verdict) => {
            show(alloc, scope, &formulas, &verdict, out)?;
            show_counts(alloc, &verdict, kept.lemmas().len(), out)
        }
        None => Ok(out.push_str(" too-large")?),
    }
}

/// The verdict on formulas, with the clauses of the store; none where their closure is too large.
#[tactic(auto, using(crate::proofs::VerdictLemmas::own_declarations))]
fn verdict_over(
    alloc: Global,
    scope: &Scope,
    budget: u64,
    formulas: &Assertions,
    kept: &mut Kept,
) -> Result<Option<Box<Verdict>>, CaseError>
    requires asserted { IsAsserted scope.now.sig formulas.now.table.value formulas.now.asserts.items }
    requires sorted { AreSorted scope.now.sig kept.old.table }
    ensures own { IfOk result (λ found. IfSome found (λ verdict. IsOver scope.now.sig verdict.value)) }
    ensures sorted { AreSorted scope.now.sig kept.new.table }
{
    let sizes = sizes_of(alloc, &scope.sig)?;
    match solve_kept(
        alloc,
        &scope.sig,
        &sizes,
        &formulas.table,
        &formulas.asserts,
        budget,
        kept,
    ) {
        Ok(verdict) => Ok(Some(Box::new(alloc, verdict)?)),
        Err(SolveError::TooLarge) => Ok(None),
        Err(SolveError::NoMemory) => Err(CaseError::NoMemory),
    }
}

/// Shows how many lines of the derivation the theory gave, and how many clauses the store has.
fn show_counts(
    alloc: Global,
    verdict: &Verdict,
    kept: usize,
    out: &mut String,
) -> Result<(), CaseError> {
    let given = match verdict {
        Verdict::Sat(_) => 0,
        Verdict::Unsat(derivation) => theory_lines(derivation.rec().lines()),
        Verdict::Unknown(spent) => theory_lines(spent.derivation.rec().lines()),
    };
    let text = format!(in alloc; " theory {given} kept {kept}")?;
    Ok(out.push_str(text.as_str())?)
}

/// How many of the lines the theory gave.
fn theory_lines(lines: &[Line]) -> u64 {
    let mut count = 0u64;
    for line in lines {
        if let Step::Theory(_, _) = &line.step {
            count = count.saturating_add(1);
        }
    }
    count
}
