//! Closures: `(close EXPRESSION ..)` compiles formulas into one table and closes it, and shows how
//! many terms there are, how many of them are propositional variables, and how many are split; or
//! that the closure is too large.
ghost use Rattle.std.specs.Prelude.{IfOk, OnOk};
ghost use Rattle.ct_card.specs.Sizes.{AreSizes};
ghost use Rattle.test_checking.specs.Scopes.{IsSound};
ghost use Rattle.test_checking.specs.Asserted.{IsAsserted};

use crate::compile::new_table;
use crate::define::BOOL;
use crate::elaborate::term_of;
use ct_card::{CardError, Sizes};
use ct_cases::CaseError;
use ct_closure::{CloseError, Closure, close};
use ct_compile::{Scope, compile};
use ct_formulas::formulas;
use ct_sexpr::Sexpr;
use ct_terms::{TermError, TermId, TermTable, core_trees};
use std::alloc::Global;

/// Shows the closure of formulas.
pub fn show_closed(
    alloc: Global,
    scope: &Scope,
    exprs: &[Sexpr],
    out: &mut String,
) -> Result<(), CaseError>
    requires sound { IsSound scope.now }
{
    let (mut table, asserts) = assert_all(alloc, scope, exprs)?;
    let sizes = sizes_of(alloc, scope)?;
    let closed = close(alloc, &scope.sig, &sizes, &mut table, &asserts);
    match closed {
        Ok(closure) => show_counts(alloc, &table, &closure, out),
        Err(CloseError::TooLarge) => Ok(out.push_str(" TooLarge")?),
        Err(CloseError::NoMemory) => Err(CaseError::NoMemory),
    }
}

/// The table of formulas and their subterms, and the formulas.
pub fn assert_all(
    alloc: Global,
    scope: &Scope,
    exprs: &[Sexpr],
) -> Result<(Box<TermTable>, Vec<TermId>), CaseError>
    requires sound { IsSound scope.now }
    ensures asserted { IfOk result (λ made. IsAsserted scope.now.sig made.0.value made.1.items) }
{
    let mut table = new_table(alloc, &scope.sig)?;
    let mut asserts = Vec::new(alloc);
    for expr in exprs {
        assert_formula(alloc, scope, &mut table, &mut asserts, expr)?;
    }
    Ok((table, asserts))
}

/// Makes the core term of a formula, and adds it to those that are asserted.
fn assert_formula(
    alloc: Global,
    scope: &Scope,
    table: &mut TermTable,
    asserts: &mut Vec<TermId>,
    expr: &Sexpr,
) -> Result<(), CaseError>
    requires sound { IsSound scope.now }
    requires before { IsAsserted scope.now.sig table.old asserts.old.items }
    ensures after { OnOk result (IsAsserted scope.now.sig table.new asserts.new.items) }
{
    core_trees();
    formulas();
    scope.sig.sorts();
    let (tree, sort) = term_of(alloc, scope, &[], expr)?;
    if sort != BOOL {
        return Err(CaseError::Bad);
    }
    match compile(alloc, scope, table, &tree) {
        Ok(t) => {
            table.len();
            Ok(asserts.push(t)?)
        }
        Err(TermError::Full) => Err(CaseError::Bad),
        Err(TermError::NoMemory) => Err(CaseError::NoMemory),
    }
}

/// The sizes of all sorts.
pub fn sizes_of(alloc: Global, scope: &Scope) -> Result<Box<Sizes>, CaseError>
    ensures sizes { IfOk result (λ sizes. AreSizes scope.now.sig sizes.value) }
{
    match Sizes::new(alloc, &scope.sig) {
        Ok(sizes) => Ok(Box::new(alloc, sizes)?),
        Err(CardError) => Err(CaseError::NoMemory),
    }
}

/// Shows how large the closure is.
fn show_counts(
    alloc: Global,
    table: &TermTable,
    closure: &Closure,
    out: &mut String,
) -> Result<(), CaseError> {
    let terms = table.len();
    let variables = closure.variables();
    let split = closure.split().len();
    let text = format!(in alloc; " terms {terms} variables {variables} split {split}")?;
    Ok(out.push_str(text.as_str())?)
}
