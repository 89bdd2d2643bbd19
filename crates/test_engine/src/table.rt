//! Tables of the formulas that a case asserts.
ghost use Rattle.std.specs.Prelude.{[], IfOk, OnOk};
ghost use Rattle.test_engine.specs.Scopes.{IsSound};
ghost use Rattle.test_engine.specs.Asserted.{IsAsserted};

use crate::define::BOOL;
use crate::elaborate::term_of;
use ct_cases::{CaseError, extends_start};
use ct_compile::{Scope, compile};
use ct_formulas::formulas;
use ct_sexpr::Sexpr;
use ct_sorts::Signature;
use ct_terms::{TermError, TermId, TermTable, core_trees};
use std::alloc::Global;

/// Formulas that are asserted, as terms of a table.
#[derive(Drop)]
pub struct Assertions {
    /// The terms.
    pub table: Box<TermTable>,
    /// The numbers of the formulas, in order.
    pub asserts: Vec<TermId>,
}

/// The formulas that the expressions write, as terms of a table.
pub fn assert_formulas(
    alloc: Global,
    scope: &Scope,
    exprs: &[Sexpr],
) -> Result<Assertions, CaseError>
    requires sound { IsSound scope.now }
    ensures asserted { IfOk result (λ formulas. IsAsserted scope.now.sig formulas.table.value formulas.asserts.items) }
{
    let mut table = new_table(alloc, &scope.sig)?;
    let mut asserts = Vec::new(alloc);
    for expr in exprs {
        assert_formula(alloc, scope, &mut table, &mut asserts, expr)?;
    }
    Ok(Assertions { table, asserts })
}

/// The table of the truth values.
fn new_table(alloc: Global, sig: &Signature) -> Result<Box<TermTable>, CaseError>
    ensures asserted { IfOk result (λ table. IsAsserted sig.now table.value []) }
{
    extends_start(sig);
    core_trees();
    match TermTable::new(alloc) {
        Ok(table) => {
            table.len();
            Ok(Box::new(alloc, table)?)
        }
        Err(_) => Err(CaseError::NoMemory),
    }
}

/// Makes the core term of a formula, and adds it to those that are asserted.
fn assert_formula(
    alloc: Global,
    scope: &Scope,
    table: &mut TermTable,
    asserts: &mut Vec<TermId>,
    expr: &Sexpr,
) -> Result<(), CaseError>
    requires sound { IsSound scope.now }
    requires before { IsAsserted scope.now.sig table.old asserts.old.items }
    ensures after { OnOk result (IsAsserted scope.now.sig table.new asserts.new.items) }
{
    core_trees();
    formulas();
    scope.sig.sorts();
    let (tree, sort) = term_of(alloc, scope, &[], expr)?;
    if sort != BOOL {
        return Err(CaseError::Bad);
    }
    match compile(alloc, scope, table, &tree) {
        Ok(t) => {
            table.len();
            Ok(asserts.push(t)?)
        }
        Err(TermError::Full) => Err(CaseError::Bad),
        Err(TermError::NoMemory) => Err(CaseError::NoMemory),
    }
}
