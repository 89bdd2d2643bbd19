//! Compiling: `(compile EXPRESSION)` shows the expression's sort, the number of its core term in a
//! new table, and the terms of the table from number 2 on; or the first error, as `E21`.
ghost use Rattle.std.specs.Prelude.{[], IfOk};
ghost use Rattle.ct_formulas.specs.FormulaSorts.{IsSorted};
ghost use Rattle.ct_formulas.specs.TreeFormula.{formula_of};
ghost use Rattle.test_checking.specs.Scopes.{IsSound};
ghost use Rattle.test_checking.specs.Asserted.{IsAsserted};

use crate::elaborate::{own_scope, show_error};
use crate::show::{show_number, show_sort_name, show_terms};
use ct_cases::{CaseError, extends_start};
use ct_check::{elaborate_there, elaboration};
use ct_compile::{Scope, compile};
use ct_formulas::Tree;
use ct_sexpr::Sexpr;
use ct_sorts::{Signature, SortId};
use ct_terms::{TermError, TermTable, core_trees};
use std::alloc::Global;

/// Shows the core term of an expression.
pub fn show_compiled(
    alloc: Global,
    scope: &Scope,
    expr: &Sexpr,
    out: &mut String,
) -> Result<(), CaseError>
    requires sound { IsSound scope.now }
{
    elaboration();
    scope.sig.sorts();
    let mut own = own_scope(alloc, scope)?;
    match elaborate_there(alloc, &mut own, &[], expr) {
        Ok((tree, sort)) => show_core(alloc, scope, &tree, sort, out),
        Err(error) => show_error(alloc, error, out),
    }
}

/// Shows the core term of a tree of this sort.
fn show_core(
    alloc: Global,
    scope: &Scope,
    tree: &Tree,
    sort: SortId,
    out: &mut String,
) -> Result<(), CaseError>
    requires sound { IsSound scope.now }
    requires sorted { IsSorted scope.now.sig [] (formula_of tree.now) sort }
{
    let mut table = new_table(alloc, &scope.sig)?;
    match compile(alloc, scope, &mut table, tree) {
        Ok(t) => {
            show_sort_name(alloc, &scope.sig, sort, out)?;
            show_number(alloc, u64::from(t.0), out)?;
            show_terms(alloc, &scope.sig, &table, out)
        }
        Err(TermError::Full) => Ok(out.push_str(" E20")?),
        Err(TermError::NoMemory) => Err(CaseError::NoMemory),
    }
}

/// The table of the truth values.
pub fn new_table(alloc: Global, sig: &Signature) -> Result<Box<TermTable>, CaseError>
    ensures asserted { IfOk result (λ table. IsAsserted sig.now table.value []) }
{
    extends_start(sig);
    core_trees();
    match TermTable::new(alloc) {
        Ok(table) => {
            table.len();
            Ok(Box::new(alloc, table)?)
        }
        Err(_) => Err(CaseError::NoMemory),
    }
}
