//! Sort checking: `(elaborate (PARAMETER ..) EXPRESSION)`, where a parameter is `(NAME SORT)`, shows
//! the expression's sort or its first error, as `E21`; so does `(sort EXPRESSION)` of the sort that
//! an expression names.
ghost use Rattle.std.specs.Prelude.{◌≡◌, [], All, IfOk, map};
ghost use Rattle.ct_sorts.specs.Declarations.{IsSort};
ghost use Rattle.ct_formulas.specs.Formula.{bind};
ghost use Rattle.ct_formulas.specs.FormulaSorts.{IsSorted};
ghost use Rattle.ct_formulas.specs.TreeFormula.{formula_of};
ghost use Rattle.ct_names.specs.declared.variables.Param.{Param};

use crate::show::show_sort_name;
use ct_cases::{CaseError, bytes_of, items_of, sort_of as declared_sort};
use ct_check::{CheckError, Param, elaborate, elaborate_there, elaboration, sort_of};
use ct_compile::Scope;
use ct_formulas::Tree;
use ct_sexpr::{Bytes, Sexpr};
use ct_sorts::{Items, Signature, SortId};
use std::alloc::Global;

/// Shows the sort of an expression under parameters, or its first error.
pub fn show_sort(
    alloc: Global,
    scope: &Scope,
    params: &[Sexpr],
    expr: &Sexpr,
    out: &mut String,
) -> Result<(), CaseError> {
    let params = params_of(alloc, &scope.sig, params)?;
    let mut own = own_scope(alloc, scope)?;
    match elaborate(alloc, &mut own, &params, expr) {
        Ok((tree, sort)) => {
            drop(tree);
            show_sort_name(alloc, &own.sig, sort, out)
        }
        Err(error) => show_error(alloc, error, out),
    }
}

/// Shows the sort that an expression names, or the error.
pub fn show_named(
    alloc: Global,
    scope: &Scope,
    expr: &Sexpr,
    out: &mut String,
) -> Result<(), CaseError> {
    let mut own = own_scope(alloc, scope)?;
    match sort_of(alloc, &mut own, expr) {
        Ok(sort) => show_sort_name(alloc, &own.sig, sort, out),
        Err(error) => show_error(alloc, error, out),
    }
}

/// Shows the error.
pub fn show_error(alloc: Global, error: CheckError, out: &mut String) -> Result<(), CaseError> {
    match error {
        CheckError::Refused(number) => {
            Ok(out.push_str(format!(in alloc; " E{number}")?.as_str())?)
        }
        CheckError::NoMemory => Err(CaseError::NoMemory),
    }
}

/// The tree of an expression under parameters, and its sort.
pub fn term_of(
    alloc: Global,
    scope: &Scope,
    params: &[Param],
    expr: &Sexpr,
) -> Result<(Tree, SortId), CaseError>
    requires inside { All (λ (p : Param). IsSort scope.now.sig p.sort) params.now }
    ensures sorted { IfOk result (λ found. IsSorted scope.now.sig
        (bind (map (λ (p : Param). p.sort) params.now) []) (formula_of found.0) found.1) }
{
    let mut own = own_scope(alloc, scope)?;
    term_there(alloc, &mut own, params, expr)
}

/// The tree of an expression under parameters, and its sort. No sort is added.
fn term_there(
    alloc: Global,
    scope: &mut Scope,
    params: &[Param],
    expr: &Sexpr,
) -> Result<(Tree, SortId), CaseError>
    requires inside { All (λ (p : Param). IsSort scope.old.sig p.sort) params.now }
    ensures sorted { IfOk result (λ found. IsSorted scope.old.sig
        (bind (map (λ (p : Param). p.sort) params.now) []) (formula_of found.0) found.1) }
{
    elaboration();
    scope.sig.sorts();
    match elaborate_there(alloc, scope, params, expr) {
        Ok(found) => Ok(found),
        Err(CheckError::Refused(_)) => Err(CaseError::Bad),
        Err(CheckError::NoMemory) => Err(CaseError::NoMemory),
    }
}

/// The declarations of the scope alone.
pub fn own_scope(alloc: Global, scope: &Scope) -> Result<Box<Scope>, CaseError>
    ensures same { IfOk result (λ own. own.value.sig ≡ scope.now.sig) }
{
    let sig = scope.sig.copy()?;
    let bodies = Items::new(Vec::new(alloc));
    Ok(Box::new(alloc, Scope { sig, bodies })?)
}

/// The parameters that the parts write.
pub fn params_of(alloc: Global, sig: &Signature, parts: &[Sexpr]) -> Result<Vec<Param>, CaseError>
    ensures inside { IfOk result (λ params. All (λ (p : Param). IsSort sig.now p.sort) params.items) }
{
    let mut params = Vec::new(alloc);
    for part in parts {
        params.push(param_of(alloc, sig, part)?)?;
    }
    Ok(params)
}

/// The parameter that a part writes.
fn param_of(alloc: Global, sig: &Signature, part: &Sexpr) -> Result<Param, CaseError>
    ensures inside { IfOk result (λ param. IsSort sig.now param.sort) }
{
    match items_of(part)? {
        [name, sort] => {
            let name = Bytes::new(bytes_of(alloc, name)?);
            let sort = declared_sort(alloc, sig, sort)?;
            Ok(Param { name, sort })
        }
        _ => Err(CaseError::Bad),
    }
}
