//! The sort that an expression names, and the formula that it writes.
ghost use Rattle.std.specs.Prelude.{◌≡◌, ℕ, All, Ok, Err, IfOk, IsErrOf, OnErr};
ghost use Rattle.ct_sexpr.specs.View.{expression_of};
ghost use Rattle.ct_sorts.specs.Declarations.{IsSort};
ghost use Rattle.ct_sorts.specs.Grown.{Extends};
ghost use Rattle.ct_names.specs.declared.variables.Param.{Param};
ghost use Rattle.ct_formulas.specs.TreeFormula.{formula_of};
ghost use Rattle.ct_names.specs.declared.needs.Needs.TheVariants.{Find};
ghost use Rattle.ct_names.specs.Answer.{StopsAt};
ghost use Rattle.ct_names.specs.Bounds.{parameter_variables};
ghost use Rattle.ct_names.specs.Elaboration.{elaborated};
ghost use Rattle.ct_names.specs.Needs.{ComesTo, Reaches, ends_with};
ghost use Rattle.ct_names.specs.Refusals.{out_of_scope};
ghost use Rattle.ct_names.specs.Sorts.{sort_of};
ghost use Rattle.ct_names.specs.Stopped.{error_of};
ghost use Rattle.ct_check.specs.Trees.{sorted_of};

use crate::terms::term;
use ct_formulas::Tree;
use ct_names::{CheckError, Needs, OUT_OF_SCOPE, Param, Stop, Variables, named_sort, parameters};
use ct_scope::Scope;
use ct_sexpr::Sexpr;
use ct_sorts::{Signature, SortId};
use std::alloc::Global;

/// The number of the error of too many declarations.
const TOO_MANY: u16 = 16;

/// The sort that an expression writes (SMT-LIB 2.7, section 3.5); if it is not in the list, it is added with everything
/// that it needs. By place it is refused with 28 where the expression has no form of a sort, with 12 at an unknown name
/// and with 22 at a wrong number of arguments; and then with 16 where there is no room for the sort and all that it
/// needs. After an error the declarations are as they were.
pub fn sort_of(alloc: Global, scope: &mut Scope, expr: &Sexpr) -> Result<SortId, CheckError>
    ensures ok { IfOk result (λ s. ComesTo (λ d. sort_of d (expression_of expr.now)) scope.old.sig scope.new.sig (Ok s)) }
    ensures refused { (n : ℕ) → IsErrOf result (CheckError.Refused n) → ComesTo (λ d. sort_of d (expression_of expr.now)) scope.old.sig scope.new.sig (Err n) }
    ensures inside { IfOk result (IsSort scope.new.sig) }
    ensures unchanged { OnErr result (scope.new.sig ≡ scope.old.sig) }
    ensures bodies { scope.new.bodies ≡ scope.old.bodies }
{
    match named_sort(alloc, &mut scope.sig, Needs::Add, expr) {
        Ok(sort) => Ok(sort),
        Err(stop) => Err(error_of(stop, TOO_MANY)),
    }
}

// Why elaboration stopped, as an error, where a sort that is missing has this number.
fn error_of(stop: Stop, missing: u16) -> CheckError
    ensures error { result ≡ error_of missing stop }
{
    match stop {
        Stop::Refused(number) => CheckError::Refused(number),
        Stop::Missing => CheckError::Refused(missing),
        Stop::NoMemory => CheckError::NoMemory,
    }
}

/// The tree of an expression under parameters, with its sort (SMT-LIB 2.7, section 3.6; the details
/// of `match` and of `as` are this project's own). The sorts that it needs come into the list as they are
/// needed: those that it writes, and that of a constructor term after its arguments.
///
/// It is refused with the number of its first error: 12 unknown sort, 16 too many declarations, 19 sort of a
/// constructor that is not determined, 21 unknown symbol, 22 wrong
/// number of arguments, 23 wrong sort, 25 pattern of another sort, 26 `match` not exhaustive, 27
/// variable repeated, 28 form out of scope, as of a variable of a quantifier whose sort is not listable, 31 quantifier over too
/// many values. Errors come from left to right, but the number of
/// arguments before the arguments, 27 in a `let` before its terms and in a quantifier before the sorts, and 28 for the form of a
/// case before the matched term; 26 comes last. Or memory runs out. After an error the list may have grown
/// by sorts that were needed before it.
///
/// The time is linear in the expression, in the sorts that come into the list, for each `match` in the constructors of the
/// sort of its subject, and for each quantifier in the sorts that there are, again for each that its variables bring. A name is
/// looked for in about constant time, and a binder costs what it binds.
pub fn elaborate(
    alloc: Global,
    scope: &mut Scope,
    params: &[Param],
    expr: &Sexpr,
) -> Result<(Tree, SortId), CheckError>
    requires sorts { All (λ (p : Param). IsSort scope.old.sig p.sort) params.now }
    ensures ok { IfOk result (λ t. ComesTo (λ d. elaborated d (parameter_variables params.now) (expression_of expr.now)) scope.old.sig scope.new.sig
        (Ok (formula_of t.0, t.1))) }
    ensures refused { (n : ℕ) → IsErrOf result (CheckError.Refused n)
        → ComesTo (λ d. elaborated d (parameter_variables params.now) (expression_of expr.now)) scope.old.sig scope.new.sig (Err n) }
    ensures inside { IfOk result (λ t. IsSort scope.new.sig t.1) }
    ensures grown { Extends scope.new.sig scope.old.sig }
    ensures bodies { scope.new.bodies ≡ scope.old.bodies }
{
    match elaborate_with(alloc, &mut scope.sig, Needs::Add, params, expr) {
        Ok(sorted) => Ok(sorted),
        Err(stop) => Err(error_of(stop, TOO_MANY)),
    }
}

/// The same over declarations that stay as they are: refused with 28 if a sort is needed that does not exist.
pub fn elaborate_there(
    alloc: Global,
    scope: &mut Scope,
    params: &[Param],
    expr: &Sexpr,
) -> Result<(Tree, SortId), CheckError>
    requires sorts { All (λ (p : Param). IsSort scope.old.sig p.sort) params.now }
    ensures ok { IfOk result (λ t. ends_with out_of_scope (elaborated scope.old.sig (parameter_variables params.now) (expression_of expr.now)) ≡ Ok (formula_of t.0, t.1)) }
    ensures refused { (n : ℕ) → IsErrOf result (CheckError.Refused n)
        → ends_with out_of_scope (elaborated scope.old.sig (parameter_variables params.now) (expression_of expr.now)) ≡ Err n }
    ensures unchanged { scope.new.sig ≡ scope.old.sig }
    ensures bodies { scope.new.bodies ≡ scope.old.bodies }
{
    match elaborate_with(alloc, &mut scope.sig, Needs::Find, params, expr) {
        Ok(sorted) => Ok(sorted),
        Err(stop) => Err(error_of(stop, OUT_OF_SCOPE)),
    }
}

// The tree of an expression under parameters, with its sort.
#[tactic(auto, using(crate::proofs::HeadCases::reaches_itself))]
fn elaborate_with(
    alloc: Global,
    sig: &mut Signature,
    needs: Needs,
    params: &[Param],
    expr: &Sexpr,
) -> Result<(Tree, SortId), Stop>
    requires sorts { All (λ (p : Param). IsSort sig.old p.sort) params.now }
    ensures value { StopsAt needs sig.new sorted_of (elaborated sig.new (parameter_variables params.now) (expression_of expr.now)) result }
    ensures inside { IfOk result (λ t. IsSort sig.new t.1) }
    ensures grown { Extends sig.new sig.old }
    ensures reaches { Reaches (λ d. elaborated d (parameter_variables params.now) (expression_of expr.now)) sig.old sig.new }
    ensures kept { needs ≡ Find → sig.new ≡ sig.old }
{
    prove!(sig.sorts() > 0);
    let bounds = parameters(alloc, params)?;
    let mut variables = Variables::new(alloc);
    variables.enter(bounds.as_slice())?;
    let sorted = term(alloc, sig, needs, &mut variables, expr)?;
    prove!(sig.sorts() > 0);
    Ok(sorted)
}
