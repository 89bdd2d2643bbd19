//! Sorts that expressions name, and errors of elaboration as errors of commands.
ghost use Rattle.std.specs.Prelude.{◌≡◌, ◌↔◌, ℕ, [], All, Ok, Err, IfOk, IsErrOf, OnOk, OnErr};
ghost use Rattle.ct_sexpr.specs.View.{expression_of};
ghost use Rattle.ct_sorts.specs.Declarations.{Declarations, IsSort};
ghost use Rattle.ct_sorts.specs.Grown.{Extends};
ghost use Rattle.ct_sorts.specs.Marks.{CanCut, cut};
ghost use Rattle.ct_names.specs.Bounds.{parameter_variables};
ghost use Rattle.ct_names.specs.Elaboration.{elaborated};
ghost use Rattle.ct_names.specs.Outcome.{is_sort};
ghost use Rattle.ct_names.specs.Refusals.{out_of_scope};
ghost use Rattle.ct_names.specs.Sorts.{sort_of};
ghost use Rattle.ct_names.specs.Needs.{Grows, ComesTo, ends_with};
ghost use Rattle.ct_names.specs.declared.variables.Param.{Param};
ghost use Rattle.ct_check.specs.Trees.{sorted_of};
ghost use Rattle.ct_command.specs.Seen.{all_seen};
ghost use Rattle.ct_stack.specs.Outcomes.{Comes, each_of};
ghost use Rattle.ct_stack.specs.Sorts.{sorts_seen};

use crate::theorems::stack_theorems;
use ct_check::{CheckError, Param, Scope, elaborate, elaborate_there, sort_of};
use ct_command::CommandError;
use ct_formulas::Tree;
use ct_sexpr::Sexpr;
use ct_sorts::{Mark, Signature, SortId};
use std::alloc::Global;

/// The sort Bool.
pub(crate) const BOOL: SortId = SortId(0);

/// Whether the two sorts are one.
pub(crate) fn is_sort(s: SortId, t: SortId) -> bool
    ensures value { result ≡ is_sort s t }
{
    s.0 == t.0
}

/// The sort that an expression writes, which comes into the list where it is not there.
pub(crate) fn sort_named(
    alloc: Global,
    scope: &mut Scope,
    expr: &Sexpr,
) -> Result<SortId, CommandError>
    ensures ok { IfOk result (λ s. ComesTo (λ d. sort_of d (expression_of expr.now)) scope.old.sig scope.new.sig (Ok s)) }
    ensures refused { (n : ℕ) → IsErrOf result (CommandError.Refused n) → ComesTo (λ d. sort_of d (expression_of expr.now)) scope.old.sig scope.new.sig (Err n) }
    ensures inside { IfOk result (IsSort scope.new.sig) }
    ensures lasts { IfOk result (λ s. (later : Declarations) → Grows later scope.new.sig → sort_of later (expression_of expr.now) ≡ Ok s) }
    ensures grown { Extends scope.new.sig scope.old.sig }
    ensures bodies { scope.new.bodies ≡ scope.old.bodies }
{
    stack_theorems();
    let named = sort_of(alloc, scope, expr);
    scope.sig.sorts();
    match named {
        Ok(sort) => Ok(sort),
        Err(error) => Err(command_error(error)),
    }
}

/// The sorts that expressions write, in order, up to the first error.
pub(crate) fn sorts_named(
    alloc: Global,
    scope: &mut Scope,
    exprs: &[Sexpr],
) -> Result<Vec<SortId>, CommandError>
    ensures ok { IfOk result (λ sorts. ComesTo (λ d. each_of (sort_of d) (all_seen exprs.now)) scope.old.sig scope.new.sig (Ok (sorts_seen sorts))) }
    ensures refused { (n : ℕ) → IsErrOf result (CommandError.Refused n) → ComesTo (λ d. each_of (sort_of d) (all_seen exprs.now)) scope.old.sig scope.new.sig (Err n) }
    ensures inside { IfOk result (λ sorts. All (IsSort scope.new.sig) sorts.items) }
    ensures lasts { IfOk result (λ sorts. (later : Declarations) → Grows later scope.new.sig → each_of (sort_of later) (all_seen exprs.now) ≡ Ok (sorts_seen sorts)) }
    ensures grown { Extends scope.new.sig scope.old.sig }
    ensures bodies { scope.new.bodies ≡ scope.old.bodies }
{
    stack_theorems();
    let mut left = exprs;
    let mut sorts = Vec::with_capacity(alloc, exprs.len())?;
    while let [first, others @ ..] = left {
        let sort = sort_named(alloc, scope, first)?;
        sorts.push(sort)?;
        left = others;
    }
    Ok(sorts)
}

/// The tree of an expression under parameters, with its sort. The sorts that it needs come into the list.
pub(crate) fn term_of(
    alloc: Global,
    scope: &mut Scope,
    params: &[Param],
    expr: &Sexpr,
) -> Result<(Tree, SortId), CommandError>
    requires sorts { All (λ (p : Param). IsSort scope.old.sig p.sort) params.now }
    ensures ok { IfOk result (λ t. ComesTo (λ d. elaborated d (parameter_variables params.now) (expression_of expr.now)) scope.old.sig scope.new.sig (Ok (sorted_of t))) }
    ensures refused { (n : ℕ) → IsErrOf result (CommandError.Refused n)
        → ComesTo (λ d. elaborated d (parameter_variables params.now) (expression_of expr.now)) scope.old.sig scope.new.sig (Err n) }
    ensures grown { Extends scope.new.sig scope.old.sig }
    ensures bodies { scope.new.bodies ≡ scope.old.bodies }
{
    match elaborate(alloc, scope, params, expr) {
        Ok(sorted) => Ok(sorted),
        Err(error) => Err(command_error(error)),
    }
}

/// The tree of an expression, with its sort, over declarations that stay as they are.
pub(crate) fn term_there(
    alloc: Global,
    scope: &mut Scope,
    expr: &Sexpr,
) -> Result<(Tree, SortId), CommandError>
    ensures value { Comes sorted_of (ends_with out_of_scope (elaborated scope.old.sig [] (expression_of expr.now))) result }
    ensures kept { scope.new ≡ scope.old }
{
    match elaborate_there(alloc, scope, &[], expr) {
        Ok(sorted) => Ok(sorted),
        Err(error) => Err(command_error(error)),
    }
}

/// The error of an elaboration as that of a command.
pub(crate) fn command_error(error: CheckError) -> CommandError
    ensures refused { (n : ℕ) → (result ≡ CommandError.Refused n) ↔ (error ≡ CheckError.Refused n) }
    ensures memory { (result ≡ CommandError.NoMemory) ↔ (error ≡ CheckError.NoMemory) }
{
    match error {
        CheckError::Refused(code) => CommandError::Refused(code),
        CheckError::NoMemory => CommandError::NoMemory,
    }
}

/// Takes the sorts back that came into the list for a command, where it was refused.
pub(crate) fn or_back<T>(
    sig: &mut Signature,
    before: &Mark,
    done: Result<T, CommandError>,
) -> Result<T, CommandError>
    requires can_cut { OnErr done (CanCut sig.old before.now) }
    ensures same { result ≡ done }
    ensures ok { OnOk done (sig.new ≡ sig.old) }
    ensures back { OnErr done (sig.new ≡ cut sig.old before.now) }
{
    if done.is_err() {
        sig.cut_to(before);
    }
    done
}
