//! Functions and constants.
ghost use Rattle.std.specs.Prelude.{◌≡◌, ℕ, ◌≤◌, List, length, All, Ok, Err, OnOk, OnErr, IfOk, IsErrOf};
ghost use Rattle.ct_sexpr.specs.View.{expression_of};
ghost use Rattle.ct_sorts.specs.Availability.{IsUnavailable};
ghost use Rattle.ct_sorts.specs.Declarations.{IsSort, with_function, symbol_names, most_functions};
ghost use Rattle.ct_sorts.specs.Refusals.{IsFirstCause, IsNone, symbol_taken, too_many};
ghost use Rattle.ct_sorts.specs.Grown.{Extends};
ghost use Rattle.ct_names.specs.Needs.{ComesTo};
ghost use Rattle.ct_command.specs.Seen.{all_seen};
ghost use Rattle.ct_stack.specs.Elaborations.{declared_function};
ghost use Rattle.ct_stack.specs.Outcomes.{GivesNeeding};
ghost use Rattle.ct_stack.specs.Sorts.{function_seen};
ghost use Rattle.ct_stack.specs.Refusal.{IsFunctionRefusal};

use crate::sorts::{or_back, sort_named, sorts_named};
use crate::theorems::stack_theorems;
use ct_check::Scope;
use ct_command::CommandError;
use ct_sexpr::Sexpr;
use ct_sorts::{Name, SigError, Signature, SortId};
use std::alloc::Global;

/// The number of the error of a name that is taken by another symbol.
pub(crate) const SYMBOL_TAKEN: u16 = 29;

/// The sorts of the arguments and of the result of a function.
pub(crate) fn declared_function(
    alloc: Global,
    scope: &mut Scope,
    args: &[Sexpr],
    sort: &Sexpr,
) -> Result<(Vec<SortId>, SortId), CommandError>
    ensures ok { (name : List ℕ) → IfOk result (λ r. ComesTo (λ d. declared_function d name (all_seen args.now) (expression_of sort.now)) scope.old.sig scope.new.sig (Ok (function_seen name r))) }
    ensures refused { (name : List ℕ) (n : ℕ) → IsErrOf result (CommandError.Refused n)
        → ComesTo (λ d. declared_function d name (all_seen args.now) (expression_of sort.now)) scope.old.sig scope.new.sig (Err n) }
    ensures args { IfOk result (λ r. All (IsSort scope.new.sig) r.0.items) }
    ensures sort { IfOk result (λ r. IsSort scope.new.sig r.1) }
    ensures grown { Extends scope.new.sig scope.old.sig }
    ensures bodies { scope.new.bodies ≡ scope.old.bodies }
{
    stack_theorems();
    let args = sorts_named(alloc, scope, args)?;
    let sort = sort_named(alloc, scope, sort)?;
    Ok((args, sort))
}

/// Declares a function.
pub(crate) fn declare_function(
    alloc: Global,
    scope: &mut Scope,
    name: &[u8],
    args: &[Sexpr],
    sort: &Sexpr,
) -> Result<(), CommandError>
    ensures ok { OnOk result (GivesNeeding (λ d. declared_function d name.now (all_seen args.now) (expression_of sort.now)) scope.old.sig
        (λ later f. scope.new.sig ≡ with_function later f)) }
    ensures bodies { scope.new.bodies ≡ scope.old.bodies }
    ensures accepted { OnOk result ((n : ℕ) → IsFunctionRefusal scope.old.sig name.now (all_seen args.now) (expression_of sort.now) n → ⊥) }
    ensures refused { (n : ℕ) → IsErrOf result (CommandError.Refused n)
        → IsFunctionRefusal scope.old.sig name.now (all_seen args.now) (expression_of sort.now) n }
    ensures unchanged { OnErr result (scope.new.sig ≡ scope.old.sig) }
{
    if scope.sig.is_unavailable(name) {
        return Err(CommandError::Refused(SYMBOL_TAKEN));
    }
    stack_theorems();
    let before = scope.sig.mark();
    let declared = declare_available(alloc, scope, name, args, sort);
    or_back(&mut scope.sig, &before, declared)
}

// Declares a function whose name may be declared. After an error sorts may have come into the list.
fn declare_available(
    alloc: Global,
    scope: &mut Scope,
    name: &[u8],
    args: &[Sexpr],
    sort: &Sexpr,
) -> Result<(), CommandError>
    requires available { IsUnavailable (symbol_names scope.old.sig) name.now → ⊥ }
    ensures ok { OnOk result (GivesNeeding (λ d. declared_function d name.now (all_seen args.now) (expression_of sort.now)) scope.old.sig
        (λ later f. scope.new.sig ≡ with_function later f)) }
    ensures bodies { scope.new.bodies ≡ scope.old.bodies }
    ensures accepted { OnOk result ((n : ℕ) → IsFunctionRefusal scope.old.sig name.now (all_seen args.now) (expression_of sort.now) n → ⊥) }
    ensures refused { (n : ℕ) → IsErrOf result (CommandError.Refused n)
        → IsFunctionRefusal scope.old.sig name.now (all_seen args.now) (expression_of sort.now) n }
    ensures grown { Extends scope.new.sig scope.old.sig }
{
    stack_theorems();
    let (args, sort) = declared_function(alloc, scope, args, sort)?;
    let name = Name::from_slice(alloc, name)?;
    add_function(&mut scope.sig, name, args, sort)
}

// Adds the function.
fn add_function(
    sig: &mut Signature,
    name: Name,
    args: Vec<SortId>,
    sort: SortId,
) -> Result<(), CommandError>
    requires args { All (IsSort sig.old) args.items }
    requires sort { IsSort sig.old sort }
    ensures ok { OnOk result (sig.new ≡ with_function sig.old (record { name = name; args = args.items; result = sort })) }
    ensures accepted { OnOk result ((n : ℕ) → IsFirstCause symbol_taken (IsUnavailable (symbol_names sig.old) name)
        (IsFirstCause too_many (most_functions ≤ length sig.old.functions) IsNone) n → ⊥) }
    ensures refused { (n : ℕ) → IsErrOf result (CommandError.Refused n)
        → IsFirstCause symbol_taken (IsUnavailable (symbol_names sig.old) name)
        (IsFirstCause too_many (most_functions ≤ length sig.old.functions) IsNone) n }
    ensures unchanged { OnErr result (sig.new ≡ sig.old) }
{
    match sig.add_fun(name, args, sort) {
        Ok(_) => Ok(()),
        Err(SigError::Refused(code)) => Err(CommandError::Refused(code)),
        Err(SigError::NoMemory) => Err(CommandError::NoMemory),
    }
}
