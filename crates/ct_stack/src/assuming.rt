//! Assumptions of a check (SMT-LIB 2.7, section 4.2.5), and their core terms beside those of the assertions.
ghost use Rattle.std.specs.Prelude.{◌≡◌, ◌≤◌, ℕ, List, ◌++◌, All, map, length, Ok, Err, IfOk, OnOk, OnErr, IsErrOf};
ghost use Rattle.ct_sexpr.specs.View.{expression_of};
ghost use Rattle.ct_sexpr.specs.Written.{written};
ghost use Rattle.ct_sorts.specs.Declarations.{Declarations};
ghost use Rattle.ct_sorts.specs.Grown.{Extends};
ghost use Rattle.ct_terms.specs.CoreTree.{CoreTree};
ghost use Rattle.ct_terms.specs.Terms.{AreSorted, most_terms};
ghost use Rattle.ct_formulas.specs.FormulaSorts.{AreSound};
ghost use Rattle.ct_formulas.specs.TreeFormula.{formula_of};
ghost use Rattle.ct_names.specs.Needs.{Grows, ComesTo};
ghost use Rattle.ct_command.specs.Seen.{all_seen};
ghost use Rattle.ct_compile.specs.Effect.{IsPrefix, AllStand};
ghost use Rattle.ct_stack.specs.Assuming.{assumption_of, assumptions, assumed_formulas, with_assumed, assumption_seen, assumptions_seen, list_seen, IsTruth};
ghost use Rattle.ct_stack.specs.Held.{IsHeld, IsTableOf, context_in, level_in};
ghost use Rattle.ct_stack.specs.Numbers.{too_many_terms};
ghost use Rattle.ct_stack.specs.Refusal.{HasManyTerms};
ghost use Rattle.ct_stack.specs.Stack.{cores};

use crate::sorts::or_back;
use crate::terms::{boolean_formula, core_number};
use crate::theorems::stack_theorems;
use ct_check::Scope;
use ct_command::CommandError;
use ct_formulas::Tree;
use ct_names::WRONG_SORT;
use ct_sexpr::{Bytes, Sexpr, sexpr_text};
use ct_terms::{TermId, TermTable, core_trees};
use std::alloc::Global;

/// An assumption of a check.
#[derive(Debug, Drop)]
pub struct Assumption {
    /// The formula that is assumed.
    pub tree: Tree,
    /// How it is written.
    pub text: Bytes,
}

/// What these terms assume, in order, up to the first error. The sorts that they need come into the list, but after an error all is as
/// it was.
pub(crate) fn assumptions(
    alloc: Global,
    scope: &mut Scope,
    terms: &[Sexpr],
) -> Result<Vec<Assumption>, CommandError>
    ensures ok { IfOk result (λ assumed. ComesTo (λ d. assumptions d (all_seen terms.now)) scope.old.sig scope.new.sig (Ok (list_seen assumed))) }
    ensures refused { (n : ℕ) → IsErrOf result (CommandError.Refused n)
        → (later : Declarations) × ComesTo (λ d. assumptions d (all_seen terms.now)) scope.old.sig later (Err n) }
    ensures sorted { IfOk result (λ assumed. All (IsTruth scope.new.sig) assumed.items) }
    ensures bodies { scope.new.bodies ≡ scope.old.bodies }
    ensures unchanged { OnErr result (scope.new.sig ≡ scope.old.sig) }
{
    stack_theorems();
    let before = scope.sig.mark();
    let read = all_assumptions(alloc, scope, terms);
    or_back(&mut scope.sig, &before, read)
}

// The same; after an error sorts may have come into the list.
fn all_assumptions(
    alloc: Global,
    scope: &mut Scope,
    terms: &[Sexpr],
) -> Result<Vec<Assumption>, CommandError>
    ensures ok { IfOk result (λ assumed. ComesTo (λ d. assumptions d (all_seen terms.now)) scope.old.sig scope.new.sig (Ok (list_seen assumed))) }
    ensures refused { (n : ℕ) → IsErrOf result (CommandError.Refused n)
        → ComesTo (λ d. assumptions d (all_seen terms.now)) scope.old.sig scope.new.sig (Err n) }
    ensures sorted { IfOk result (λ assumed. All (IsTruth scope.new.sig) assumed.items) }
    ensures grown { Extends scope.new.sig scope.old.sig }
    ensures bodies { scope.new.bodies ≡ scope.old.bodies }
{
    stack_theorems();
    let mut left = terms;
    let mut read = Vec::with_capacity(alloc, terms.len())?;
    while let [first, others @ ..] = left {
        scope.sig.sorts();
        let one = assumption_of(alloc, scope, first)?;
        scope.sig.sorts();
        read.push(one)?;
        left = others;
    }
    Ok(read)
}

// What a term assumes, which is to be Boolean.
fn assumption_of(alloc: Global, scope: &mut Scope, expr: &Sexpr) -> Result<Assumption, CommandError>
    ensures ok { IfOk result (λ a. ComesTo (λ d. assumption_of d (expression_of expr.now)) scope.old.sig scope.new.sig (Ok (assumption_seen a))) }
    ensures refused { (n : ℕ) → IsErrOf result (CommandError.Refused n)
        → ComesTo (λ d. assumption_of d (expression_of expr.now)) scope.old.sig scope.new.sig (Err n) }
    ensures sorted { IfOk result (IsTruth scope.new.sig) }
    ensures lasts { IfOk result (λ a. (later : Declarations) → Grows later scope.new.sig → assumption_of later (expression_of expr.now) ≡ Ok (assumption_seen a)) }
    ensures grown { Extends scope.new.sig scope.old.sig }
    ensures bodies { scope.new.bodies ≡ scope.old.bodies }
{
    let tree = boolean_formula(alloc, scope, expr, WRONG_SORT)?;
    scope.sig.sorts();
    let text = text_of(alloc, expr)?;
    Ok(Assumption { tree, text })
}

// How the expression is written.
fn text_of(alloc: Global, expr: &Sexpr) -> Result<Bytes, CommandError>
    ensures text { IfOk result (λ text. text ≡ written (expression_of expr.now)) }
    ensures err { OnErr result (result ≡ Err CommandError.NoMemory) }
{
    match sexpr_text(alloc, expr) {
        Ok(text) => Ok(text),
        Err(_) => Err(CommandError::NoMemory),
    }
}

/// A copy of the table in which the assertions have these numbers, with the core terms of the assumptions, and the numbers of all.
pub(crate) fn assumed_terms(
    alloc: Global,
    scope: &Scope,
    table: &TermTable,
    numbers: &[TermId],
    assumed: &[Assumption],
) -> Result<(Box<TermTable>, Vec<TermId>), CommandError>
    requires sound { AreSound scope.now.sig (map formula_of scope.now.bodies) }
    requires sorted { All (IsTruth scope.now.sig) assumed.now }
    requires table { AreSorted scope.now.sig table.now }
    ensures held { (asserts : List Tree) → IsHeld (level_in scope.now asserts) table.now numbers.now
        → IfOk result (λ terms. IsHeld (with_assumed (level_in scope.now asserts) (assumptions_seen assumed.now)) terms.0.value terms.1.items) }
    ensures accepted { (roots : List CoreTree) → IsTableOf scope.now.sig roots table.now
        → OnOk result (HasManyTerms (roots ++ cores (context_in scope.now) (assumed_formulas (assumptions_seen assumed.now))) → ⊥) }
    ensures refused { (n : ℕ) → IsErrOf result (CommandError.Refused n) → (n ≡ too_many_terms)
        × ((roots : List CoreTree) → IsTableOf scope.now.sig roots table.now → HasManyTerms (roots ++ cores (context_in scope.now) (assumed_formulas (assumptions_seen assumed.now)))) }
{
    stack_theorems();
    scope.sig.sorts();
    let mut copy = boxed_copy(alloc, table)?;
    let found = assumption_numbers(alloc, scope, &mut copy, assumed)?;
    copy.len();
    let mut all = Vec::from_slice(alloc, numbers)?;
    all.extend_from_slice(found.as_slice())?;
    Ok((copy, all))
}

// An equal table.
fn boxed_copy(alloc: Global, table: &TermTable) -> Result<Box<TermTable>, CommandError>
    ensures copy { IfOk result (λ copy. copy.value ≡ table.now) }
    ensures err { OnErr result (result ≡ Err CommandError.NoMemory) }
{
    match table.copy() {
        Ok(copy) => Ok(Box::new(alloc, copy)?),
        Err(_) => Err(CommandError::NoMemory),
    }
}

// The numbers of the core terms of the assumptions, which are made in the table. After an error it may have grown.
fn assumption_numbers(
    alloc: Global,
    scope: &Scope,
    table: &mut TermTable,
    assumed: &[Assumption],
) -> Result<Vec<TermId>, CommandError>
    requires sound { AreSound scope.now.sig (map formula_of scope.now.bodies) }
    requires sorted { All (IsTruth scope.now.sig) assumed.now }
    requires table { AreSorted scope.now.sig table.old }
    ensures numbers { IfOk result (λ ns. AllStand table.new ns.items (cores (context_in scope.now) (assumed_formulas (assumptions_seen assumed.now)))) }
    ensures made { OnOk result ((roots : List CoreTree) → IsTableOf scope.now.sig roots table.old
        → IsTableOf scope.now.sig (roots ++ cores (context_in scope.now) (assumed_formulas (assumptions_seen assumed.now))) table.new) }
    ensures few { OnOk result (length table.new ≤ most_terms) }
    ensures grown { IsPrefix table.old table.new }
    ensures refused { (n : ℕ) → IsErrOf result (CommandError.Refused n) → (n ≡ too_many_terms)
        × ((roots : List CoreTree) → IsTableOf scope.now.sig roots table.old → HasManyTerms (roots ++ cores (context_in scope.now) (assumed_formulas (assumptions_seen assumed.now)))) }
{
    table.len();
    core_trees();
    let mut left = assumed;
    let mut numbers = Vec::with_capacity(alloc, assumed.len())?;
    while let [first, others @ ..] = left {
        let number = core_number(alloc, scope, table, &first.tree)?;
        table.len();
        numbers.push(number)?;
        left = others;
    }
    Ok(numbers)
}
