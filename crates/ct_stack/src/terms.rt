//! Assertions and their core terms.
ghost use Rattle.std.specs.Prelude.{◌≡◌, ℕ, ◌+◌, ◌≤◌, vec_len, vec_capacity, List, ◌++◌, ◌∷◌, [], map, length, Ok, Err, OnOk, OnErr, IfOk, IsErrOf};
ghost use Rattle.ct_sexpr.specs.View.{expression_of};
ghost use Rattle.ct_sorts.specs.Declarations.{bool_sort};
ghost use Rattle.ct_sorts.specs.Grown.{Begins, Extends};
ghost use Rattle.ct_sorts.specs.declared.ids.SortId.{SortId};
ghost use Rattle.ct_terms.specs.CoreTree.{CoreTree};
ghost use Rattle.ct_formulas.specs.FormulaSorts.{IsSorted, AreSound};
ghost use Rattle.ct_terms.specs.Terms.{AreSorted, most_terms};
ghost use Rattle.ct_formulas.specs.TreeFormula.{formula_of};
ghost use Rattle.ct_compile.specs.Effect.{IsPrefix, Stands as Stood};
ghost use Rattle.ct_stack.specs.Numbers.{too_many_terms};
ghost use Rattle.ct_stack.specs.Stack.{core, cores};
ghost use Rattle.ct_stack.specs.Elaborations.{boolean_formula, asserted_formula};
ghost use Rattle.ct_names.specs.Needs.{ComesTo};
ghost use Rattle.ct_stack.specs.Outcomes.{GivesNeeding};
ghost use Rattle.ct_command.specs.Seen.{bytes_seen};
ghost use Rattle.ct_stack.specs.Refusal.{over, HasManyTerms, IsAssertedRefusal};
ghost use Rattle.ct_stack.specs.Held.{IsHeld, IsTableOf, IsAsserted, context_in, level_in};

use crate::define::define_label;
use crate::sorts::{BOOL, is_sort, term_of};
use crate::theorems::stack_theorems;
use ct_check::{Scope, elaboration};
use ct_command::CommandError;
use ct_compile::compile;
use ct_formulas::Tree;
use ct_sexpr::Sexpr;
use ct_sorts::SortId;
use ct_terms::{TermError, TermId, TermTable};
use std::alloc::{AllocError, Global};

/// The number of the error of an assertion that is not Bool.
const NOT_BOOLEAN: u16 = 24;

/// The number of the error of too many core terms.
const TOO_MANY_TERMS: u16 = 20;

/// The formula of a term that is to be Boolean; a term of another sort is refused with this number. After an error sorts may have come
/// into the list.
pub(crate) fn boolean_formula(
    alloc: Global,
    scope: &mut Scope,
    expr: &Sexpr,
    otherwise: u16,
) -> Result<Tree, CommandError>
    ensures ok { IfOk result (λ t. ComesTo (λ d. boolean_formula otherwise d (expression_of expr.now)) scope.old.sig scope.new.sig (Ok (formula_of t))) }
    ensures refused { (n : ℕ) → IsErrOf result (CommandError.Refused n) → ComesTo (λ d. boolean_formula otherwise d (expression_of expr.now)) scope.old.sig scope.new.sig (Err n) }
    ensures sorted { IfOk result (λ t. IsSorted scope.new.sig [] (formula_of t) bool_sort) }
    ensures grown { Extends scope.new.sig scope.old.sig }
    ensures bodies { scope.new.bodies ≡ scope.old.bodies }
{
    elaboration();
    let (tree, sort) = term_of(alloc, scope, &[], expr)?;
    scope.sig.sorts();
    if !is_sort(sort, BOOL) {
        return Err(CommandError::Refused(otherwise));
    }
    Ok(tree)
}

/// Adds an assertion, with the definition that its label names, where it has one. After an error sorts may have come into the list,
/// and this definition, and else all is as it was.
pub(crate) fn assert_needing(
    alloc: Global,
    scope: &mut Scope,
    table: &mut TermTable,
    numbers: &mut Vec<TermId>,
    asserts: &mut Vec<Tree>,
    expr: &Sexpr,
    label: Option<&[u8]>,
) -> Result<(), CommandError>
    requires held { IsHeld (level_in scope.old asserts.old.items) table.old numbers.old.items }
    ensures held { OnOk result (IsHeld (level_in scope.new asserts.new.items) table.new numbers.new.items) }
    ensures ok { OnOk result (GivesNeeding (λ d. asserted_formula d (expression_of expr.now)) scope.old.sig
        (λ later formula. IsAsserted (over (context_in scope.old) later) (context_in scope.new) asserts.old.items asserts.new.items (bytes_seen label.entry) formula)) }
    ensures accepted { OnOk result ((n : ℕ) → IsAssertedRefusal (context_in scope.old) (map formula_of asserts.old.items) (bytes_seen label.entry) (expression_of expr.now) n → ⊥) }
    ensures refused { (n : ℕ) → IsErrOf result (CommandError.Refused n)
        → IsAssertedRefusal (context_in scope.old) (map formula_of asserts.old.items) (bytes_seen label.entry) (expression_of expr.now) n }
    ensures grown { Extends scope.new.sig scope.old.sig }
    ensures bodies { Begins (map formula_of scope.old.bodies) (map formula_of scope.new.bodies) }
    ensures unchanged { OnErr result (asserts.new.items ≡ asserts.old.items) }
    ensures table { OnErr result (table.new ≡ table.old) }
    ensures numbers { OnErr result (numbers.new.items ≡ numbers.old.items) }
    ensures longer_table { IsPrefix table.old table.new }
    ensures longer { Begins numbers.old.items numbers.new.items }
{
    stack_theorems();
    scope.sig.sorts();
    let formula = boolean_formula(alloc, scope, expr, NOT_BOOLEAN)?;
    scope.sig.sorts();
    let tree = define_label(alloc, scope, label, formula)?;
    scope.sig.sorts();
    add_assertion(alloc, scope, table, numbers, asserts, tree)
}

/// Asserts a formula, whose core term is made in the table; or leaves all as it was.
pub(crate) fn add_assertion(
    alloc: Global,
    scope: &Scope,
    table: &mut TermTable,
    numbers: &mut Vec<TermId>,
    asserts: &mut Vec<Tree>,
    tree: Tree,
) -> Result<(), CommandError>
    requires sorted { IsSorted scope.now.sig [] (formula_of tree) bool_sort }
    requires held { IsHeld (level_in scope.now asserts.old.items) table.old numbers.old.items }
    ensures held { IsHeld (level_in scope.now asserts.new.items) table.new numbers.new.items }
    ensures ok { OnOk result (asserts.new.items ≡ asserts.old.items ++ tree ∷ []) }
    ensures fits { OnOk result (HasManyTerms (cores (context_in scope.now) (map formula_of asserts.old.items) ++ core (context_in scope.now) (formula_of tree) ∷ []) → ⊥) }
    ensures refused { (n : ℕ) → IsErrOf result (CommandError.Refused n) → (n ≡ too_many_terms)
        × HasManyTerms (cores (context_in scope.now) (map formula_of asserts.old.items) ++ core (context_in scope.now) (formula_of tree) ∷ []) }
    ensures unchanged { OnErr result (asserts.new.items ≡ asserts.old.items) }
    ensures table { OnErr result (table.new ≡ table.old) }
    ensures numbers { OnErr result (numbers.new.items ≡ numbers.old.items) }
    ensures grown { IsPrefix table.old table.new }
    ensures longer { Begins numbers.old.items numbers.new.items }
{
    stack_theorems();
    scope.sig.sorts();
    let before = table.len();
    reserve(numbers, asserts)?;
    match core_number(alloc, scope, table, &tree) {
        Ok(number) => {
            table.len();
            put(numbers, asserts, number, tree);
            Ok(())
        }
        Err(error) => {
            table.cut_to(before);
            Err(error)
        }
    }
}

// Makes room for one more of each.
fn reserve(numbers: &mut Vec<TermId>, asserts: &mut Vec<Tree>) -> Result<(), AllocError>
    ensures numbers { numbers.new.items ≡ numbers.old.items }
    ensures asserts { asserts.new.items ≡ asserts.old.items }
    ensures more_numbers { OnOk result (vec_len numbers.new + 1 ≤ vec_capacity numbers.new) }
    ensures more_asserts { OnOk result (vec_len asserts.new + 1 ≤ vec_capacity asserts.new) }
{
    asserts.reserve(1)?;
    numbers.reserve(1)?;
    Ok(())
}

// Puts one more of each at the end, where there is room.
fn put(numbers: &mut Vec<TermId>, asserts: &mut Vec<Tree>, number: TermId, tree: Tree)
    requires more_numbers { vec_len numbers.old + 1 ≤ vec_capacity numbers.old }
    requires more_asserts { vec_len asserts.old + 1 ≤ vec_capacity asserts.old }
    ensures numbers { numbers.new.items ≡ numbers.old.items ++ number ∷ [] }
    ensures asserts { asserts.new.items ≡ asserts.old.items ++ tree ∷ [] }
{
    asserts.push(tree).unwrap();
    numbers.push(number).unwrap();
}

/// The number of the core term of a formula, which is made in the table. After an error the table may have grown.
pub(crate) fn core_number(
    alloc: Global,
    scope: &Scope,
    table: &mut TermTable,
    tree: &Tree,
) -> Result<TermId, CommandError>
    requires sound { AreSound scope.now.sig (map formula_of scope.now.bodies) }
    requires sorted { (sort : SortId) × IsSorted scope.now.sig [] (formula_of tree.now) sort }
    requires table { AreSorted scope.now.sig table.old }
    ensures made { IfOk result (λ t. (roots : List CoreTree) → IsTableOf scope.now.sig roots table.old
        → IsTableOf scope.now.sig (roots ++ core (context_in scope.now) (formula_of tree.now) ∷ []) table.new) }
    ensures stands { IfOk result (λ t. Stood table.new t (core (context_in scope.now) (formula_of tree.now))) }
    ensures few { OnOk result (length table.new ≤ most_terms) }
    ensures sorted { AreSorted scope.now.sig table.new }
    ensures grown { IsPrefix table.old table.new }
    ensures refused { (n : ℕ) → IsErrOf result (CommandError.Refused n) → (n ≡ too_many_terms)
        × ((roots : List CoreTree) → IsTableOf scope.now.sig roots table.old
        → HasManyTerms (roots ++ core (context_in scope.now) (formula_of tree.now) ∷ [])) }
{
    stack_theorems();
    table.len();
    match compile(alloc, scope, table, tree) {
        Ok(number) => {
            table.len();
            Ok(number)
        }
        Err(TermError::Full) => Err(CommandError::Refused(TOO_MANY_TERMS)),
        Err(TermError::NoMemory) => Err(CommandError::NoMemory),
    }
}
