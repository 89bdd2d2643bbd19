//! Trees of symbols, testers and operators with their arguments.
ghost use Rattle.std.specs.Prelude.{◌≡◌, ◌∷◌, [], List, MatchOption, IfOk, IfErr};
ghost use Rattle.ct_formulas.specs.declared.tree.Tree.{Tree};
ghost use Rattle.ct_formulas.specs.TreeFormula.{formula_of, formulas_of_trees};
ghost use Rattle.ct_names.specs.Symbols.{symbol_applied};
ghost use Rattle.ct_names.specs.Elaboration.{connected};
ghost use Rattle.ct_check.specs.Callees.{callee_formula, tester_formula};

use crate::callees::Callee;
use ct_formulas::Tree;
use ct_names::{CoreOperator, Stop};
use ct_sorts::{CtorId, SelId, Symbol};
use std::alloc::Global;

/// What takes arguments of stated sorts, with its arguments.
pub(crate) fn callee_tree(alloc: Global, callee: Callee, args: Vec<Tree>) -> Result<Tree, Stop>
    ensures ok { IfOk result (λ t. formula_of t ≡ callee_formula callee
        (formulas_of_trees args.items)) }
    ensures err { IfErr result (λ e. e ≡ Stop.NoMemory) }
{
    match callee {
        Callee::Symbol(symbol) => symbol_tree(alloc, symbol, args),
        Callee::Tester(c) => test(alloc, c, args),
        Callee::Connective(operator) => operator_tree(alloc, operator, args),
    }
}

/// A symbol with its arguments.
pub(crate) fn symbol_tree(alloc: Global, symbol: Symbol, args: Vec<Tree>) -> Result<Tree, Stop>
    ensures ok { IfOk result (λ t. formula_of t ≡ symbol_applied symbol (formulas_of_trees args.items)) }
    ensures err { IfErr result (λ e. e ≡ Stop.NoMemory) }
{
    match symbol {
        Symbol::Ctor(c) => Ok(Tree::Con(c, args)),
        Symbol::Sel(s) => selection(alloc, s, args),
        Symbol::Fun(f) => Ok(Tree::Apply(f, args)),
        Symbol::Def(k) => Ok(Tree::Def(k, args)),
        Symbol::GenCtor(_, _) | Symbol::GenSel(_, _, _) => Ok(Tree::And(args)),
    }
}

/// An operator with its arguments, but for `ite`.
pub(crate) fn operator_tree(
    alloc: Global,
    operator: CoreOperator,
    args: Vec<Tree>,
) -> Result<Tree, Stop>
    ensures ok { IfOk result (λ t. formula_of t ≡ connected operator
        (formulas_of_trees args.items)) }
    ensures err { IfErr result (λ e. e ≡ Stop.NoMemory) }
{
    match operator {
        CoreOperator::Not => negation(alloc, args),
        CoreOperator::And => Ok(Tree::And(args)),
        CoreOperator::Or => Ok(Tree::Or(args)),
        CoreOperator::Xor => Ok(Tree::Xor(args)),
        CoreOperator::Implies => Ok(Tree::Implies(args)),
        CoreOperator::Equal => Ok(Tree::Equal(args)),
        CoreOperator::Distinct => Ok(Tree::Distinct(args)),
        CoreOperator::Ite => Ok(Tree::And(args)),
    }
}

/// A field of the one argument.
pub(crate) fn selection(alloc: Global, s: SelId, args: Vec<Tree>) -> Result<Tree, Stop>
    ensures ok { IfOk result (λ t. formula_of t ≡ symbol_applied (Symbol.Sel s)
        (formulas_of_trees args.items)) }
    ensures err { IfErr result (λ e. e ≡ Stop.NoMemory) }
{
    match first_of(args) {
        Some(t) => Ok(Tree::Sel(s, Box::new(alloc, t)?)),
        None => Ok(Tree::Con(CtorId(0), Vec::new(alloc))),
    }
}

/// A test of the one argument.
pub(crate) fn test(alloc: Global, c: CtorId, args: Vec<Tree>) -> Result<Tree, Stop>
    ensures ok { IfOk result (λ t. formula_of t ≡ tester_formula c (formulas_of_trees args.items)) }
    ensures err { IfErr result (λ e. e ≡ Stop.NoMemory) }
{
    match first_of(args) {
        Some(t) => Ok(Tree::Test(c, Box::new(alloc, t)?)),
        None => Ok(Tree::And(Vec::new(alloc))),
    }
}

// A negation of the one argument.
fn negation(alloc: Global, args: Vec<Tree>) -> Result<Tree, Stop>
    ensures ok { IfOk result (λ t. formula_of t ≡ connected CoreOperator.Not
        (formulas_of_trees args.items)) }
    ensures err { IfErr result (λ e. e ≡ Stop.NoMemory) }
{
    match first_of(args) {
        Some(t) => Ok(Tree::Not(Box::new(alloc, t)?)),
        None => Ok(Tree::And(Vec::new(alloc))),
    }
}

// The first of the trees.
fn first_of(args: Vec<Tree>) -> Option<Tree>
    ensures first { MatchOption result (args.items ≡ []) (λ t. (rest : List Tree) × (args.items
        ≡ t ∷ rest)) }
{
    let mut args = args;
    if args.is_empty() {
        return None;
    }
    Some(args.remove(0))
}
