//! Names without arguments.
ghost use Rattle.std.specs.Prelude.{◌≡◌, Err};
ghost use Rattle.ct_sexpr.specs.View.{expression_of};
ghost use Rattle.ct_sorts.specs.Lookup.{IsSymbol};
ghost use Rattle.ct_names.specs.declared.needs.Needs.{Needs};
ghost use Rattle.ct_names.specs.Answer.{StopsAt};
ghost use Rattle.ct_names.specs.Parts.{name_of};
ghost use Rattle.ct_names.specs.Outcome.{refused};
ghost use Rattle.ct_names.specs.Symbols.{symbol_of, operator_of, tester_named};
ghost use Rattle.ct_names.specs.Elaboration.{part_of, lone, lone_global, lone_operator, lone_symbol, lone_refusal};
ghost use Rattle.ct_check.specs.Trees.{sorted_of};

use crate::trees::symbol_tree;
use ct_formulas::Tree;
use ct_names::{
    OUT_OF_SCOPE, Stop, UNDETERMINED, UNKNOWN_SYMBOL, Variables, WRONG_COUNT, argument_count,
    name_of, operator_of, result_sort, symbol_named, tester_named,
};
use ct_sexpr::Sexpr;
use ct_sorts::{Signature, SortId, Symbol};
use std::alloc::Global;

/// An expression that is no list: a name.
pub(crate) fn lone(
    alloc: Global,
    sig: &Signature,
    variables: &Variables,
    expr: &Sexpr,
) -> Result<(Tree, SortId), Stop>
    ensures value { (needs : Needs) → StopsAt needs sig.now sorted_of (lone sig.now variables.now (name_of
        (part_of sig.now (expression_of expr.now)))) result }
{
    let Some(name) = name_of(expr) else {
        return Err(Stop::Refused(OUT_OF_SCOPE));
    };
    match variables.find(name) {
        Some(found) => Ok((Tree::Var(found.number), found.sort)),
        None => lone_global(alloc, sig, name),
    }
}

// A name that is no variable.
fn lone_global(alloc: Global, sig: &Signature, name: &[u8]) -> Result<(Tree, SortId), Stop>
    ensures value { (needs : Needs) → StopsAt needs sig.now sorted_of (lone_global sig.now name.now (symbol_of sig.now name.now))
        result }
{
    match symbol_named(sig, name) {
        Some(symbol) => lone_symbol(alloc, sig, symbol),
        None => Err(Stop::Refused(other_refusal(sig, name))),
    }
}

// With which error a name is refused that is no variable and no symbol: operators and testers take arguments.
fn other_refusal(sig: &Signature, name: &[u8]) -> u16
    ensures value { lone_operator (operator_of name.now) (tester_named sig.now name.now) ≡ Err (refused result) }
{
    match operator_of(name) {
        Some(_) => WRONG_COUNT,
        None => match tester_named(sig, name) {
            Some(_) => WRONG_COUNT,
            None => UNKNOWN_SYMBOL,
        },
    }
}

/// A symbol without arguments.
pub(crate) fn lone_symbol(
    alloc: Global,
    sig: &Signature,
    symbol: Symbol,
) -> Result<(Tree, SortId), Stop>
    requires inside { IsSymbol sig.now symbol }
    ensures value { (needs : Needs) → StopsAt needs sig.now sorted_of (lone_symbol sig.now symbol) result }
{
    if let Some(code) = lone_refusal(sig, symbol) {
        return Err(Stop::Refused(code));
    }
    let sort = result_sort(sig, symbol);
    Ok((symbol_tree(alloc, symbol, Vec::new(alloc))?, sort))
}

// With which error a symbol without arguments is refused: it takes some, or its sort is not determined.
fn lone_refusal(sig: &Signature, symbol: Symbol) -> Option<u16>
    requires inside { IsSymbol sig.now symbol }
    ensures value { result ≡ lone_refusal sig.now symbol }
{
    match symbol {
        Symbol::GenCtor(g, index) => {
            prove!(sig.sorts() > 0);
            if !sig.gen_determined(g, index) {
                return Some(UNDETERMINED);
            }
            Some(WRONG_COUNT)
        }
        Symbol::GenSel(_, _, _) => Some(WRONG_COUNT),
        Symbol::Ctor(_) | Symbol::Sel(_) | Symbol::Fun(_) | Symbol::Def(_) => {
            if argument_count(sig, symbol) != 0 {
                return Some(WRONG_COUNT);
            }
            None
        }
    }
}
