//! The formulas under an operator.
ghost use Rattle.std.specs.Prelude.{◌≡◌, true, false, IfSome, IfNone};
ghost use Rattle.ct_formulas.specs.TreeFormula.{formula_of, formulas_of_trees};
ghost use Rattle.ct_occurrence.specs.Plain.{is_plain, formulas_under};

use ct_formulas::Tree;
use std::slice;

/// The formulas under an operator, where the formula is one.
pub(crate) fn operands(tree: &Tree) -> Option<&[Tree]>
    ensures plain { IfSome result (λ trees. is_plain (formula_of tree.now) ≡ true) }
    ensures under { IfSome result (λ trees. formulas_under (formula_of tree.now) ≡ formulas_of_trees trees.now) }
    ensures other { IfNone result (is_plain (formula_of tree.now) ≡ false) }
{
    match tree {
        Tree::Con(_, ts)
        | Tree::Apply(_, ts)
        | Tree::And(ts)
        | Tree::Or(ts)
        | Tree::Xor(ts)
        | Tree::Implies(ts)
        | Tree::Equal(ts)
        | Tree::Distinct(ts) => Some(ts.as_slice()),
        Tree::Sel(_, t) | Tree::Test(_, t) | Tree::Not(t) => Some(slice::from_ref(t)),
        Tree::Var(_)
        | Tree::Def(_, _)
        | Tree::Ite(_, _, _)
        | Tree::Let(_, _)
        | Tree::Match(_, _)
        | Tree::Quantified(_, _, _) => None,
    }
}
