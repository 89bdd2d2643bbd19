//! Which operator a formula is, and the formulas under it.
ghost use Rattle.std.specs.Prelude.{◌≡◌, true, false, IfSome, IfNone};
ghost use Rattle.ct_formulas.specs.TreeFormula.{formula_of, formulas_of_trees};
ghost use Rattle.ct_occurrence.specs.Plain.{is_plain, formulas_under};
ghost use Rattle.ct_operators.specs.Forms.{operator_for};

use ct_formulas::Tree;
use ct_operators::Operator;
use std::slice;

/// The operator and the formulas under it, where a formula is one.
pub(crate) fn operands(tree: &Tree) -> Option<(Operator, &[Tree])>
    ensures plain { IfSome result (λ found. is_plain (formula_of tree.now) ≡ true) }
    ensures operator { IfSome result (λ found. operator_for (formula_of tree.now) ≡ found.0) }
    ensures under { IfSome result (λ found. formulas_under (formula_of tree.now) ≡ formulas_of_trees found.1.now) }
    ensures other { IfNone result (is_plain (formula_of tree.now) ≡ false) }
{
    match tree {
        Tree::Con(c, ts) => Some((Operator::Construct(*c), ts.as_slice())),
        Tree::Apply(f, ts) => Some((Operator::Call(*f), ts.as_slice())),
        Tree::And(ts) => Some((Operator::Conjunction, ts.as_slice())),
        Tree::Or(ts) => Some((Operator::Disjunction, ts.as_slice())),
        Tree::Xor(ts) => Some((Operator::Exclusion, ts.as_slice())),
        Tree::Implies(ts) => Some((Operator::Implication, ts.as_slice())),
        Tree::Equal(ts) => Some((Operator::Equality, ts.as_slice())),
        Tree::Distinct(ts) => Some((Operator::Inequality, ts.as_slice())),
        Tree::Sel(s, t) => Some((Operator::Select(*s), slice::from_ref(t))),
        Tree::Test(c, t) => Some((Operator::Inspect(*c), slice::from_ref(t))),
        Tree::Not(t) => Some((Operator::Negation, slice::from_ref(t))),
        Tree::Var(_)
        | Tree::Def(_, _)
        | Tree::Ite(_, _, _)
        | Tree::Let(_, _)
        | Tree::Match(_, _)
        | Tree::Quantified(_, _, _) => None,
    }
}
