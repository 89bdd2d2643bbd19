//! The definitions that a formula names.
ghost use Rattle.std.specs.Prelude.{OnOk};
ghost use Rattle.ct_formulas.specs.TreeFormula.{formula_of, formulas_of_trees};
ghost use Rattle.ct_formulas.specs.Formula.{Ite, Def, Let, Match};
ghost use Rattle.ct_occurrence.specs.CaseFormula.{cases_of_trees};
ghost use Rattle.ct_occurrence.specs.Calls.{AddsNamed, AddsAllNamed, AddsCaseNamed};

use crate::cases::body_of;
use crate::plain::operands;
use ct_formulas::{Case, Tree};
use ct_sorts::DefId;
use std::alloc::AllocError;

/// Adds the definitions that a formula names to those that there are.
#[cycle(names)]
pub(crate) fn add_names(tree: &Tree, names: &mut Vec<DefId>) -> Result<(), AllocError>
    ensures named { OnOk result (AddsNamed (formula_of tree.now) names.old.items names.new.items) }
{
    if let Some(trees) = operands(tree) {
        return add_names_of_all(trees, names);
    }
    match tree {
        Tree::Var(_) => Ok(()),
        Tree::Ite(c, t, u) => add_names_of_choice(c, t, u, names),
        Tree::Def(k, ts) => add_names_of_call(*k, ts.as_slice(), names),
        Tree::Let(ts, u) => add_names_of_let(ts.as_slice(), u, names),
        Tree::Match(t, cases) => add_names_of_match(t, cases.as_slice(), names),
        Tree::Quantified(_, _, t) => add_names(t, names),
        Tree::Con(_, _)
        | Tree::Sel(_, _)
        | Tree::Test(_, _)
        | Tree::Apply(_, _)
        | Tree::Not(_)
        | Tree::And(_)
        | Tree::Or(_)
        | Tree::Xor(_)
        | Tree::Implies(_)
        | Tree::Equal(_)
        | Tree::Distinct(_) => unreachable!(),
    }
}

// The same of several formulas.
#[cycle(names)]
fn add_names_of_all(trees: &[Tree], names: &mut Vec<DefId>) -> Result<(), AllocError>
    ensures named { OnOk result (AddsAllNamed (formulas_of_trees trees.now) names.old.items names.new.items) }
{
    let mut rest = trees;
    while let [tree, others @ ..] = rest {
        add_names(tree, names)?;
        rest = others;
    }
    Ok(())
}

// The same of a choice.
#[cycle(names)]
fn add_names_of_choice(
    condition: &Tree,
    first: &Tree,
    second: &Tree,
    names: &mut Vec<DefId>,
) -> Result<(), AllocError>
    ensures named { OnOk result (AddsNamed (Ite (formula_of condition.now) (formula_of first.now) (formula_of second.now)) names.old.items names.new.items) }
{
    add_names(condition, names)?;
    add_names(first, names)?;
    add_names(second, names)?;
    Ok(())
}

// The same of a definition with its arguments.
#[cycle(names)]
fn add_names_of_call(k: DefId, trees: &[Tree], names: &mut Vec<DefId>) -> Result<(), AllocError>
    ensures named { OnOk result (AddsNamed (Def k (formulas_of_trees trees.now)) names.old.items names.new.items) }
{
    names.push(k)?;
    add_names_of_all(trees, names)?;
    Ok(())
}

// The same of a `let`.
#[cycle(names)]
fn add_names_of_let(trees: &[Tree], body: &Tree, names: &mut Vec<DefId>) -> Result<(), AllocError>
    ensures named { OnOk result (AddsNamed (Let (formulas_of_trees trees.now) (formula_of body.now)) names.old.items names.new.items) }
{
    add_names_of_all(trees, names)?;
    add_names(body, names)?;
    Ok(())
}

// The same of a `match`.
#[cycle(names)]
fn add_names_of_match(
    matched: &Tree,
    cases: &[Case],
    names: &mut Vec<DefId>,
) -> Result<(), AllocError>
    ensures named { OnOk result (AddsNamed (Match (formula_of matched.now) (cases_of_trees cases.now)) names.old.items names.new.items) }
{
    add_names(matched, names)?;
    add_names_of_cases(cases, names)?;
    Ok(())
}

// The same of the bodies of cases.
#[cycle(names)]
fn add_names_of_cases(cases: &[Case], names: &mut Vec<DefId>) -> Result<(), AllocError>
    ensures named { OnOk result (AddsCaseNamed (cases_of_trees cases.now) names.old.items names.new.items) }
{
    let mut rest = cases;
    while let [case, others @ ..] = rest {
        add_names(body_of(case), names)?;
        rest = others;
    }
    Ok(())
}
