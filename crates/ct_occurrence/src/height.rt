//! How deep a formula nests. It determines when a call of a definition is postponed, and says nothing about what is compiled.

use crate::cases::body_of;
use crate::plain::operands;
use ct_formulas::{Case, Tree};

/// How many levels of a formula take as much of the stack as a call of a definition does beside the body.
const CALL_HEIGHT: usize = 3;

/// How deep a call of a definition goes that has this body: the call itself is counted like three levels of a formula.
pub(crate) fn height_of_call(body: &Tree) -> usize {
    height_of(body).saturating_add(CALL_HEIGHT)
}

// How deep the formula nests, or the largest number where that is more.
#[cycle(height)]
fn height_of(tree: &Tree) -> usize {
    if let Some(trees) = operands(tree) {
        return highest(trees).saturating_add(1);
    }
    match tree {
        Tree::Var(_) => 1,
        Tree::Ite(c, t, u) => height_of_choice(c, t, u).saturating_add(1),
        Tree::Def(_, ts) => highest(ts.as_slice()).saturating_add(1),
        Tree::Let(ts, u) => height_of_let(ts.as_slice(), u).saturating_add(1),
        Tree::Match(t, cases) => height_of_match(t, cases.as_slice()).saturating_add(1),
        Tree::Quantified(_, _, t) => height_of(t).saturating_add(1),
        Tree::Con(_, _)
        | Tree::Sel(_, _)
        | Tree::Test(_, _)
        | Tree::Apply(_, _)
        | Tree::Not(_)
        | Tree::And(_)
        | Tree::Or(_)
        | Tree::Xor(_)
        | Tree::Implies(_)
        | Tree::Equal(_)
        | Tree::Distinct(_) => unreachable!(),
    }
}

// That of the deepest of several formulas.
#[cycle(height)]
fn highest(trees: &[Tree]) -> usize {
    let mut height = 0;
    let mut rest = trees;
    while let [tree, others @ ..] = rest {
        height = larger(height, height_of(tree));
        rest = others;
    }
    height
}

// That of the deepest part of a choice.
#[cycle(height)]
fn height_of_choice(condition: &Tree, first: &Tree, second: &Tree) -> usize {
    let branches = larger(height_of(first), height_of(second));
    larger(height_of(condition), branches)
}

// That of the deepest part of a `let`.
#[cycle(height)]
fn height_of_let(trees: &[Tree], body: &Tree) -> usize {
    larger(highest(trees), height_of(body))
}

// That of the deepest part of a `match`.
#[cycle(height)]
fn height_of_match(matched: &Tree, cases: &[Case]) -> usize {
    larger(height_of(matched), highest_body(cases))
}

// That of the deepest body of a case.
#[cycle(height)]
fn highest_body(cases: &[Case]) -> usize {
    let mut height = 0;
    let mut rest = cases;
    while let [case, others @ ..] = rest {
        height = larger(height, height_of(body_of(case)));
        rest = others;
    }
    height
}

// The larger one.
fn larger(m: usize, n: usize) -> usize {
    if m < n {
        return n;
    }
    m
}
