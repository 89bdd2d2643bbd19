//! The head of a list with its arguments, whose sorts were expected.
ghost use Rattle.std.specs.Prelude.{◌≡◌, ◌∷◌, [], MatchOption, Ok, Err, IfOk, IfErr};
ghost use Rattle.ct_sorts.specs.Declarations.{Declarations};
ghost use Rattle.ct_sorts.specs.Grown.{Extends};
ghost use Rattle.ct_formulas.specs.TreeFormula.{formula_of, formulas_of_trees};
ghost use Rattle.ct_names.specs.declared.needs.Needs.{Needs};
ghost use Rattle.ct_names.specs.declared.needs.Needs.TheVariants.{Find};
ghost use Rattle.ct_names.specs.Answer.{StopsAt};
ghost use Rattle.ct_names.specs.Needs.{Reaches};
ghost use Rattle.ct_names.specs.Outcome.{refused};
ghost use Rattle.ct_names.specs.Refusals.{wrong_count};
ghost use Rattle.ct_check.specs.Callees.{IsCallee};
ghost use Rattle.ct_check.specs.Expected.{expectation_of, arguments_of, expected_by, chosen, IsExpectation};
ghost use Rattle.ct_check.specs.Heads.{expected_at, common_in, finished, HasPlaces, IsHeadDeclared};
ghost use Rattle.ct_check.specs.Trees.{sorted_of};
ghost use Rattle.ct_check.specs.declared.heads.Head.TheVariants.{Call, Equation, Choice};

use crate::callees::{BOOL, Callee, callee_result, callee_sorts};
use crate::expected::Expected;
use crate::generic_ctors::{expected_fields, generic_ctor};
use crate::heads::Head;
use crate::parts::{expected_by, part_of};
use crate::trees::{callee_tree, operator_tree};
use ct_formulas::Tree;
use ct_names::{CoreOperator, Needs, Stop, WRONG_COUNT};
use ct_sorts::{Signature, SortId};
use std::alloc::Global;

/// The terms of arguments, all of which have the sorts that were expected, and what these say.
#[derive(Drop)]
pub(crate) struct Arguments {
    pub(crate) trees: Vec<Tree>,
    pub(crate) met: Expected,
}

// The sorts that the arguments of a symbol, a tester or a connective are to have, where there are so many.
fn expected_of(
    alloc: Global,
    sig: &Signature,
    callee: Callee,
    args: usize,
) -> Result<Expected, Stop>
    requires inside { IsCallee sig.now callee }
    ensures ok { IfOk result (λ e. expectation_of sig.now e ≡ expected_by sig.now callee args) }
    ensures inside { IfOk result (IsExpectation sig.now) }
    ensures err { IfErr result (λ e. e ≡ Stop.NoMemory) }
{
    match callee {
        Callee::Symbol(_) => Ok(Expected::These(callee_sorts(alloc, sig, callee, args)?, 0)),
        Callee::Tester(c) => Ok(Expected::Same(Some(sig.ctor_sort(c)))),
        Callee::Connective(_) => Ok(Expected::Same(Some(BOOL))),
    }
}

/// What is expected of the arguments of what stands at the head, where there are so many.
pub(crate) fn expected_at(
    alloc: Global,
    sig: &Signature,
    head: Head,
    args: usize,
) -> Result<Expected, Stop>
    requires declared { IsHeadDeclared sig.now head }
    ensures ok { IfOk result (λ e. expectation_of sig.now e ≡ expected_at sig.now head args) }
    ensures inside { IfOk result (IsExpectation sig.now) }
    ensures err { IfErr result (λ e. e ≡ Stop.NoMemory) }
{
    match head {
        Head::Call(callee) => expected_of(alloc, sig, callee, args),
        Head::GenericCtor(g, index) => expected_fields(alloc, sig, g, index),
        Head::Part(part) => Ok(expected_by(part)),
        Head::Equation(_) => Ok(Expected::Same(None)),
        Head::Let
        | Head::Match
        | Head::Annotation
        | Head::Quantified(_)
        | Head::Whole(_)
        | Head::Choice => Ok(Expected::Choice),
    }
}

/// What stands at the head with its arguments, which met what was expected.
pub(crate) fn finished(
    alloc: Global,
    sig: &mut Signature,
    needs: Needs,
    head: Head,
    terms: Arguments,
) -> Result<(Tree, SortId), Stop>
    requires declared { IsHeadDeclared sig.old head }
    requires met { IsExpectation sig.old terms.met }
    requires places { HasPlaces sig.old head (expectation_of sig.old terms.met) }
    ensures value { StopsAt needs sig.new sorted_of (finished sig.new head (arguments_of sig.old terms)) result }
    ensures reaches { Reaches (λ d. finished d head (arguments_of sig.old terms)) sig.old sig.new }
    ensures grown { Extends sig.new sig.old }
    ensures kept { needs ≡ Find → sig.new ≡ sig.old }
{
    match head {
        Head::Call(callee) => called(alloc, sig, callee, terms),
        Head::GenericCtor(g, index) => generic_ctor(alloc, sig, needs, g, index, terms),
        Head::Part(part) => part_of(alloc, sig, part, terms),
        Head::Equation(operator) => equation(alloc, operator, terms),
        Head::Choice => choice(alloc, terms),
        Head::Let | Head::Match | Head::Annotation | Head::Quantified(_) | Head::Whole(_) => Err(
            Stop::Refused(WRONG_COUNT),
        ),
    }
}

// A symbol, a tester or a connective with its arguments.
fn called(
    alloc: Global,
    sig: &Signature,
    callee: Callee,
    terms: Arguments,
) -> Result<(Tree, SortId), Stop>
    requires inside { IsCallee sig.now callee }
    ensures value { (needs : Needs) → StopsAt needs sig.now sorted_of (finished sig.now (Call callee) (arguments_of sig.now terms)) result }
{
    let tree = callee_tree(alloc, callee, terms.trees)?;
    Ok((tree, callee_result(sig, callee)))
}

// `=` or `distinct` with its arguments.
fn equation(alloc: Global, operator: CoreOperator, terms: Arguments) -> Result<(Tree, SortId), Stop>
    ensures value { (needs : Needs) (d : Declarations) → StopsAt needs d sorted_of (finished d (Equation operator) (arguments_of d terms)) result }
{
    let tree = operator_tree(alloc, operator, terms.trees)?;
    Ok((tree, BOOL))
}

// A condition and two of one sort.
fn choice(alloc: Global, terms: Arguments) -> Result<(Tree, SortId), Stop>
    ensures value { (needs : Needs) (d : Declarations) → StopsAt needs d sorted_of (finished d Choice (arguments_of d terms)) result }
{
    let Some(sort) = common_sort(&terms.met) else {
        return Err(Stop::Refused(WRONG_COUNT));
    };
    let tree = choice_tree(alloc, terms.trees)?;
    Ok((tree, sort))
}

// The sort that all arguments have of which one sort was expected.
fn common_sort(met: &Expected) -> Option<SortId>
    ensures value { (d : Declarations) → MatchOption result (common_in (expectation_of d met.now) ≡ Err (refused wrong_count)) (λ s. common_in (expectation_of d met.now) ≡ Ok s) }
{
    match met {
        Expected::Same(sort) => *sort,
        Expected::These(_, _) | Expected::Choice | Expected::Fields(_) | Expected::Owner(_, _) =>
            None,
    }
}

// The choice by the first of the trees, which are three.
fn choice_tree(alloc: Global, trees: Vec<Tree>) -> Result<Tree, Stop>
    ensures ok { IfOk result (λ t. formula_of t ≡ chosen (formulas_of_trees trees.items)) }
    ensures err { IfErr result (λ e. e ≡ Stop.NoMemory) }
{
    let Some((condition, trees)) = split_first(trees) else {
        return Ok(Tree::And(Vec::new(alloc)));
    };
    let Some((then, trees)) = split_first(trees) else {
        return Ok(Tree::And(Vec::new(alloc)));
    };
    let Some((other, _)) = split_first(trees) else {
        return Ok(Tree::And(Vec::new(alloc)));
    };
    let condition = Box::new(alloc, condition)?;
    let then = Box::new(alloc, then)?;
    Ok(Tree::Ite(condition, then, Box::new(alloc, other)?))
}

// The first of the trees, and the others.
fn split_first(trees: Vec<Tree>) -> Option<(Tree, Vec<Tree>)>
    ensures first { MatchOption result (trees.items ≡ []) (λ r. trees.items ≡ r.0 ∷ r.1.items) }
{
    let mut trees = trees;
    if trees.is_empty() {
        return None;
    }
    let first = trees.remove(0);
    Some((first, trees))
}
