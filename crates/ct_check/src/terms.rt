//! Expressions with variables in scope, as trees with their sorts.
ghost use Rattle.std.specs.Prelude.{◌≡◌, map, length, None, IfOk};
ghost use Rattle.ct_formulas.specs.Formula.{bind};
ghost use Rattle.ct_sexpr.specs.View.{expression_of, expressions_of};
ghost use Rattle.ct_sorts.specs.Declarations.{IsSort};
ghost use Rattle.ct_sorts.specs.Grown.{Extends};
ghost use Rattle.ct_names.specs.Answer.{StopsAt};
ghost use Rattle.ct_names.specs.Bounds.{variable_of};
ghost use Rattle.ct_names.specs.declared.needs.Needs.TheVariants.{Find};
ghost use Rattle.ct_names.specs.Elaboration.{elaborated, parts_of, list_meaning, annotated, let_form, bound_terms, match_form, checked_cases, quantified_form};
ghost use Rattle.ct_names.specs.Needs.{Reaches};
ghost use Rattle.ct_names.specs.Variables.{ScopeIn};
ghost use Rattle.ct_check.specs.Expected.{expectation_of, expected_terms, arguments_of, IsExpectation};
ghost use Rattle.ct_check.specs.Heads.{headed_by, HasCount, IsHeadDeclared, TakesArguments};
ghost use Rattle.ct_check.specs.Trees.{sorted_of, sorted_list, checked_of};

use crate::arguments::{Arguments, expected_at, finished};
use crate::binders::{Checked, add_case, binding_names, goes_with, let_tree, match_tree};
use crate::expected::Expected;
use crate::heads::{Head, head_of};
use crate::leaves::{lone, lone_symbol};
use crate::quantifiers::{quantified_tree, quantified_variables};
use ct_formulas::{Quantifier, Tree};
use ct_names::{
    BoundVariable, Needs, OUT_OF_SCOPE, Stop, Variables, WRONG_SORT, are_attributes, are_cases,
    bounds, matchable, pattern,
};
use ct_sexpr::Sexpr;
use ct_sorts::{Signature, SortId};
use std::alloc::Global;

/// The tree of an expression and its sort where these variables are in scope, or its first error.
#[cycle(terms)]
pub(crate) fn term<'e>(
    alloc: Global,
    sig: &mut Signature,
    needs: Needs,
    variables: &mut Variables<'e>,
    expr: &'e Sexpr,
) -> Result<(Tree, SortId), Stop>
    requires variables { ScopeIn sig.old variables.old }
    ensures value { StopsAt needs sig.new sorted_of (elaborated sig.new variables.old
        (expression_of expr.now)) result }
    ensures reaches { Reaches (λ d. elaborated d variables.old (expression_of expr.now)) sig.old sig.new }
    ensures kept { needs ≡ Find → sig.new ≡ sig.old }
    ensures grown { Extends sig.new sig.old }
    ensures restored { variables.new ≡ variables.old }
{
    match expr {
        Sexpr::List(items) => list(alloc, sig, needs, variables, items.as_slice()),
        Sexpr::Symbol(_)
        | Sexpr::Quoted(_)
        | Sexpr::Keyword(_)
        | Sexpr::Text(_)
        | Sexpr::Numeral(_)
        | Sexpr::Decimal(_)
        | Sexpr::Binary(_)
        | Sexpr::Hex(_) => lone(alloc, sig, variables, expr),
    }
}

// A list, by what stands at its head.
#[cycle(terms)]
fn list<'e>(
    alloc: Global,
    sig: &mut Signature,
    needs: Needs,
    variables: &mut Variables<'e>,
    items: &'e [Sexpr],
) -> Result<(Tree, SortId), Stop>
    requires variables { ScopeIn sig.old variables.old }
    ensures value { StopsAt needs sig.new sorted_of (list_meaning sig.new (parts_of sig.new
        (expressions_of items.now)) variables.old) result }
    ensures reaches { Reaches (λ d. list_meaning d (parts_of d (expressions_of items.now)) variables.old) sig.old sig.new }
    ensures kept { needs ≡ Find → sig.new ≡ sig.old }
    ensures grown { Extends sig.new sig.old }
    ensures restored { variables.new ≡ variables.old }
{
    let [first, args @ ..] = items else {
        return Err(Stop::Refused(OUT_OF_SCOPE));
    };
    let head = head_of(alloc, sig, needs, variables, first, args)?;
    headed(alloc, sig, needs, variables, head, args)
}

// A list by what stands at its head.
#[cycle(terms)]
fn headed<'e>(
    alloc: Global,
    sig: &mut Signature,
    needs: Needs,
    variables: &mut Variables<'e>,
    head: Head,
    args: &'e [Sexpr],
) -> Result<(Tree, SortId), Stop>
    requires variables { ScopeIn sig.old variables.old }
    requires declared { IsHeadDeclared sig.old head }
    requires counted { HasCount sig.old head (length args.now) }
    ensures value { StopsAt needs sig.new sorted_of (headed_by sig.new variables.old head (parts_of sig.new (expressions_of args.now))) result }
    ensures reaches { Reaches (λ d. headed_by d variables.old head (parts_of d (expressions_of args.now))) sig.old sig.new }
    ensures kept { needs ≡ Find → sig.new ≡ sig.old }
    ensures grown { Extends sig.new sig.old }
    ensures restored { variables.new ≡ variables.old }
{
    match head {
        Head::Let => let_form(alloc, sig, needs, variables, args),
        Head::Match => match_form(alloc, sig, needs, variables, args),
        Head::Annotation => annotated(alloc, sig, needs, variables, args),
        Head::Quantified(q) => quantified_form(alloc, sig, needs, variables, q, args),
        Head::Whole(symbol) => lone_symbol(alloc, sig, symbol),
        Head::Call(_)
        | Head::GenericCtor(_, _)
        | Head::Part(_)
        | Head::Equation(_)
        | Head::Choice => with_arguments(alloc, sig, needs, variables, head, args),
    }
}

// What stands at the head with its arguments, which it takes.
#[cycle(terms)]
fn with_arguments<'e>(
    alloc: Global,
    sig: &mut Signature,
    needs: Needs,
    variables: &mut Variables<'e>,
    head: Head,
    args: &'e [Sexpr],
) -> Result<(Tree, SortId), Stop>
    requires variables { ScopeIn sig.old variables.old }
    requires declared { IsHeadDeclared sig.old head }
    requires counted { HasCount sig.old head (length args.now) }
    requires takes { TakesArguments head }
    ensures value { StopsAt needs sig.new sorted_of (headed_by sig.new variables.old head (parts_of sig.new (expressions_of args.now))) result }
    ensures reaches { Reaches (λ d. headed_by d variables.old head (parts_of d (expressions_of args.now))) sig.old sig.new }
    ensures kept { needs ≡ Find → sig.new ≡ sig.old }
    ensures grown { Extends sig.new sig.old }
    ensures restored { variables.new ≡ variables.old }
{
    prove!(sig.sorts() > 0);
    let expected = expected_at(alloc, sig, head, args.len())?;
    let met = terms(alloc, sig, needs, variables, expected, args)?;
    prove!(sig.sorts() > 0);
    finished(alloc, sig, needs, head, met)
}

// A term with attributes.
#[cycle(terms)]
fn annotated<'e>(
    alloc: Global,
    sig: &mut Signature,
    needs: Needs,
    variables: &mut Variables<'e>,
    args: &'e [Sexpr],
) -> Result<(Tree, SortId), Stop>
    requires variables { ScopeIn sig.old variables.old }
    ensures value { StopsAt needs sig.new sorted_of (annotated sig.new variables.old (parts_of sig.new
        (expressions_of args.now))) result }
    ensures reaches { Reaches (λ d. annotated d variables.old (parts_of d (expressions_of args.now))) sig.old sig.new }
    ensures kept { needs ≡ Find → sig.new ≡ sig.old }
    ensures grown { Extends sig.new sig.old }
    ensures restored { variables.new ≡ variables.old }
{
    let [expr, attributes @ ..] = args else {
        return Err(Stop::Refused(OUT_OF_SCOPE));
    };
    if !are_attributes(attributes) {
        return Err(Stop::Refused(OUT_OF_SCOPE));
    }
    term(alloc, sig, needs, variables, expr)
}

// Arguments one after the other, each of the sort that is expected.
#[cycle(terms)]
fn terms<'e>(
    alloc: Global,
    sig: &mut Signature,
    needs: Needs,
    variables: &mut Variables<'e>,
    expected: Expected,
    exprs: &'e [Sexpr],
) -> Result<Arguments, Stop>
    requires expected { IsExpectation sig.old expected }
    requires variables { ScopeIn sig.old variables.old }
    ensures value { StopsAt needs sig.new (arguments_of sig.new) (expected_terms sig.new variables.old (expectation_of sig.new expected) (parts_of sig.new
        (expressions_of exprs.now))) result }
    ensures reaches { Reaches (λ d. expected_terms d variables.old (expectation_of d expected) (parts_of d (expressions_of exprs.now))) sig.old sig.new }
    ensures kept { needs ≡ Find → sig.new ≡ sig.old }
    ensures grown { Extends sig.new sig.old }
    ensures met { IfOk result (λ r. IsExpectation sig.new r.met) }
    ensures restored { variables.new ≡ variables.old }
{
    prove!(sig.sorts() > 0);
    let mut trees = Vec::with_capacity(alloc, exprs.len())?;
    let mut met = expected;
    for expr in exprs {
        prove!(sig.sorts() > 0);
        let (tree, sort) = term(alloc, sig, needs, variables, expr)?;
        prove!(sig.sorts() > 0);
        met = met.after(alloc, sig, sort)?;
        trees.push(tree)?;
    }
    Ok(Arguments { trees, met })
}

// `(let ((x t) ..) u)`, by what follows `let`: the terms do not see the variables that they bind.
#[cycle(terms)]
fn let_form<'e>(
    alloc: Global,
    sig: &mut Signature,
    needs: Needs,
    variables: &mut Variables<'e>,
    args: &'e [Sexpr],
) -> Result<(Tree, SortId), Stop>
    requires variables { ScopeIn sig.old variables.old }
    ensures value { StopsAt needs sig.new sorted_of (let_form sig.new variables.old (parts_of sig.new
        (expressions_of args.now))) result }
    ensures reaches { Reaches (λ d. let_form d variables.old (parts_of d (expressions_of args.now))) sig.old sig.new }
    ensures kept { needs ≡ Find → sig.new ≡ sig.old }
    ensures grown { Extends sig.new sig.old }
    ensures restored { variables.new ≡ variables.old }
{
    if args.len() != 2 {
        return Err(Stop::Refused(OUT_OF_SCOPE));
    }
    let first = &args[0];
    let body = &args[1];
    let Sexpr::List(bindings) = first else {
        return Err(Stop::Refused(OUT_OF_SCOPE));
    };
    let bindings = bindings.as_slice();
    prove!(sig.sorts() > 0);
    let names = binding_names(alloc, bindings)?;
    let (trees, sorts) = bound_terms(alloc, sig, needs, variables, bindings)?;
    prove!(sig.sorts() > 0);
    let inner = bounds(alloc, names.as_slice(), sorts.as_slice())?;
    let (tree, sort) = under(alloc, sig, needs, variables, inner.as_slice(), body)?;
    Ok((let_tree(alloc, trees, tree)?, sort))
}

// `(forall ((x S) ..) t)` or `(exists ((x S) ..) t)`, by what follows the word.
#[cycle(terms)]
fn quantified_form<'e>(
    alloc: Global,
    sig: &mut Signature,
    needs: Needs,
    variables: &mut Variables<'e>,
    quantifier: Quantifier,
    args: &'e [Sexpr],
) -> Result<(Tree, SortId), Stop>
    requires variables { ScopeIn sig.old variables.old }
    ensures value { StopsAt needs sig.new sorted_of (quantified_form sig.new variables.old quantifier (parts_of sig.new
        (expressions_of args.now))) result }
    ensures reaches { Reaches (λ d. quantified_form d variables.old quantifier (parts_of d (expressions_of args.now))) sig.old sig.new }
    ensures kept { needs ≡ Find → sig.new ≡ sig.old }
    ensures grown { Extends sig.new sig.old }
    ensures restored { variables.new ≡ variables.old }
{
    if args.len() != 2 {
        return Err(Stop::Refused(OUT_OF_SCOPE));
    }
    let list = &args[0];
    let body = &args[1];
    let inner = quantified_variables(alloc, sig, needs, list)?;
    let bound = inner.variables.as_slice();
    let (tree, sort) = under(alloc, sig, needs, variables, bound, body)?;
    quantified_tree(alloc, quantifier, inner.sorts, tree, sort)
}

// A term where these variables are in scope too, the last of them as the innermost.
#[cycle(terms)]
fn under<'e>(
    alloc: Global,
    sig: &mut Signature,
    needs: Needs,
    variables: &mut Variables<'e>,
    inner: &[BoundVariable<'e>],
    body: &'e Sexpr,
) -> Result<(Tree, SortId), Stop>
    requires variables { ScopeIn sig.old variables.old }
    requires inner { ScopeIn sig.old (map variable_of inner.now) }
    ensures value { StopsAt needs sig.new sorted_of (elaborated sig.new (bind (map variable_of inner.now)
        variables.old) (expression_of body.now)) result }
    ensures reaches { Reaches (λ d. elaborated d (bind (map variable_of inner.now) variables.old) (expression_of body.now)) sig.old sig.new }
    ensures kept { needs ≡ Find → sig.new ≡ sig.old }
    ensures grown { Extends sig.new sig.old }
    ensures restored { variables.new ≡ variables.old }
{
    variables.enter(inner)?;
    let answer = term(alloc, sig, needs, variables, body);
    variables.leave(inner.len());
    answer
}

// The terms of bindings, in order, and their sorts.
#[cycle(terms)]
fn bound_terms<'e>(
    alloc: Global,
    sig: &mut Signature,
    needs: Needs,
    variables: &mut Variables<'e>,
    bindings: &'e [Sexpr],
) -> Result<(Vec<Tree>, Vec<SortId>), Stop>
    requires variables { ScopeIn sig.old variables.old }
    ensures value { StopsAt needs sig.new sorted_list (bound_terms sig.new variables.old
        (parts_of sig.new (expressions_of bindings.now))) result }
    ensures one_each { IfOk result (λ r. length r.0.items ≡ length r.1.items) }
    ensures reaches { Reaches (λ d. bound_terms d variables.old (parts_of d (expressions_of bindings.now))) sig.old sig.new }
    ensures kept { needs ≡ Find → sig.new ≡ sig.old }
    ensures grown { Extends sig.new sig.old }
    ensures restored { variables.new ≡ variables.old }
{
    prove!(sig.sorts() > 0);
    let mut trees = Vec::with_capacity(alloc, bindings.len())?;
    let mut sorts = Vec::with_capacity(alloc, bindings.len())?;
    for binding in bindings {
        prove!(sig.sorts() > 0);
        let Sexpr::List(items) = binding else {
            return Err(Stop::Refused(OUT_OF_SCOPE));
        };
        let items = items.as_slice();
        if items.len() != 2 {
            return Err(Stop::Refused(OUT_OF_SCOPE));
        }
        let (tree, sort) = term(alloc, sig, needs, variables, &items[1])?;
        trees.push(tree)?;
        sorts.push(sort)?;
    }
    Ok((trees, sorts))
}

// `(match t ((p u) ..))`, by what follows `match`.
#[cycle(terms)]
fn match_form<'e>(
    alloc: Global,
    sig: &mut Signature,
    needs: Needs,
    variables: &mut Variables<'e>,
    args: &'e [Sexpr],
) -> Result<(Tree, SortId), Stop>
    requires variables { ScopeIn sig.old variables.old }
    ensures value { StopsAt needs sig.new sorted_of (match_form sig.new variables.old (parts_of sig.new
        (expressions_of args.now))) result }
    ensures reaches { Reaches (λ d. match_form d variables.old (parts_of d (expressions_of args.now))) sig.old sig.new }
    ensures kept { needs ≡ Find → sig.new ≡ sig.old }
    ensures grown { Extends sig.new sig.old }
    ensures restored { variables.new ≡ variables.old }
{
    if args.len() != 2 {
        return Err(Stop::Refused(OUT_OF_SCOPE));
    }
    let expr = &args[0];
    let second = &args[1];
    let Sexpr::List(cases) = second else {
        return Err(Stop::Refused(OUT_OF_SCOPE));
    };
    let cases = cases.as_slice();
    if !are_cases(cases) {
        return Err(Stop::Refused(OUT_OF_SCOPE));
    }
    prove!(sig.sorts() > 0);
    let (subject, subject_sort) = term(alloc, sig, needs, variables, expr)?;
    prove!(sig.sorts() > 0);
    let side = matchable(sig, subject_sort)?;
    let checked = checked_cases(alloc, sig, needs, variables, side, cases)?;
    match_tree(alloc, sig, subject, subject_sort, checked)
}

// The cases, in order: each has a pattern against the sort of the subject, and a term of the sort
// of the first.
#[cycle(terms)]
fn checked_cases<'e>(
    alloc: Global,
    sig: &mut Signature,
    needs: Needs,
    variables: &mut Variables<'e>,
    side: SortId,
    cases: &'e [Sexpr],
) -> Result<Checked, Stop>
    requires variables { ScopeIn sig.old variables.old }
    requires side { IsSort sig.old side }
    ensures value { StopsAt needs sig.new checked_of (checked_cases sig.new variables.old side None
        (parts_of sig.new (expressions_of cases.now))) result }
    ensures reaches { Reaches (λ d. checked_cases d variables.old side None (parts_of d (expressions_of cases.now))) sig.old sig.new }
    ensures kept { needs ≡ Find → sig.new ≡ sig.old }
    ensures grown { Extends sig.new sig.old }
    ensures restored { variables.new ≡ variables.old }
{
    prove!(sig.sorts() > 0);
    let mut checked = Checked {
        cases: Vec::with_capacity(alloc, cases.len())?,
        patterns: Vec::with_capacity(alloc, cases.len())?,
        sort: None,
    };
    for case in cases {
        prove!(sig.sorts() > 0);
        let Sexpr::List(items) = case else {
            return Err(Stop::Refused(OUT_OF_SCOPE));
        };
        let items = items.as_slice();
        if items.len() != 2 {
            return Err(Stop::Refused(OUT_OF_SCOPE));
        }
        let first = &items[0];
        let body = &items[1];
        let (fitted, inner) = pattern(alloc, sig, side, first)?;
        let (tree, sort) = under(alloc, sig, needs, variables, inner.as_slice(), body)?;
        if !goes_with(checked.sort, sort) {
            return Err(Stop::Refused(WRONG_SORT));
        }
        add_case(&mut checked, fitted, tree, sort)?;
    }
    Ok(checked)
}
