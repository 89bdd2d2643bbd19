//! The form of bodies: rows, their tests, and a default.
ghost use Rattle.std.specs.Prelude.{◌≡◌, ℕ, ◌<◌, ◌^◌, length, option_map};
ghost use Rattle.ct_sexpr.specs.View.{expression_of, expressions_of};
ghost use Rattle.ct_readback.specs.Rows as spec;

use crate::parts::{all_if, only_if, parts_after, three_in, three_of};
use crate::value::is_value;
use crate::words::{is_numbered, is_word};
use ct_sexpr::{Sexpr, nested_lists};

// The test and the result of a choice, and what stands where the test fails.
fn choice_in(body: &Sexpr) -> Option<(&Sexpr, &Sexpr, &Sexpr)>
    ensures value { spec.choice_in (expression_of body.now) ≡ option_map (λ es. (expression_of es.0.now, expression_of es.1.now, expression_of es.2.now)) result }
{
    let parts = parts_after(b"ite", body)?;
    three_of(parts)
}

/// The same of a body of an item with so many parameters.
pub(crate) fn body_choice(parameters: usize, body: &Sexpr) -> Option<(&Sexpr, &Sexpr, &Sexpr)>
    ensures value { spec.body_choice parameters (expression_of body.now) ≡ option_map (λ es. (expression_of es.0.now, expression_of es.1.now, expression_of es.2.now)) result }
{
    let choice = choice_in(body)?;
    if parameters == 0 {
        return None;
    }
    Some(choice)
}

/// The tests of rows that stand together: what stands in an `or`.
pub(crate) fn tests_in(test: &Sexpr) -> Option<&[Sexpr]>
    ensures value { spec.tests_in (expression_of test.now) ≡ option_map (λ es. expressions_of es.now) result }
{
    parts_after(b"or", test)
}

// The value text of an equation of the parameter number i.
fn value_between<'a>(i: u64, word: &Sexpr, parameter: &Sexpr, value: &'a Sexpr) -> Option<&'a Sexpr>
    ensures value { spec.value_between i (expression_of word.now, expression_of parameter.now, expression_of value.now) ≡ option_map (λ e. expression_of e.now) result }
{
    only_if(
        is_word(b"=", word) && is_numbered(b"@x", i, parameter),
        value,
    )
}

/// The value text of an equation of the parameter number i.
pub(crate) fn equation_value(i: u64, equation: &Sexpr) -> Option<&Sexpr>
    ensures value { spec.equation_value i (expression_of equation.now) ≡ option_map (λ e. expression_of e.now) result }
{
    let (word, parameter, value) = three_in(equation)?;
    value_between(i, word, parameter, value)
}

/// The equations of a test of several parameters, one for each.
#[tactic(auto, using(crate::proofs::RestLemmas::count_of))]
pub(crate) fn conjuncts(parameters: usize, test: &Sexpr) -> Option<&[Sexpr]>
    ensures value { spec.conjuncts parameters (expression_of test.now) ≡ option_map (λ es. expressions_of es.now) result }
{
    let equations = parts_after(b"and", test)?;
    all_if(equations.len() == parameters, equations)
}

// Whether the expression is an equation of the parameter number i and a value.
fn is_equation(i: u64, equation: &Sexpr) -> bool
    ensures value { result ≡ spec.is_equation i (expression_of equation.now) }
{
    match equation_value(i, equation) {
        None => false,
        Some(value) => is_value(value),
    }
}

// Whether the expressions are such equations, of the parameters in order.
#[tactic(auto, using(crate::proofs::RestLemmas::rest_at))]
fn are_equations(equations: &[Sexpr]) -> bool
    ensures value { result ≡ spec.are_equations 0 (expressions_of equations.now) }
{
    for index in 0..equations.len() {
        if !is_equation(index as u64, &equations[index]) {
            return false;
        }
    }
    true
}

// Whether the expression has the form of a test of so many parameters.
fn is_test(parameters: usize, test: &Sexpr) -> bool
    ensures value { result ≡ spec.is_test parameters (expression_of test.now) }
{
    if parameters == 1 {
        return is_equation(0, test);
    }
    match conjuncts(parameters, test) {
        None => false,
        Some(equations) => are_equations(equations),
    }
}

// Whether all of them have the form of a test of so many parameters.
#[tactic(auto, using(crate::proofs::RestLemmas::rest_at))]
fn are_all_tests(parameters: usize, tests: &[Sexpr]) -> bool
    ensures value { result ≡ spec.are_all_tests parameters (expressions_of tests.now) }
{
    for index in 0..tests.len() {
        if !is_test(parameters, &tests[index]) {
            return false;
        }
    }
    true
}

// Whether the expression is a test of so many parameters, or several in an `or`.
fn are_tests(parameters: usize, test: &Sexpr) -> bool
    ensures value { result ≡ spec.are_tests parameters (expression_of test.now) }
{
    match tests_in(test) {
        None => is_test(parameters, test),
        Some([]) => false,
        Some(tests) => are_all_tests(parameters, tests),
    }
}

// Whether the expression has the form of choices, one inside the other, and a default.
#[tactic(auto, using(crate::proofs::BodyLemmas::choice_by_row, crate::proofs::BodyLemmas::rest_nests_less))]
fn is_choice(parameters: usize, body: &Sexpr) -> bool
    ensures value { result ≡ spec.is_choice parameters (expression_of body.now) }
{
    let mut left = body;
    while let Some((test, value, rest)) = choice_in(left) {
        if !are_tests(parameters, test) || !is_value(value) {
            return false;
        }
        left = rest;
    }
    is_value(left)
}

/// Whether the expression has the form of a body of an item with so many parameters.
pub(crate) fn is_body(parameters: usize, body: &Sexpr) -> bool
    ensures value { result ≡ spec.is_body parameters (expression_of body.now) }
{
    if parameters == 0 {
        return is_value(body);
    }
    is_choice(parameters, body)
}
