//! The parts of lists.
ghost use Rattle.std.specs.Prelude.{◌≡◌, option_map};
ghost use Rattle.ct_sexpr.specs.View.{expression_of, expressions_of};
ghost use Rattle.ct_readback.specs.Parts as spec;
ghost use Rattle.ct_readback.specs.Parts.{only_if};

use crate::words::is_word;
use ct_sexpr::Sexpr;

/// The items of a list; of an expression that is none, nothing.
pub(crate) fn items_in(expr: &Sexpr) -> Option<&[Sexpr]>
    ensures value { spec.list_items (expression_of expr.now) ≡ option_map (λ items. expressions_of items.now) result }
{
    expr.as_list()
}

/// The first of the expressions, and those after it, where there is one.
pub(crate) fn first_of(items: &[Sexpr]) -> Option<(&Sexpr, &[Sexpr])>
    ensures value { spec.first_of (expressions_of items.now) ≡ option_map (λ parts. (expression_of parts.0.now, expressions_of parts.1.now)) result }
{
    match items {
        [] => None,
        [first, others @ ..] => Some((first, others)),
    }
}

// The only one of the expressions.
fn one_of(items: &[Sexpr]) -> Option<&Sexpr>
    ensures value { spec.one_of (expressions_of items.now) ≡ option_map (λ e. expression_of e.now) result }
{
    let (first, others) = first_of(items)?;
    match first_of(others) {
        None => Some(first),
        Some(_) => None,
    }
}

/// The expressions, where there are two.
pub(crate) fn two_of(items: &[Sexpr]) -> Option<(&Sexpr, &Sexpr)>
    ensures value { spec.two_of (expressions_of items.now) ≡ option_map (λ es. (expression_of es.0.now, expression_of es.1.now)) result }
{
    let (first, others) = first_of(items)?;
    let second = one_of(others)?;
    Some((first, second))
}

/// The expressions, where there are three.
pub(crate) fn three_of(items: &[Sexpr]) -> Option<(&Sexpr, &Sexpr, &Sexpr)>
    ensures value { spec.three_of (expressions_of items.now) ≡ option_map (λ es. (expression_of es.0.now, expression_of es.1.now, expression_of es.2.now)) result }
{
    let (first, others) = first_of(items)?;
    let (second, third) = two_of(others)?;
    Some((first, second, third))
}

/// The expressions, where there are four.
pub(crate) fn four_of(items: &[Sexpr]) -> Option<(&Sexpr, &Sexpr, &Sexpr, &Sexpr)>
    ensures value { spec.four_of (expressions_of items.now) ≡ option_map (λ es. (expression_of es.0.now, expression_of es.1.now, expression_of es.2.now, expression_of es.3.now)) result }
{
    let (first, others) = first_of(items)?;
    let (second, third, fourth) = three_of(others)?;
    Some((first, second, third, fourth))
}

/// The items of a list of two.
pub(crate) fn two_in(expr: &Sexpr) -> Option<(&Sexpr, &Sexpr)>
    ensures value { spec.two_in (expression_of expr.now) ≡ option_map (λ es. (expression_of es.0.now, expression_of es.1.now)) result }
{
    let items = items_in(expr)?;
    two_of(items)
}

/// The items of a list of three.
pub(crate) fn three_in(expr: &Sexpr) -> Option<(&Sexpr, &Sexpr, &Sexpr)>
    ensures value { spec.three_in (expression_of expr.now) ≡ option_map (λ es. (expression_of es.0.now, expression_of es.1.now, expression_of es.2.now)) result }
{
    let items = items_in(expr)?;
    three_of(items)
}

/// What stands in a list after this word, with which it begins.
pub(crate) fn parts_after<'a>(text: &[u8], expr: &'a Sexpr) -> Option<&'a [Sexpr]>
    ensures value { spec.parts_after text.now (expression_of expr.now) ≡ option_map (λ items. expressions_of items.now) result }
{
    let items = items_in(expr)?;
    let (head, others) = first_of(items)?;
    after_word(text, head, others)
}

// What comes after the first expression, where that is this word.
fn after_word<'a>(text: &[u8], head: &Sexpr, others: &'a [Sexpr]) -> Option<&'a [Sexpr]>
    ensures value { spec.after_word text.now (expression_of head.now, expressions_of others.now) ≡ option_map (λ items. expressions_of items.now) result }
{
    if is_word(text, head) {
        return Some(others);
    }
    None
}

/// The expression, where the test is true.
pub(crate) fn only_if(test: bool, expr: &Sexpr) -> Option<&Sexpr>
    ensures value { only_if test (expression_of expr.now) ≡ option_map (λ e. expression_of e.now) result }
{
    if test {
        return Some(expr);
    }
    None
}

/// The expressions, where the test is true.
pub(crate) fn all_if(test: bool, exprs: &[Sexpr]) -> Option<&[Sexpr]>
    ensures value { only_if test (expressions_of exprs.now) ≡ option_map (λ es. expressions_of es.now) result }
{
    if test {
        return Some(exprs);
    }
    None
}
