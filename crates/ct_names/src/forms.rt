//! The forms of binders and annotations, before their terms are elaborated.
ghost use Rattle.std.specs.Prelude.{◌≡◌, List};
ghost use Rattle.ct_sexpr.specs.View.{expression_of, expressions_of};
ghost use Rattle.ct_sorts.specs.Declarations.{Declarations};
ghost use Rattle.ct_names.specs.Forms.{is_name, is_binding, are_bindings, is_pattern_variable, are_variables, is_pattern, is_case, are_cases, is_keyword, is_named_attribute, are_attributes};
ghost use Rattle.ct_names.specs.Elaboration.{part_of, parts_of};
ghost use Rattle.ct_names.specs.Parts.{list_part};
ghost use Rattle.ct_names.specs.Variables.{Variable};
ghost use Rattle.ct_names.specs.Outcome.{Elaborated, Sorted};

use crate::atoms::{is_word, name_of};
use ct_sexpr::Sexpr;

/// Whether each expression is a binding `(x t)`, as `let` has them, before the terms are looked at.
pub fn are_bindings(exprs: &[Sexpr]) -> bool
    ensures value { (d : Declarations) → result ≡ are_bindings (parts_of d
        (expressions_of exprs.now)) }
{
    let mut left = exprs;
    while let [first, others @ ..] = left {
        if !is_binding(first) {
            return false;
        }
        left = others;
    }
    true
}

// Whether the expression is `(x t)` for a name x.
#[tactic(auto, using(crate::proofs::Rows::expression_of_list))]
fn is_binding(expr: &Sexpr) -> bool
    ensures value { (d : Declarations) → result ≡ is_binding (part_of d (expression_of expr.now)) }
{
    match expr {
        Sexpr::List(items) => is_name_and_term(items.as_slice()),
        Sexpr::Symbol(_)
        | Sexpr::Quoted(_)
        | Sexpr::Keyword(_)
        | Sexpr::Text(_)
        | Sexpr::Numeral(_)
        | Sexpr::Decimal(_)
        | Sexpr::Binary(_)
        | Sexpr::Hex(_) => false,
    }
}

// Whether the expressions are a name and another one.
fn is_name_and_term(items: &[Sexpr]) -> bool
    ensures value { (d : Declarations) (meaning : List Variable → Elaborated Sorted)
        → result ≡ is_binding (list_part (parts_of d (expressions_of items.now)) meaning) }
{
    match items {
        [] | [_] => false,
        [name, _] => is_name(name),
        [_, _, _, ..] => false,
    }
}

// Whether the expression is a name.
fn is_name(expr: &Sexpr) -> bool
    ensures value { (d : Declarations) → result ≡ is_name (part_of d (expression_of expr.now)) }
{
    name_of(expr).is_some()
}

// Whether the expression may stand in the place of a variable of a pattern.
fn is_variable(expr: &Sexpr) -> bool
    ensures value { (d : Declarations) → result ≡ is_pattern_variable (part_of d (expression_of expr.now)) }
{
    is_name(expr) || is_word(b"_", expr)
}

// Whether each of the expressions may.
fn are_variables(exprs: &[Sexpr]) -> bool
    ensures value { (d : Declarations) → result ≡ are_variables (parts_of d
        (expressions_of exprs.now)) }
{
    let mut left = exprs;
    while let [first, others @ ..] = left {
        if !is_variable(first) {
            return false;
        }
        left = others;
    }
    true
}

// Whether the expression may stand in the place of a pattern.
#[tactic(auto, using(crate::proofs::Rows::expression_of_list))]
fn is_pattern(expr: &Sexpr) -> bool
    ensures value { (d : Declarations) → result ≡ is_pattern (part_of d (expression_of expr.now)) }
{
    match expr {
        Sexpr::List(items) => is_name_with_variables(items.as_slice()),
        Sexpr::Symbol(_)
        | Sexpr::Quoted(_)
        | Sexpr::Keyword(_)
        | Sexpr::Text(_)
        | Sexpr::Numeral(_)
        | Sexpr::Decimal(_)
        | Sexpr::Binary(_)
        | Sexpr::Hex(_) => is_variable(expr),
    }
}

// Whether the expressions are a name and variables.
fn is_name_with_variables(items: &[Sexpr]) -> bool
    ensures value { (d : Declarations) (meaning : List Variable → Elaborated Sorted)
        → result ≡ is_pattern (list_part (parts_of d (expressions_of items.now)) meaning) }
{
    match items {
        [] => false,
        [name, variables @ ..] => is_name(name) && are_variables(variables),
    }
}

/// Whether each expression is a case `(p t)`, as `match` has them: p is a name, `_`, or a name with
/// variables. Whether p fits anything is for `pattern` to say.
pub fn are_cases(exprs: &[Sexpr]) -> bool
    ensures value { (d : Declarations) → result ≡ are_cases (parts_of d
        (expressions_of exprs.now)) }
{
    let mut left = exprs;
    while let [first, others @ ..] = left {
        if !is_case(first) {
            return false;
        }
        left = others;
    }
    true
}

// Whether the expression is `(p t)` for a pattern p.
#[tactic(auto, using(crate::proofs::Rows::expression_of_list))]
fn is_case(expr: &Sexpr) -> bool
    ensures value { (d : Declarations) → result ≡ is_case (part_of d (expression_of expr.now)) }
{
    match expr {
        Sexpr::List(items) => is_pattern_and_term(items.as_slice()),
        Sexpr::Symbol(_)
        | Sexpr::Quoted(_)
        | Sexpr::Keyword(_)
        | Sexpr::Text(_)
        | Sexpr::Numeral(_)
        | Sexpr::Decimal(_)
        | Sexpr::Binary(_)
        | Sexpr::Hex(_) => false,
    }
}

// Whether the expressions are a pattern and another one.
fn is_pattern_and_term(items: &[Sexpr]) -> bool
    ensures value { (d : Declarations) (meaning : List Variable → Elaborated Sorted)
        → result ≡ is_case (list_part (parts_of d (expressions_of items.now)) meaning) }
{
    match items {
        [] | [_] => false,
        [pattern, _] => is_pattern(pattern),
        [_, _, _, ..] => false,
    }
}

// Whether the expression is a keyword.
fn is_keyword(expr: &Sexpr) -> bool
    ensures value { (d : Declarations) → result ≡ is_keyword (part_of d (expression_of expr.now)) }
{
    match expr {
        Sexpr::Keyword(_) => true,
        Sexpr::Symbol(_)
        | Sexpr::Quoted(_)
        | Sexpr::Text(_)
        | Sexpr::Numeral(_)
        | Sexpr::Decimal(_)
        | Sexpr::Binary(_)
        | Sexpr::Hex(_)
        | Sexpr::List(_) => false,
    }
}

// Whether the expression is the keyword `:named`.
fn is_named_attribute(expr: &Sexpr) -> bool
    ensures value { (d : Declarations) → result ≡ is_named_attribute (part_of d
        (expression_of expr.now)) }
{
    match expr {
        Sexpr::Keyword(word) => word.as_slice() == b":named".as_slice(),
        Sexpr::Symbol(_)
        | Sexpr::Quoted(_)
        | Sexpr::Text(_)
        | Sexpr::Numeral(_)
        | Sexpr::Decimal(_)
        | Sexpr::Binary(_)
        | Sexpr::Hex(_)
        | Sexpr::List(_) => false,
    }
}

/// Whether the expressions are one attribute or more, as follow the term in `(! t ..)`: keywords,
/// each with at most one value, and none of them `:named`.
pub fn are_attributes(exprs: &[Sexpr]) -> bool
    ensures value { (d : Declarations) → result ≡ are_attributes (parts_of d
        (expressions_of exprs.now)) }
{
    if exprs.is_empty() {
        return false;
    }
    let mut takes_value = false;
    let mut left = exprs;
    while let [first, others @ ..] = left {
        if is_keyword(first) {
            if is_named_attribute(first) {
                return false;
            }
            takes_value = true;
        } else {
            if !takes_value {
                return false;
            }
            takes_value = false;
        }
        left = others;
    }
    true
}
