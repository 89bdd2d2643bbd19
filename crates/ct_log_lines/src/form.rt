//! What items are made of: words, numbers and names.
ghost use Rattle.std.specs.Prelude.{◌≡◌, Some, None, IfOk, option_map, if◌then◌else◌};
ghost use Rattle.ct_sexpr.specs.Written.{is_reserved};
ghost use Rattle.ct_sexpr.specs.View.{expression_of, expressions_of};
ghost use Rattle.ct_log_lines.specs.Forms.{is_word, list_items, first_with_rest, one_of, two_of, three_of, after_word, parts_after, parts_numbered, number_in, short_number, numbers_in, term_in, term_numbered, name_in, is_name, is_sort_form, is_sort_list, are_sort_forms, qualified_by, qualified_in};

use ct_sexpr::{Sexpr, is_reserved};
use ct_sorts::Items;
use ct_terms::TermId;
use std::alloc::{AllocError, Global};

/// The greatest number of a term in memory.
const GREATEST_TERM: u64 = 4_294_967_295;

/// One more than the greatest number.
const NUMBER_BOUND: u128 = 18_446_744_073_709_551_616;

/// Whether the expression is this word.
pub(crate) fn is_word(text: &[u8], expr: &Sexpr) -> bool
    ensures value { result ≡ is_word text.now (expression_of expr.now) }
{
    match expr {
        Sexpr::Symbol(bytes) => bytes.as_slice() == text,
        Sexpr::Quoted(_)
        | Sexpr::Keyword(_)
        | Sexpr::Text(_)
        | Sexpr::Numeral(_)
        | Sexpr::Decimal(_)
        | Sexpr::Binary(_)
        | Sexpr::Hex(_)
        | Sexpr::List(_) => false,
    }
}

/// The items of a list; of an expression that is none, nothing.
pub fn parts_of(expr: &Sexpr) -> Option<&[Sexpr]>
    ensures value { list_items (expression_of expr.now) ≡ option_map (λ items. expressions_of items.now) result }
{
    expr.as_list()
}

/// The first of the expressions, and the rest, if there is one.
pub fn first_of(items: &[Sexpr]) -> Option<(&Sexpr, &[Sexpr])>
    ensures value { first_with_rest (expressions_of items.now) ≡ option_map (λ parts. (expression_of parts.0.now, expressions_of parts.1.now)) result }
{
    match items {
        [] => None,
        [first, others @ ..] => Some((first, others)),
    }
}

/// The only one of the expressions.
pub(crate) fn one_of(items: &[Sexpr]) -> Option<&Sexpr>
    ensures value { one_of (expressions_of items.now) ≡ option_map (λ e. expression_of e.now) result }
{
    let (first, others) = first_of(items)?;
    match first_of(others) {
        None => Some(first),
        Some(_) => None,
    }
}

/// The expressions, where there are two.
pub(crate) fn two_of(items: &[Sexpr]) -> Option<(&Sexpr, &Sexpr)>
    ensures value { two_of (expressions_of items.now) ≡ option_map (λ es. (expression_of es.0.now, expression_of es.1.now)) result }
{
    let (first, others) = first_of(items)?;
    let second = one_of(others)?;
    Some((first, second))
}

/// The expressions, where there are three.
pub(crate) fn three_of(items: &[Sexpr]) -> Option<(&Sexpr, &Sexpr, &Sexpr)>
    ensures value { three_of (expressions_of items.now) ≡ option_map (λ es. (expression_of es.0.now, expression_of es.1.now, expression_of es.2.now)) result }
{
    let (first, others) = first_of(items)?;
    let (second, third) = two_of(others)?;
    Some((first, second, third))
}

/// What follows this word in a list that begins with it.
pub fn parts_after<'a>(text: &[u8], expr: &'a Sexpr) -> Option<&'a [Sexpr]>
    ensures value { parts_after text.now (expression_of expr.now) ≡ option_map (λ items. expressions_of items.now) result }
{
    let items = parts_of(expr)?;
    let (head, others) = first_of(items)?;
    after_word(text, head, others)
}

/// What comes after the first expression, where that is this word.
fn after_word<'a>(text: &[u8], head: &Sexpr, others: &'a [Sexpr]) -> Option<&'a [Sexpr]>
    ensures value { after_word text.now (expression_of head.now, expressions_of others.now) ≡ option_map (λ items. expressions_of items.now) result }
{
    if is_word(text, head) {
        return Some(others);
    }
    None
}

/// What stands in a list after this word and this number, with which it begins.
pub(crate) fn parts_numbered<'a>(text: &[u8], n: u64, expr: &'a Sexpr) -> Option<&'a [Sexpr]>
    ensures value { parts_numbered text.now n (expression_of expr.now) ≡ option_map (λ items. expressions_of items.now) result }
{
    let items = parts_after(text, expr)?;
    let (number, others) = first_of(items)?;
    if number_in(number)? == n {
        return Some(others);
    }
    None
}

/// The number, where it is below 2^64.
fn short_number(value: u128) -> Option<u64>
    ensures value { result ≡ short_number value }
{
    if value < NUMBER_BOUND {
        return Some(value as u64);
    }
    None
}

/// The number that the expression is.
pub(crate) fn number_in(expr: &Sexpr) -> Option<u64>
    ensures value { result ≡ number_in (expression_of expr.now) }
{
    match expr {
        Sexpr::Numeral(value) => short_number(*value),
        Sexpr::Symbol(_)
        | Sexpr::Quoted(_)
        | Sexpr::Keyword(_)
        | Sexpr::Text(_)
        | Sexpr::Decimal(_)
        | Sexpr::Binary(_)
        | Sexpr::Hex(_)
        | Sexpr::List(_) => None,
    }
}

/// The term with this number; a number that is too great for a term becomes the greatest one.
pub fn term_numbered(n: u64) -> TermId
    ensures value { result ≡ term_numbered n }
{
    if n < GREATEST_TERM {
        return TermId(n as u32);
    }
    TermId(GREATEST_TERM as u32)
}

/// The term that the expression names by its number.
pub(crate) fn term_in(expr: &Sexpr) -> Option<TermId>
    ensures value { result ≡ term_in (expression_of expr.now) }
{
    match number_in(expr) {
        None => None,
        Some(n) => Some(term_numbered(n)),
    }
}

/// The name that the expression is.
pub(crate) fn name_in(expr: &Sexpr) -> Option<&[u8]>
    ensures value { name_in (expression_of expr.now) ≡ option_map (λ bytes. bytes.now) result }
{
    match expr {
        Sexpr::Symbol(bytes) => unreserved(bytes.as_slice()),
        Sexpr::Quoted(bytes) => Some(bytes.as_slice()),
        Sexpr::Keyword(_)
        | Sexpr::Text(_)
        | Sexpr::Numeral(_)
        | Sexpr::Decimal(_)
        | Sexpr::Binary(_)
        | Sexpr::Hex(_)
        | Sexpr::List(_) => None,
    }
}

/// The word, where it is not reserved.
fn unreserved(word: &[u8]) -> Option<&[u8]>
    ensures value { option_map (λ bytes. bytes.now) result ≡ (if is_reserved word.now then None else Some word.now) }
{
    if is_reserved(word) {
        return None;
    }
    Some(word)
}

/// The numbers that the expressions are.
pub(crate) fn numbers_in(alloc: Global, items: &[Sexpr]) -> Result<Option<Items<u64>>, AllocError>
    ensures ok { IfOk result (λ numbers. numbers ≡ numbers_in (expressions_of items.now)) }
{
    let mut numbers = Vec::new(alloc);
    let mut rest = items;
    while let [item, others @ ..] = rest {
        match number_in(item) {
            None => return Ok(None),
            Some(n) => numbers.push(n)?,
        }
        rest = others;
    }
    Ok(Some(Items::new(numbers)))
}

/// The name and the sort of `(as C S)`.
pub(crate) fn qualified_in(expr: &Sexpr) -> Option<(&[u8], &Sexpr)>
    ensures value { qualified_in (expression_of expr.now) ≡ option_map (λ parts. (parts.0.now, expression_of parts.1.now)) result }
{
    let items = parts_after(b"as", expr)?;
    let (name, sort) = two_of(items)?;
    qualified_by(name, sort)
}

/// The name and the sort, where they have the form of these.
fn qualified_by<'a>(name: &'a Sexpr, sort: &'a Sexpr) -> Option<(&'a [u8], &'a Sexpr)>
    ensures value { qualified_by (expression_of name.now, expression_of sort.now) ≡ option_map (λ parts. (parts.0.now, expression_of parts.1.now)) result }
{
    let name = name_in(name)?;
    if is_sort_form(sort) {
        return Some((name, sort));
    }
    None
}

/// Whether the expression is a name.
fn is_name(expr: &Sexpr) -> bool
    ensures value { result ≡ is_name (expression_of expr.now) }
{
    name_in(expr).is_some()
}

/// Whether the expression has the form of a sort: a name, or a name before sorts, one at least.
#[cycle(sort_form)]
#[tactic(auto, using(crate::proofs::NestingLemmas::expression_of_list))]
fn is_sort_form(expr: &Sexpr) -> bool
    ensures value { result ≡ is_sort_form (expression_of expr.now) }
{
    match expr {
        Sexpr::List(items) => is_sort_list(items.as_slice()),
        Sexpr::Symbol(_)
        | Sexpr::Quoted(_)
        | Sexpr::Keyword(_)
        | Sexpr::Text(_)
        | Sexpr::Numeral(_)
        | Sexpr::Decimal(_)
        | Sexpr::Binary(_)
        | Sexpr::Hex(_) => is_name(expr),
    }
}

/// Whether the items of a list are a name and sorts.
#[cycle(sort_form)]
fn is_sort_list(items: &[Sexpr]) -> bool
    ensures value { result ≡ is_sort_list (expressions_of items.now) }
{
    match items {
        [] | [_] => false,
        [name, sorts @ ..] => is_name(name) && are_sort_forms(sorts),
    }
}

/// Whether each of the expressions has the form of a sort.
#[cycle(sort_form)]
fn are_sort_forms(exprs: &[Sexpr]) -> bool
    ensures value { result ≡ are_sort_forms (expressions_of exprs.now) }
{
    for expr in exprs {
        if !is_sort_form(expr) {
            return false;
        }
    }
    true
}
