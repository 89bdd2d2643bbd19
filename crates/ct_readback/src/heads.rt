//! The head of a value: a constructor, or an element of an uninterpreted sort.
ghost use Rattle.std.specs.Prelude.{◌≡◌, option_and_then, option_map, codes, IfSome};
ghost use Rattle.ct_sexpr.specs.View.{expression_of, expressions_of};
ghost use Rattle.ct_sorts.specs.Declarations.{IsSort, IsConstructor};
ghost use Rattle.ct_card.specs.Defaults.{is_free_sort};
ghost use Rattle.ct_names.specs.Symbols.{ctor_sort};
ghost use Rattle.ct_readback.specs.Words as words;
ghost use Rattle.ct_readback.specs.Parts.{holds, parts_after};
ghost use Rattle.ct_readback.specs.Parts as parts;
ghost use Rattle.ct_value_text.specs.ValueText.{without_bars};
ghost use Rattle.ct_readback.specs.Heads as spec;

use crate::parts::{parts_after, two_of};
use crate::sort_text::{is_sort_text, says_sort};
use crate::words::{after, is_name, name_in, number_in};
use ct_instances::{ctor_among, has_determined_sort, sort_text};
use ct_names::ctor_named;
use ct_sexpr::Sexpr;
use ct_sorts::{CtorId, Kind, Signature, SortId};

// Whether an underscore in the name is followed by a number and nothing else.
fn ends_numbered(name: &[u8]) -> bool
    ensures value { result ≡ spec.ends_numbered name.now }
{
    let mut rest = name;
    while let [byte, others @ ..] = rest {
        if *byte == b'_' && number_in(others).is_some() {
            return true;
        }
        rest = others;
    }
    false
}

// Whether the name begins as those of elements do.
fn is_own(name: &[u8]) -> bool
    ensures value { result ≡ spec.is_own name.now }
{
    match name {
        [] => false,
        [first, ..] => *first == b'@',
    }
}

// Whether the name has the form of an element's.
fn names_element(name: &[u8]) -> bool
    ensures value { result ≡ spec.names_element name.now }
{
    match name {
        [] => false,
        [first, rest @ ..] => *first == b'@' && ends_numbered(rest),
    }
}

// Whether the expression is a name that may be qualified.
fn may_be_qualified(expr: &Sexpr) -> bool
    ensures value { result ≡ holds spec.may_be_qualified (words.name_in (expression_of expr.now)) }
{
    match name_in(expr) {
        None => false,
        Some(name) => !is_own(name) || names_element(name),
    }
}

// Whether the expression is a name that is no element's.
fn is_foreign(expr: &Sexpr) -> bool
    ensures value { result ≡ holds spec.is_foreign (words.name_in (expression_of expr.now)) }
{
    match name_in(expr) {
        None => false,
        Some(name) => !is_own(name),
    }
}

// Whether the expressions are a name and a sort, as after `as`.
fn is_qualified(items: &[Sexpr]) -> bool
    ensures value { result ≡ spec.is_qualified (expressions_of items.now) }
{
    match two_of(items) {
        None => false,
        Some((name, sort)) => may_be_qualified(name) && is_sort_text(sort),
    }
}

// Whether they are, and the name is no element's.
fn is_qualified_constructor(items: &[Sexpr]) -> bool
    ensures value { result ≡ spec.is_qualified_constructor (expressions_of items.now) }
{
    match two_of(items) {
        None => false,
        Some((name, sort)) => is_foreign(name) && is_sort_text(sort),
    }
}

/// Whether the expression has the form of a constructor or an element.
pub(crate) fn is_head(expr: &Sexpr) -> bool
    ensures value { result ≡ spec.is_head (expression_of expr.now) }
{
    if is_name(expr) {
        return true;
    }
    match parts_after(b"as", expr) {
        None => false,
        Some(items) => is_qualified(items),
    }
}

/// Whether the expression may stand before arguments.
pub(crate) fn is_constructor_head(expr: &Sexpr) -> bool
    ensures value { result ≡ spec.is_constructor_head (expression_of expr.now) }
{
    if is_name(expr) {
        return true;
    }
    match parts_after(b"as", expr) {
        None => false,
        Some(items) => is_qualified_constructor(items),
    }
}

/// The constructor of this sort that the expression says, alone or as `(as C S)`.
pub(crate) fn constructor_at(sig: &Signature, s: SortId, expr: &Sexpr) -> Option<CtorId>
    requires inside { IsSort sig.now s }
    ensures value { result ≡ spec.constructor_at sig.now s (expression_of expr.now) }
    ensures inside { IfSome result (IsConstructor sig.now) }
    ensures sort { IfSome result (λ c. ctor_sort sig.now c ≡ s) }
{
    match constructor_alone(sig, s, expr) {
        Some(c) => Some(c),
        None => constructor_with_sort(sig, s, expr),
    }
}

// The constructor of this sort with the name that the expression is.
fn constructor_of(sig: &Signature, s: SortId, expr: &Sexpr) -> Option<CtorId>
    requires inside { IsSort sig.now s }
    ensures value { result ≡ option_and_then (spec.constructor_of sig.now s) (words.name_in (expression_of expr.now)) }
    ensures inside { IfSome result (IsConstructor sig.now) }
    ensures sort { IfSome result (λ c. ctor_sort sig.now c ≡ s) }
{
    prove!(sig.sorts() > 0);
    let name = name_in(expr)?;
    let c = ctor_named(sig, name)?;
    ctor_among(sig, c, s)
}

// The constructor of this sort that the expression names alone.
fn constructor_alone(sig: &Signature, s: SortId, expr: &Sexpr) -> Option<CtorId>
    requires inside { IsSort sig.now s }
    ensures value { result ≡ spec.constructor_alone sig.now s (expression_of expr.now) }
    ensures inside { IfSome result (IsConstructor sig.now) }
    ensures sort { IfSome result (λ c. ctor_sort sig.now c ≡ s) }
{
    let c = constructor_of(sig, s, expr)?;
    if has_determined_sort(sig, c) {
        return Some(c);
    }
    None
}

// The constructor of this sort that the expression says as `(as C S)`.
fn constructor_with_sort(sig: &Signature, s: SortId, expr: &Sexpr) -> Option<CtorId>
    requires inside { IsSort sig.now s }
    ensures value { result ≡ option_and_then (spec.constructor_with sig.now s) (option_and_then parts.two_of (parts_after (codes "as") (expression_of expr.now))) }
    ensures inside { IfSome result (IsConstructor sig.now) }
    ensures sort { IfSome result (λ c. ctor_sort sig.now c ≡ s) }
{
    let items = parts_after(b"as", expr)?;
    let (name, sort) = two_of(items)?;
    constructor_with(sig, s, name, sort)
}

// The constructor of this sort that a name and a sort say.
fn constructor_with(sig: &Signature, s: SortId, name: &Sexpr, sort: &Sexpr) -> Option<CtorId>
    requires inside { IsSort sig.now s }
    ensures value { result ≡ spec.constructor_with sig.now s (expression_of name.now, expression_of sort.now) }
    ensures inside { IfSome result (IsConstructor sig.now) }
    ensures sort { IfSome result (λ c. ctor_sort sig.now c ≡ s) }
{
    let c = constructor_of(sig, s, name)?;
    if !has_determined_sort(sig, c) && says_sort(sig, s, sort) {
        return Some(c);
    }
    None
}

// The number of the element with this name of the sort with that text.
#[tactic(auto, using(crate::proofs::HeadLemmas::element_steps))]
fn element_named(sort: &[u8], name: &[u8]) -> Option<u64>
    ensures value { result ≡ spec.element_named (without_bars sort.now) name.now }
{
    let own = after(b"@", name)?;
    let rest = after_bare(sort, own)?;
    let digits = after(b"_", rest)?;
    number_in(digits)
}

// The bytes after the text without its bars, with which they begin.
fn after_bare<'a>(text: &[u8], bytes: &'a [u8]) -> Option<&'a [u8]>
    ensures value { words.after (without_bars text.now) bytes.now ≡ option_map (λ rest. rest.now) result }
{
    let mut left = text;
    let mut rest = bytes;
    while let [wanted, others @ ..] = left {
        left = others;
        if *wanted == b'|' {
            continue;
        }
        let [byte, behind @ ..] = rest else {
            return None;
        };
        if *wanted != *byte {
            return None;
        }
        rest = behind;
    }
    Some(rest)
}

// Whether the sort is uninterpreted.
fn is_free(sig: &Signature, s: SortId) -> bool
    requires inside { IsSort sig.now s }
    ensures value { result ≡ is_free_sort sig.now s.0 }
{
    match sig.kind(s) {
        Kind::Free => true,
        Kind::Bool | Kind::Data | Kind::Codata => false,
    }
}

// Whether the sort is uninterpreted, and the expression is its text.
fn is_sort_of_elements(sig: &Signature, s: SortId, sort: &Sexpr) -> bool
    requires inside { IsSort sig.now s }
    ensures value { result ≡ spec.is_sort_of_elements sig.now s (expression_of sort.now) }
{
    is_free(sig, s) && says_sort(sig, s, sort)
}

// The number of the element of this sort that a name and a sort say.
fn element_of(sig: &Signature, s: SortId, name: &Sexpr, sort: &Sexpr) -> Option<u64>
    requires inside { IsSort sig.now s }
    ensures value { result ≡ spec.element_of sig.now s (expression_of name.now, expression_of sort.now) }
{
    let name = name_in(name)?;
    let number = element_named(sort_text(sig, s), name)?;
    if is_sort_of_elements(sig, s, sort) {
        return Some(number);
    }
    None
}

// The number of the element of this sort that the expressions after `as` say.
fn element_at(sig: &Signature, s: SortId, items: &[Sexpr]) -> Option<u64>
    requires inside { IsSort sig.now s }
    ensures value { result ≡ spec.element_at sig.now s (expressions_of items.now) }
{
    let (name, sort) = two_of(items)?;
    element_of(sig, s, name, sort)
}

/// The number of the element of this sort that the expression says.
pub(crate) fn element_in(sig: &Signature, s: SortId, expr: &Sexpr) -> Option<u64>
    requires inside { IsSort sig.now s }
    ensures value { result ≡ option_and_then (spec.element_at sig.now s) (parts_after (codes "as") (expression_of expr.now)) }
{
    let items = parts_after(b"as", expr)?;
    element_at(sig, s, items)
}
