//! Words, names and numbers in the expressions of a model (SMT-LIB 2.7, sections 3.1 and 3.2).
ghost use Rattle.std.specs.Prelude.{◌≡◌, ◌≤◌, true, IfSome, IfNone, option_map};
ghost use Rattle.std.specs.List.{list_all};
ghost use Rattle.std.specs.Char.{is_ascii_digit};
ghost use Rattle.ct_sexpr.specs.Atom.{numeral_value};
ghost use Rattle.ct_sexpr.specs.View.{expression_of};
ghost use Rattle.ct_readback.specs.Words as spec;
ghost use Rattle.ct_readback.specs.Words.{number_bound};

use ct_sexpr::{Sexpr, is_reserved};

/// Whether the expression is the simple symbol with these bytes.
pub(crate) fn is_word(text: &[u8], expr: &Sexpr) -> bool
    ensures value { result ≡ spec.is_word text.now (expression_of expr.now) }
{
    match expr {
        Sexpr::Symbol(bytes) => bytes.as_slice() == text,
        Sexpr::Quoted(_)
        | Sexpr::Keyword(_)
        | Sexpr::Text(_)
        | Sexpr::Numeral(_)
        | Sexpr::Decimal(_)
        | Sexpr::Binary(_)
        | Sexpr::Hex(_)
        | Sexpr::List(_) => false,
    }
}

/// The name that the expression is.
pub(crate) fn name_in(expr: &Sexpr) -> Option<&[u8]>
    ensures value { spec.name_in (expression_of expr.now) ≡ option_map (λ bytes. bytes.now) result }
{
    match expr {
        Sexpr::Symbol(bytes) => unreserved(bytes.as_slice()),
        Sexpr::Quoted(bytes) => Some(bytes.as_slice()),
        Sexpr::Keyword(_)
        | Sexpr::Text(_)
        | Sexpr::Numeral(_)
        | Sexpr::Decimal(_)
        | Sexpr::Binary(_)
        | Sexpr::Hex(_)
        | Sexpr::List(_) => None,
    }
}

// The word, where it is not reserved.
fn unreserved(word: &[u8]) -> Option<&[u8]>
    ensures value { spec.unreserved word.now ≡ option_map (λ bytes. bytes.now) result }
{
    if is_reserved(word) {
        return None;
    }
    Some(word)
}

/// Whether the expression is a name.
pub(crate) fn is_name(expr: &Sexpr) -> bool
    ensures value { result ≡ spec.is_name (expression_of expr.now) }
{
    name_in(expr).is_some()
}

/// Whether the expression is this name.
pub(crate) fn is_named(name: &[u8], expr: &Sexpr) -> bool
    ensures value { result ≡ spec.is_named name.now (expression_of expr.now) }
{
    match name_in(expr) {
        None => false,
        Some(own) => name == own,
    }
}

// Whether the bytes are decimal digits, one at least, without a leading zero.
fn is_numeral(bytes: &[u8]) -> bool
    ensures value { result ≡ spec.is_numeral bytes.now }
{
    match bytes {
        [] => false,
        [digit] => digit.is_ascii_digit(),
        [first, _, ..] => *first != b'0' && are_digits(bytes),
    }
}

// Whether the bytes are decimal digits.
fn are_digits(bytes: &[u8]) -> bool
    ensures value { result ≡ list_all is_ascii_digit bytes.now }
{
    bytes.iter().all(u8::is_ascii_digit)
}

// The value of decimal digits. `None` where it is 2^64 or more.
fn value_of(digits: &[u8]) -> Option<u64>
    requires digits { list_all is_ascii_digit digits.now ≡ true }
    ensures value { IfSome result (λ value. value ≡ numeral_value digits.now) }
    ensures too_great { IfNone result (number_bound ≤ numeral_value digits.now) }
{
    let mut value: u64 = 0;
    for digit in digits {
        value = value
            .checked_mul(10)?
            .checked_add(u64::from(*digit - b'0'))?;
    }
    Some(value)
}

/// The number that the bytes are the numeral of.
#[tactic(auto, using(crate::proofs::WordLemmas::numeral_digits))]
pub(crate) fn number_in(bytes: &[u8]) -> Option<u64>
    ensures value { result ≡ spec.number_in bytes.now }
{
    if !is_numeral(bytes) {
        return None;
    }
    value_of(bytes)
}

/// The bytes after this prefix, with which they begin.
pub(crate) fn after<'a>(prefix: &[u8], bytes: &'a [u8]) -> Option<&'a [u8]>
    ensures value { spec.after prefix.now bytes.now ≡ option_map (λ rest. rest.now) result }
{
    let mut left = prefix;
    let mut rest = bytes;
    while let [wanted, others @ ..] = left {
        let [byte, behind @ ..] = rest else {
            return None;
        };
        if *wanted != *byte {
            return None;
        }
        left = others;
        rest = behind;
    }
    Some(rest)
}

/// The number of the expression, where it is a simple symbol of this mark and a numeral.
pub(crate) fn numbered(mark: &[u8], expr: &Sexpr) -> Option<u64>
    ensures value { result ≡ spec.numbered mark.now (expression_of expr.now) }
{
    match expr {
        Sexpr::Symbol(bytes) => number_after(mark, bytes.as_slice()),
        Sexpr::Quoted(_)
        | Sexpr::Keyword(_)
        | Sexpr::Text(_)
        | Sexpr::Numeral(_)
        | Sexpr::Decimal(_)
        | Sexpr::Binary(_)
        | Sexpr::Hex(_)
        | Sexpr::List(_) => None,
    }
}

// The number after the mark.
fn number_after(mark: &[u8], bytes: &[u8]) -> Option<u64>
    ensures value { result ≡ spec.number_after mark.now bytes.now }
{
    match after(mark, bytes) {
        None => None,
        Some(rest) => number_in(rest),
    }
}

/// Whether the expression has this number after the mark.
pub(crate) fn is_numbered(mark: &[u8], n: u64, expr: &Sexpr) -> bool
    ensures value { result ≡ spec.is_numbered mark.now n (expression_of expr.now) }
{
    match numbered(mark, expr) {
        None => false,
        Some(m) => m == n,
    }
}
