//! Which atom a word, a keyword or a literal is (SMT-LIB 2.7, section 3.1).
ghost use Rattle.std.specs.Prelude.{◌≡◌, ◌≤◌, ◌∷◌, Ok, Err, IfOk, IfErr, IfSome, IfNone, true};
ghost use Rattle.std.specs.List.{list_all};
ghost use Rattle.std.specs.Char.{is_ascii_digit, is_ascii_hexdigit};
ghost use Rattle.ct_sexpr.specs.Atom.{atom_of, keyword_of, literal, number, colon, number_sign, are_digits, is_binary_digit, is_point_and_digits, numeral_value, numeral_bound};
ghost use Rattle.ct_sexpr.specs.TakeWhile.{drop_while};
ghost use Rattle.ct_sexpr.specs.Expression.{leaf};
ghost use Rattle.ct_sexpr.specs.View.{expression_of};
ghost use Rattle.ct_sexpr.specs.AtomKind.{atom_as};

use crate::bytes::Bytes;
use crate::error::{BEGINS_NO_TOKEN, NUMERAL_TOO_GREAT, ReadError};
use crate::sexpr::Sexpr;
use std::alloc::Global;

/// What a word is, beside its bytes.
#[derive(Clone, Copy, Debug, PartialEq, Eq)]
pub(crate) enum AtomKind {
    /// A symbol.
    Symbol,
    /// A keyword.
    Keyword,
    /// A numeral with this value.
    Numeral(u128),
    /// A decimal.
    Decimal,
    /// A binary literal.
    Binary,
    /// A hexadecimal literal.
    Hex,
}

/// What the word is, or the number of the error.
pub(crate) fn kind_of(word: &[u8]) -> Result<AtomKind, u16>
    ensures ok { IfOk result (λ kind. atom_of word.now ≡ Ok (atom_as kind word.now)) }
    ensures err { IfErr result (λ code. atom_of word.now ≡ Err code) }
{
    match word {
        [] => Err(BEGINS_NO_TOKEN),
        [b':', name @ ..] => keyword_of(name),
        [b'#', digits @ ..] => literal_of(digits),
        [first, ..] if first.is_ascii_digit() => number_of(word),
        [_, ..] => Ok(AtomKind::Symbol),
    }
}

/// The expression of a word of this kind.
pub(crate) fn atom(alloc: Global, kind: AtomKind, word: &[u8]) -> Result<Sexpr, ReadError>
    ensures ok { IfOk result (λ e. expression_of e ≡ leaf (atom_as kind word.now)) }
    ensures err { IfErr result (λ e. e ≡ ReadError.NoMemory) }
{
    match kind {
        AtomKind::Numeral(value) => Ok(Sexpr::Numeral(value)),
        AtomKind::Symbol => Ok(Sexpr::Symbol(copied(alloc, word)?)),
        AtomKind::Keyword => Ok(Sexpr::Keyword(copied(alloc, word)?)),
        AtomKind::Decimal => Ok(Sexpr::Decimal(copied(alloc, word)?)),
        AtomKind::Binary => Ok(Sexpr::Binary(copied(alloc, word)?)),
        AtomKind::Hex => Ok(Sexpr::Hex(copied(alloc, word)?)),
    }
}

/// The bytes in a vector of their own.
pub(crate) fn copied(alloc: Global, bytes: &[u8]) -> Result<Bytes, ReadError>
    ensures ok { IfOk result (λ b. b ≡ bytes.now) }
    ensures err { IfErr result (λ e. e ≡ ReadError.NoMemory) }
{
    Ok(Bytes::new(Vec::from_slice(alloc, bytes)?))
}

/// A keyword, by what stands after its colon.
fn keyword_of(name: &[u8]) -> Result<AtomKind, u16>
    ensures ok { IfOk result (λ kind. keyword_of name.now ≡ Ok (atom_as kind (colon ∷ name.now))) }
    ensures err { IfErr result (λ code. keyword_of name.now ≡ Err code) }
{
    match name {
        [first, ..] if !first.is_ascii_digit() => Ok(AtomKind::Keyword),
        _ => Err(BEGINS_NO_TOKEN),
    }
}

/// A binary or hexadecimal literal, by what stands after its number sign.
fn literal_of(text: &[u8]) -> Result<AtomKind, u16>
    ensures ok { IfOk result (λ kind. literal text.now ≡ Ok (atom_as kind (number_sign ∷ text.now))) }
    ensures err { IfErr result (λ code. literal text.now ≡ Err code) }
{
    match text {
        [b'b', digits @ ..] if are_binary_digits(digits) => Ok(AtomKind::Binary),
        [b'x', digits @ ..] if are_hexadecimal_digits(digits) => Ok(AtomKind::Hex),
        _ => Err(BEGINS_NO_TOKEN),
    }
}

/// A numeral or a decimal: a word that begins with a digit.
fn number_of(word: &[u8]) -> Result<AtomKind, u16>
    ensures ok { IfOk result (λ kind. number word.now ≡ Ok (atom_as kind word.now)) }
    ensures err { IfErr result (λ code. number word.now ≡ Err code) }
{
    if are_all_digits(word) {
        return match numeral_value(word) {
            Some(value) => Ok(AtomKind::Numeral(value)),
            None => Err(NUMERAL_TOO_GREAT),
        };
    }
    if is_point_and_digits(after_digits(word)) {
        return Ok(AtomKind::Decimal);
    }
    Err(BEGINS_NO_TOKEN)
}

/// One binary digit at least, and nothing else.
fn are_binary_digits(text: &[u8]) -> bool
    ensures digits { result ≡ are_digits is_binary_digit text.now }
{
    !text.is_empty() && text.iter().all(|byte| matches!(byte, b'0' | b'1'))
}

/// One hexadecimal digit at least, and nothing else.
fn are_hexadecimal_digits(text: &[u8]) -> bool
    ensures digits { result ≡ are_digits is_ascii_hexdigit text.now }
{
    !text.is_empty() && text.iter().all(u8::is_ascii_hexdigit)
}

/// Digits alone, or nothing.
fn are_all_digits(text: &[u8]) -> bool
    ensures digits { result ≡ list_all is_ascii_digit text.now }
{
    text.iter().all(u8::is_ascii_digit)
}

/// A point and digits.
fn is_point_and_digits(text: &[u8]) -> bool
    ensures fraction { result ≡ is_point_and_digits text.now }
{
    match text {
        [b'.', digits @ ..] => !digits.is_empty() && are_all_digits(digits),
        _ => false,
    }
}

/// What is left after the digits at the start.
fn after_digits(text: &[u8]) -> &[u8]
    ensures remaining { result.now ≡ drop_while is_ascii_digit text.now }
{
    let mut rest = text;
    while let [first, others @ ..] = rest {
        if !first.is_ascii_digit() {
            return rest;
        }
        rest = others;
    }
    rest
}

/// The value of decimal digits. `None` where it is 2^128 or more.
fn numeral_value(digits: &[u8]) -> Option<u128>
    requires digits { list_all is_ascii_digit digits.now ≡ true }
    ensures value { IfSome result (λ value. value ≡ numeral_value digits.now) }
    ensures too_great { IfNone result (numeral_bound ≤ numeral_value digits.now) }
{
    let mut value: u128 = 0;
    for digit in digits {
        value = value
            .checked_mul(10)?
            .checked_add(u128::from(*digit - b'0'))?;
    }
    Some(value)
}
