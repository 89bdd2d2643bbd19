//! Where the parts of an expression stand in the bytes that it is read from.

ghost use Rattle.std.specs.Prelude.{◌≡◌, ◌↔◌, ℕ, ◌+◌, ◌-◌, ◌<◌, ◌≤◌, ◌^◌, List, [], ◌∷◌, length, None, Some, IfSome, IsTrue, MatchOption};
ghost use Rattle.ct_sexpr.specs.TakeWhile.{drop_while};
ghost use Rattle.ct_sexpr.specs.Atom.{is_word_byte};
ghost use Rattle.ct_sexpr.specs.Token as token;
ghost use Rattle.ct_sexpr.specs.Token.{Token, opening, AreTokens, lexeme_at, is_in_quoted_symbol};
ghost use Rattle.ct_sexpr.specs.Expression.{Expression, tokens_of};
ghost use Rattle.ct_input.specs.Parts as spec;
ghost use Rattle.ct_input.specs.Parts.{part_of, StandsAt, HasSpan, BeginsClosing, Lacks};

use crate::places::after_whitespace;

/// Where a part of an expression stands among bytes.
#[derive(Clone, Copy, Debug, PartialEq, Eq)]
pub struct Span {
    /// The offset of its first byte.
    pub start: usize,
    /// The offset of the byte after its last one.
    pub end: usize,
}

/// Where the part of an expression stands in bytes that begin with the expression: its item at the first index of the path, then the
/// item of that at the next one, and so on; the expression itself where the path is empty. It takes time linear in the bytes
/// before the end of the part, and no memory.
pub fn part(bytes: &[u8], path: &[usize]) -> Option<Span>
    ensures found { (e : Expression) (from rest : List ℕ) → StandsAt e path.now bytes.now from rest → HasSpan bytes.now from rest result }
    ensures none { (e : Expression) (rest : List ℕ) → AreTokens (tokens_of e) bytes.now rest → part_of e path.now ≡ None → result ≡ None }
    ensures within { IfSome result (λ span. (span.start ≤ span.end) × (span.end ≤ length bytes.now)) }
{
    let mut rest = bytes;
    let mut left = path;
    while let [index, others @ ..] = left {
        rest = item_at(rest, *index)?;
        left = others;
    }
    let from = after_whitespace(rest);
    let end = after_expression(from)?;
    Some(Span {
        start: bytes.len() - from.len(),
        end: bytes.len() - end.len(),
    })
}

/// The bytes from the item of a list at an index on, perhaps after whitespace.
fn item_at(bytes: &[u8], index: usize) -> Option<&[u8]>
    ensures found { (e : Expression) (path from rest : List ℕ) → StandsAt e (index ∷ path) bytes.now from rest
        → MatchOption result ⊥ (λ left. (f : Expression) × StandsAt f path left.now from rest) }
    ensures lacks { IfSome result (λ left. (path : List ℕ) → Lacks (index ∷ path) bytes.now → Lacks path left.now) }
    ensures within { IfSome result (λ left. length left.now ≤ length bytes.now) }
{
    let mut rest = after_opening(bytes)?;
    let mut left = index;
    while left > 0 {
        rest = after_expression(rest)?;
        left -= 1;
    }
    Some(rest)
}

/// Whether the bytes begin with a closing parenthesis.
fn begins_closing(bytes: &[u8]) -> bool
    ensures value { IsTrue result ↔ BeginsClosing bytes.now }
{
    let [first, ..] = after_whitespace(bytes) else {
        return false;
    };
    *first == b')'
}

/// What follows an opening parenthesis.
fn after_opening(bytes: &[u8]) -> Option<&[u8]>
    ensures found { (inside : List ℕ) → AreTokens (opening ∷ []) bytes.now inside → MatchOption result ⊥ (λ left. left.now ≡ inside) }
    ensures opens { IfSome result (λ left. AreTokens (opening ∷ []) bytes.now left.now) }
    ensures within { IfSome result (λ left. length left.now ≤ length bytes.now) }
{
    let [first, inside @ ..] = after_whitespace(bytes) else {
        return None;
    };
    if *first == b'(' { Some(inside) } else { None }
}

/// What follows the expression with which the bytes begin; none where they begin with a closing parenthesis.
fn after_expression(bytes: &[u8]) -> Option<&[u8]>
    ensures found { (e : Expression) (rest : List ℕ) → AreTokens (tokens_of e) bytes.now rest → MatchOption result ⊥ (λ left. left.now ≡ rest) }
    ensures begins { IfSome result (λ left. BeginsClosing bytes.now → ⊥) }
    ensures within { IfSome result (λ left. length left.now ≤ length bytes.now) }
{
    if begins_closing(bytes) {
        return None;
    }
    let mut rest = after_whitespace(bytes);
    let mut depth = 0;
    while let [first, others @ ..] = rest {
        let next = after_token(*first, others);
        depth = depth_after(*first, depth);
        if depth == 0 {
            return Some(next);
        }
        rest = after_whitespace(next);
    }
    None
}

/// How many parentheses are open after a token that begins with the byte, where so many were before it.
fn depth_after(first: u8, depth: usize) -> usize
    requires few { depth + 1 < 2 ^ 64 }
    ensures value { result ≡ spec.depth_after first depth }
{
    match first {
        b'(' => depth + 1,
        b')' => depth.saturating_sub(1),
        _ => depth,
    }
}

/// What follows the token that begins with a byte, by the bytes after that.
fn after_token(first: u8, others: &[u8]) -> &[u8]
    ensures found { (t : Token) (rest : List ℕ) → lexeme_at (first ∷ others.now) ≡ token.token t rest → result.now ≡ rest }
    ensures within { length result.now ≤ length others.now }
{
    match first {
        b'(' | b')' => others,
        b'|' => after_quoted(others),
        b'"' => after_text(others),
        _ => after_word(others),
    }
}

/// What follows the bytes of a word.
fn after_word(bytes: &[u8]) -> &[u8]
    ensures value { result.now ≡ drop_while is_word_byte bytes.now }
    ensures within { length result.now ≤ length bytes.now }
{
    let mut rest = bytes;
    while let [byte, others @ ..] = rest {
        if !is_word_byte(*byte) {
            return rest;
        }
        rest = others;
    }
    rest
}

/// Whether the byte may stand in a word: a letter, a digit or one of the marks.
fn is_word_byte(byte: u8) -> bool
    ensures value { result ≡ is_word_byte byte }
{
    byte.is_ascii_alphanumeric() || b"~!@$%^&*_-+=<>.?/".contains(&byte)
}

/// What follows the `|` that ends a quoted symbol.
fn after_quoted(bytes: &[u8]) -> &[u8]
    ensures value { (byte : ℕ) (rest : List ℕ) → drop_while is_in_quoted_symbol bytes.now ≡ byte ∷ rest → result.now ≡ rest }
    ensures within { length result.now ≤ length bytes.now }
{
    let mut rest = bytes;
    while let [byte, others @ ..] = rest {
        rest = others;
        if *byte == b'|' || *byte == b'\\' {
            return rest;
        }
    }
    rest
}

/// What follows the quotation mark that ends a string.
fn after_text(bytes: &[u8]) -> &[u8]
    ensures value { (rest : List ℕ) → token.after_text bytes.now ≡ Some rest → result.now ≡ rest }
    ensures within { length result.now ≤ length bytes.now }
{
    let mut rest = bytes;
    let mut is_after_mark = false;
    while let [byte, others @ ..] = rest {
        if *byte == b'"' {
            is_after_mark = !is_after_mark;
        } else if is_after_mark {
            return rest;
        }
        rest = others;
    }
    rest
}
