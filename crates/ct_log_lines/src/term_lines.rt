//! Term lines as they stand in a text: a kind of term, a name, and the numbers of terms.
ghost use Rattle.std.specs.Prelude.{◌≡◌, Some, option_map, option_and_then, IfOk};
ghost use Rattle.ct_sexpr.specs.View.{expression_of, expressions_of};
ghost use Rattle.ct_sexpr.specs.Written.{written};
ghost use Rattle.ct_log_lines.specs.TermLines.{kind_word, kind_in, has_name, may_have, line_named, line_after_name, line_after_qualified, has_ctor, line_of_kind, line_after_kind, term_line, is_con, is_alone};

use crate::form::{first_of, is_word, name_in, numbers_in, parts_numbered, qualified_in};
use ct_sexpr::{Bytes, Sexpr, sexpr_text};
use ct_sorts::{Items, Name};
use std::alloc::{AllocError, Global};

/// The most terms that a table holds.
const MOST_TERMS: u64 = 400_000;

/// The kinds of terms, as `Core` has them.
#[derive(Clone, Copy, Debug, PartialEq, Eq)]
pub enum TermKind {
    /// A constructor with its arguments.
    Con,
    /// A function with its arguments.
    Apply,
    /// A field of a term, by its selector.
    Sel,
    /// Whether a term is built by a constructor.
    Test,
    /// An equality of two terms that are not Boolean.
    Eq,
    /// A negation.
    Not,
    /// A conjunction.
    And,
    /// A disjunction.
    Or,
    /// An equivalence.
    Iff,
    /// A choice.
    Ite,
}

/// A term line without its number.
#[derive(Debug, Drop)]
pub struct TermLine {
    /// What kind of term it is of.
    pub kind: TermKind,
    /// The name of a constructor, a function or a selector; empty where the kind has none.
    pub name: Name,
    /// The text of S, where the constructor C stands as `(as C S)`.
    pub sort: Option<Bytes>,
    /// The numbers of terms.
    pub numbers: Items<u64>,
}

/// The kinds of terms.
const KINDS: [TermKind; 10] = [
    TermKind::Con,
    TermKind::Apply,
    TermKind::Sel,
    TermKind::Test,
    TermKind::Eq,
    TermKind::Not,
    TermKind::And,
    TermKind::Or,
    TermKind::Iff,
    TermKind::Ite,
];

/// The word of a kind.
pub fn kind_word(kind: TermKind) -> &'static [u8]
    ensures value { result.now ≡ kind_word kind }
{
    match kind {
        TermKind::Con => b"con",
        TermKind::Apply => b"app",
        TermKind::Sel => b"sel",
        TermKind::Test => b"is",
        TermKind::Eq => b"=",
        TermKind::Not => b"not",
        TermKind::And => b"and",
        TermKind::Or => b"or",
        TermKind::Iff => b"iff",
        TermKind::Ite => b"ite",
    }
}

/// The kind with this word.
fn kind_in(expr: &Sexpr) -> Option<TermKind>
    ensures value { result ≡ kind_in (expression_of expr.now) }
{
    let kinds: &[TermKind] = &KINDS;
    let mut rest = kinds;
    while let [kind, others @ ..] = rest {
        if is_word(kind_word(*kind), expr) {
            return Some(*kind);
        }
        rest = others;
    }
    None
}

/// Whether a name belongs to the kind.
pub fn has_name(kind: TermKind) -> bool
    ensures value { result ≡ has_name kind }
{
    match kind {
        TermKind::Con | TermKind::Apply | TermKind::Sel | TermKind::Test => true,
        TermKind::Eq
        | TermKind::Not
        | TermKind::And
        | TermKind::Or
        | TermKind::Iff
        | TermKind::Ite => false,
    }
}

/// Whether a line of the kind may have so many terms.
fn may_have(kind: TermKind, count: usize) -> bool
    ensures value { result ≡ may_have kind count }
{
    match kind {
        TermKind::Con | TermKind::Apply | TermKind::And | TermKind::Or => true,
        TermKind::Sel | TermKind::Test | TermKind::Not => count == 1,
        TermKind::Eq | TermKind::Iff => count == 2,
        TermKind::Ite => count == 3,
    }
}

/// The line of a kind with this name and what stands after it.
fn line_named(
    alloc: Global,
    kind: TermKind,
    name: &[u8],
    sort: Option<Bytes>,
    parts: &[Sexpr],
) -> Result<Option<TermLine>, AllocError>
    ensures ok { IfOk result (λ line. line ≡ line_named kind name.now sort (expressions_of parts.now)) }
{
    let Some(numbers) = numbers_in(alloc, parts)? else {
        return Ok(None);
    };
    if !may_have(kind, numbers.len()) {
        return Ok(None);
    }
    let name = Name::from_slice(alloc, name)?;
    Ok(Some(TermLine {
        kind,
        name,
        sort,
        numbers,
    }))
}

/// The line of a kind whose name stands first.
fn line_after_name(
    alloc: Global,
    kind: TermKind,
    name: &Sexpr,
    parts: &[Sexpr],
) -> Result<Option<TermLine>, AllocError>
    ensures ok { IfOk result (λ line. line ≡ line_after_name kind (expression_of name.now, expressions_of parts.now)) }
{
    match name_in(name) {
        None => line_after_qualified(alloc, kind, name, parts),
        Some(bytes) => line_named(alloc, kind, bytes, None, parts),
    }
}

/// The line of a kind whose constructor stands first, as `(as C S)`.
fn line_after_qualified(
    alloc: Global,
    kind: TermKind,
    name: &Sexpr,
    parts: &[Sexpr],
) -> Result<Option<TermLine>, AllocError>
    ensures ok { IfOk result (λ line. line ≡ line_after_qualified kind (expression_of name.now, expressions_of parts.now)) }
{
    if !has_ctor(kind) {
        return Ok(None);
    }
    match qualified_in(name) {
        None => Ok(None),
        Some((ctor, sort)) => {
            let text = sort_text(alloc, sort)?;
            line_named(alloc, kind, ctor, Some(text), parts)
        }
    }
}

/// The text of a sort.
fn sort_text(alloc: Global, sort: &Sexpr) -> Result<Bytes, AllocError>
    ensures ok { IfOk result (λ text. text ≡ written (expression_of sort.now)) }
{
    match sexpr_text(alloc, sort) {
        Ok(text) => Ok(text),
        Err(_) => Err(AllocError),
    }
}

/// Whether a constructor belongs to the kind.
fn has_ctor(kind: TermKind) -> bool
    ensures value { result ≡ has_ctor kind }
{
    match kind {
        TermKind::Con | TermKind::Test => true,
        TermKind::Apply
        | TermKind::Sel
        | TermKind::Eq
        | TermKind::Not
        | TermKind::And
        | TermKind::Or
        | TermKind::Iff
        | TermKind::Ite => false,
    }
}

/// The line of a kind, by what stands after its word.
fn line_of_kind(
    alloc: Global,
    kind: TermKind,
    parts: &[Sexpr],
) -> Result<Option<TermLine>, AllocError>
    ensures ok { IfOk result (λ line. line ≡ line_of_kind kind (expressions_of parts.now)) }
{
    if !has_name(kind) {
        return line_named(alloc, kind, b"", None, parts);
    }
    match first_of(parts) {
        None => Ok(None),
        Some((name, others)) => line_after_name(alloc, kind, name, others),
    }
}

/// The line whose kind stands first.
fn line_after_kind(
    alloc: Global,
    kind: &Sexpr,
    parts: &[Sexpr],
) -> Result<Option<TermLine>, AllocError>
    ensures ok { IfOk result (λ line. line ≡ line_after_kind (expression_of kind.now, expressions_of parts.now)) }
{
    match kind_in(kind) {
        None => Ok(None),
        Some(kind) => line_of_kind(alloc, kind, parts),
    }
}

/// The term line with this number that the expression is; nothing if it is none, or no table has a term with the
/// number. Its only error is out of memory.
pub fn term_line(alloc: Global, n: u64, expr: &Sexpr) -> Result<Option<TermLine>, AllocError>
    ensures ok { IfOk result (λ line. line ≡ term_line n (expression_of expr.now)) }
{
    if n >= MOST_TERMS {
        return Ok(None);
    }
    let Some(items) = parts_numbered(b"t", n, expr) else {
        return Ok(None);
    };
    match first_of(items) {
        None => Ok(None),
        Some((kind, parts)) => line_after_kind(alloc, kind, parts),
    }
}

/// Whether the kind is that of constructor terms.
fn is_con(kind: TermKind) -> bool
    ensures value { result ≡ is_con kind }
{
    match kind {
        TermKind::Con => true,
        TermKind::Apply
        | TermKind::Sel
        | TermKind::Test
        | TermKind::Eq
        | TermKind::Not
        | TermKind::And
        | TermKind::Or
        | TermKind::Iff
        | TermKind::Ite => false,
    }
}

/// Whether the line is that of a constructor with this name alone.
fn is_alone(name: &[u8], line: &TermLine) -> bool
    ensures value { result ≡ is_alone name.now (Some line.now) }
{
    is_con(line.kind)
        && line.name.as_slice() == name
        && line.sort.is_none()
        && line.numbers.len() == 0
}

/// Whether the expression is the term line with this number of a constructor with this name alone. Its only error is out of
/// memory.
pub fn is_constant_line(
    alloc: Global,
    n: u64,
    name: &[u8],
    expr: &Sexpr,
) -> Result<bool, AllocError>
    ensures ok { IfOk result (λ is. is ≡ is_alone name.now (term_line n (expression_of expr.now))) }
{
    match term_line(alloc, n, expr)? {
        None => Ok(false),
        Some(line) => Ok(is_alone(name, &line)),
    }
}
