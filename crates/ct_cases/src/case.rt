//! The parts of a case: a line is one list, `(NAME KIND PART ..)`.
use crate::error::CaseError;
use ct_sexpr::{Next, Reader, Sexpr};
use std::alloc::Global;

/// The case on the line.
pub fn read_case(alloc: Global, line: &str) -> Result<Sexpr, CaseError> {
    let mut reader = Reader::new(alloc)?;
    reader.feed(line.as_bytes())?;
    match reader.next()? {
        Next::Command { expr, .. } => Ok(expr),
        Next::Need | Next::End => Err(CaseError::Bad),
    }
}

/// The items of a list.
pub fn items_of(part: &Sexpr) -> Result<&[Sexpr], CaseError> {
    part.as_list().ok_or(CaseError::Bad)
}

/// The text of a simple symbol.
pub fn word_of(part: &Sexpr) -> Result<&str, CaseError> {
    match part.as_symbol() {
        Some(bytes) => str::from_utf8(bytes).map_err(|_| CaseError::Bad),
        None => Err(CaseError::Bad),
    }
}

/// The word that a list begins with, and the items after it.
pub fn split_word(part: &Sexpr) -> Result<(&str, &[Sexpr]), CaseError> {
    split_named(items_of(part)?)
}

/// The word that the parts begin with, and the parts after it.
pub fn split_named(parts: &[Sexpr]) -> Result<(&str, &[Sexpr]), CaseError> {
    match parts {
        [] => Err(CaseError::Bad),
        [first, rest @ ..] => Ok((word_of(first)?, rest)),
    }
}

/// The value of a numeral below 2^64.
pub fn number_of(part: &Sexpr) -> Result<u64, CaseError> {
    match part {
        Sexpr::Numeral(value) => u64::try_from(*value).map_err(|_| CaseError::Bad),
        _ => Err(CaseError::Bad),
    }
}

/// The value of a numeral below 2^32.
pub fn size_of(part: &Sexpr) -> Result<u32, CaseError> {
    match part {
        Sexpr::Numeral(value) => u32::try_from(*value).map_err(|_| CaseError::Bad),
        _ => Err(CaseError::Bad),
    }
}

/// Whether the part is this word.
pub fn is_word(part: &Sexpr, word: &str) -> bool {
    match part.as_symbol() {
        Some(found) => found == word.as_bytes(),
        None => false,
    }
}
