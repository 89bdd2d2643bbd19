//! Bytes of a case. A string writes line feeds and the like as `\n`, `\r`, `\t`, a backslash as
//! `\\`, and any byte by its two hexadecimal digits as `\xc8`; answers are shown in the same way.
use crate::case::{items_of, size_of, split_named};
use crate::error::CaseError;
use ct_sexpr::Sexpr;
use std::alloc::Global;

/// What is awaited inside a string.
#[derive(Clone, Copy)]
enum Awaited {
    Byte,
    Letter,
    FirstDigit,
    LastDigit(u8),
}

/// The bytes that a part stands for: those of a name or a string, `(times 1000 PART)` repeated,
/// and those of `(join PART ..)` one after another.
pub fn bytes_of(alloc: Global, part: &Sexpr) -> Result<Vec<u8>, CaseError> {
    let mut bytes = Vec::new(alloc);
    match part {
        Sexpr::List(items) => push_joined(alloc, items, &mut bytes)?,
        _ => push_word(part, &mut bytes)?,
    }
    Ok(bytes)
}

/// The text that a part stands for.
pub fn string_of(alloc: Global, part: &Sexpr) -> Result<String, CaseError> {
    String::from_utf8(bytes_of(alloc, part)?).map_err(|_| CaseError::Bad)
}

/// Appends what a `join` or a `times` stands for.
fn push_joined(alloc: Global, items: &[Sexpr], out: &mut Vec<u8>) -> Result<(), CaseError> {
    let (word, parts) = split_named(items)?;
    if word == "times" {
        return push_times(alloc, parts, out);
    }
    if word != "join" {
        return Err(CaseError::Bad);
    }
    for part in parts {
        push_piece(alloc, part, out)?;
    }
    Ok(())
}

/// Appends a piece: a name, a string or a `times`.
fn push_piece(alloc: Global, part: &Sexpr, out: &mut Vec<u8>) -> Result<(), CaseError> {
    if part.as_list().is_none() {
        return push_word(part, out);
    }
    let (word, parts) = split_named(items_of(part)?)?;
    if word != "times" {
        return Err(CaseError::Bad);
    }
    push_times(alloc, parts, out)
}

/// Appends a name or a string so many times.
fn push_times(alloc: Global, parts: &[Sexpr], out: &mut Vec<u8>) -> Result<(), CaseError> {
    match parts {
        [count, word] => {
            let mut piece = Vec::new(alloc);
            push_word(word, &mut piece)?;
            for _ in 0..size_of(count)? {
                out.extend_from_slice(&piece)?;
            }
            Ok(())
        }
        _ => Err(CaseError::Bad),
    }
}

/// Appends the bytes of a name or a string.
fn push_word(part: &Sexpr, out: &mut Vec<u8>) -> Result<(), CaseError> {
    match part {
        Sexpr::Symbol(bytes) | Sexpr::Quoted(bytes) | Sexpr::Keyword(bytes) => {
            Ok(out.extend_from_slice(bytes.as_slice())?)
        }
        Sexpr::Text(content) => push_unescaped(content.as_slice(), out),
        _ => Err(CaseError::Bad),
    }
}

/// Appends what a string stands for.
fn push_unescaped(content: &[u8], out: &mut Vec<u8>) -> Result<(), CaseError> {
    let mut awaited = Awaited::Byte;
    for byte in content {
        awaited = unescape(awaited, *byte, out)?;
    }
    match awaited {
        Awaited::Byte => Ok(()),
        _ => Err(CaseError::Bad),
    }
}

/// Takes the next byte of a string.
fn unescape(awaited: Awaited, byte: u8, out: &mut Vec<u8>) -> Result<Awaited, CaseError> {
    match awaited {
        Awaited::Byte if byte == b'\\' => return Ok(Awaited::Letter),
        Awaited::Byte => out.push(byte)?,
        Awaited::Letter if byte == b'x' => return Ok(Awaited::FirstDigit),
        Awaited::Letter => out.push(letter(byte)?)?,
        Awaited::FirstDigit => return Ok(Awaited::LastDigit(digit(byte)?)),
        Awaited::LastDigit(first) => out.push(first.wrapping_mul(16).wrapping_add(digit(byte)?))?,
    }
    Ok(Awaited::Byte)
}

/// The byte that this letter stands for after a backslash.
fn letter(byte: u8) -> Result<u8, CaseError> {
    match byte {
        b'n' => Ok(b'\n'),
        b'r' => Ok(b'\r'),
        b't' => Ok(b'\t'),
        b'\\' => Ok(b'\\'),
        _ => Err(CaseError::Bad),
    }
}

/// The value of a hexadecimal digit.
fn digit(byte: u8) -> Result<u8, CaseError> {
    match byte {
        b'0'..=b'9' => Ok(byte - b'0'),
        b'a'..=b'f' => Ok(byte - b'a' + 10),
        _ => Err(CaseError::Bad),
    }
}

/// Appends the bytes as a string of a case writes them, but for quotation marks, which stand
/// once.
pub fn show_bytes(alloc: Global, bytes: &[u8], out: &mut String) -> Result<(), CaseError> {
    for byte in bytes {
        show_byte(alloc, *byte, out)?;
    }
    Ok(())
}

/// Appends a byte.
fn show_byte(alloc: Global, byte: u8, out: &mut String) -> Result<(), CaseError> {
    match byte {
        b'\n' => out.push_str("\\n")?,
        b'\r' => out.push_str("\\r")?,
        b'\t' => out.push_str("\\t")?,
        b'\\' => out.push_str("\\\\")?,
        b' '..=b'~' => out.push(char::from(byte))?,
        _ => out.push_str(format!(in alloc; "\\x{byte:02x}")?.as_str())?,
    }
    Ok(())
}
