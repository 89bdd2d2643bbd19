//! Small values that give back what they were made from: texts, bytes, names; and which names are
//! plain.
use crate::steps::show_bool;
use ct_cases::{CaseError, bytes_of, show_bytes, string_of};
use ct_io::Text;
use ct_sexpr::{Bytes, Sexpr, is_reserved, is_simple};
use ct_sorts::Name;
use std::alloc::Global;

/// Answers a case of small values.
pub fn answer(
    alloc: Global,
    kind: &str,
    parts: &[Sexpr],
    out: &mut String,
) -> Result<bool, CaseError> {
    match parts {
        [part] if kind == "text" => show_text(alloc, part, out)?,
        [part] if kind == "bytes" => show_stored(alloc, part, out)?,
        [part] if kind == "name" => show_name(alloc, part, out)?,
        names if kind == "reserved" => show_reserved(alloc, names, out)?,
        names if kind == "plain" => show_plain(alloc, names, out)?,
        _ => return Ok(false),
    }
    Ok(true)
}

/// Shows a text, and the string that it gives back.
fn show_text(alloc: Global, part: &Sexpr, out: &mut String) -> Result<(), CaseError> {
    let text = Text::new(string_of(alloc, part)?);
    show(alloc, text.as_str().as_bytes(), out)?;
    show(alloc, text.into_string().as_bytes(), out)
}

/// Shows bytes, and the vector that they give back.
fn show_stored(alloc: Global, part: &Sexpr, out: &mut String) -> Result<(), CaseError> {
    let bytes = Bytes::new(bytes_of(alloc, part)?);
    show(alloc, bytes.as_slice(), out)?;
    show(alloc, &bytes.into_vec(), out)
}

/// Shows a name that was copied, and the vectors that it and the name made of it give back.
fn show_name(alloc: Global, part: &Sexpr, out: &mut String) -> Result<(), CaseError> {
    let name = Name::from_slice(alloc, &bytes_of(alloc, part)?)?;
    show(alloc, name.as_slice(), out)?;
    let name = Name::new(name.into_vec());
    show(alloc, &name.into_vec(), out)
}

/// Shows which names are reserved words.
fn show_reserved(alloc: Global, names: &[Sexpr], out: &mut String) -> Result<(), CaseError> {
    for name in names {
        show_bool(is_reserved(&bytes_of(alloc, name)?), out)?;
    }
    Ok(())
}

/// Shows which names are written as simple symbols.
fn show_plain(alloc: Global, names: &[Sexpr], out: &mut String) -> Result<(), CaseError> {
    for name in names {
        show_bool(is_simple(&bytes_of(alloc, name)?), out)?;
    }
    Ok(())
}

/// Shows bytes between vertical bars.
fn show(alloc: Global, bytes: &[u8], out: &mut String) -> Result<(), CaseError> {
    out.push_str(" |")?;
    show_bytes(alloc, bytes, out)?;
    out.push('|')?;
    Ok(())
}
