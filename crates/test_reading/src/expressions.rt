//! Expressions that are read, one byte a piece and whole, and written. `(read TEXT)` shows the
//! commands of a text that ends, each with its line, and the next two answers; `(read-on TEXT)`
//! those of a text that may go on, and the next answer; `(read-again TEXT TEXT)` what comes
//! before and after a piece that follows an error; `(kept TEXT)` how many bytes belong to no
//! command given so far, at first, after each command and once more is needed; `(write TEXT)` what
//! is written of the first command; `(symbol-and-items TEXT)` which items of the first command are
//! simple symbols, and how many items those have that are lists.
ghost use Rattle.std.specs.Prelude.{◌≡◌};

use crate::steps::{show_both, show_count};
use ct_cases::{CaseError, bytes_of, show_bytes};
use ct_sexpr::{
    Bytes, Next, ReadError, Reader, Sexpr, error_positions, one_reading, one_text, sexpr_text,
    written_texts,
};
use std::alloc::Global;

/// Answers a case of expressions.
pub fn answer(
    alloc: Global,
    kind: &str,
    parts: &[Sexpr],
    out: &mut String,
) -> Result<bool, CaseError> {
    match parts {
        [text] if kind == "read" => read_both(alloc, &bytes_of(alloc, text)?, out)?,
        [text] if kind == "read-on" => read_on(alloc, &bytes_of(alloc, text)?, out)?,
        [text, more] if kind == "read-again" => {
            read_again(alloc, &bytes_of(alloc, text)?, &bytes_of(alloc, more)?, out)?;
        }
        [text] if kind == "kept" => show_kept(alloc, &bytes_of(alloc, text)?, out)?,
        [text] if kind == "write" => write_both(alloc, &bytes_of(alloc, text)?, out)?,
        [text] if kind == "symbol-and-items" => show_first(alloc, &bytes_of(alloc, text)?, out)?,
        [] if kind == "theorems" => call_theorems(out)?,
        _ => return Ok(false),
    }
    Ok(true)
}

/// Calls the functions that do nothing.
fn call_theorems(out: &mut String) -> Result<(), CaseError> {
    one_reading();
    one_text();
    error_positions();
    written_texts();
    out.push_str(" ok")?;
    Ok(())
}

/// Shows an atom with what it is, as `<keyword :k>`.
fn show_atom(alloc: Global, kind: &str, bytes: &Bytes, out: &mut String) -> Result<(), CaseError> {
    out.push('<')?;
    out.push_str(kind)?;
    out.push(' ')?;
    show_bytes(alloc, bytes.as_slice(), out)?;
    out.push('>')?;
    Ok(())
}

/// Shows an expression.
fn show(alloc: Global, expr: &Sexpr, out: &mut String) -> Result<(), CaseError> {
    match expr {
        Sexpr::Symbol(name) => show_bytes(alloc, name.as_slice(), out)?,
        Sexpr::Quoted(name) => show_atom(alloc, "quoted", name, out)?,
        Sexpr::Keyword(word) => show_atom(alloc, "keyword", word, out)?,
        Sexpr::Text(content) => show_atom(alloc, "text", content, out)?,
        Sexpr::Numeral(value) => {
            out.push_str(format!(in alloc; "<numeral {value}>")?.as_str())?;
        }
        Sexpr::Decimal(word) => show_atom(alloc, "decimal", word, out)?,
        Sexpr::Binary(word) => show_atom(alloc, "binary", word, out)?,
        Sexpr::Hex(word) => show_atom(alloc, "hex", word, out)?,
        Sexpr::List(items) => {
            out.push('(')?;
            for (index, item) in items.iter().enumerate() {
                if index > 0 {
                    out.push(' ')?;
                }
                show(alloc, item, out)?;
            }
            out.push(')')?;
        }
    }
    Ok(())
}

/// Shows a command and its line, as `3(a (b))`.
fn show_command(alloc: Global, expr: &Sexpr, line: u64, out: &mut String) -> Result<(), CaseError> {
    out.push_str(format!(in alloc; "{line}")?.as_str())?;
    show(alloc, expr, out)
}

/// Shows the next command, if there is one.
fn show_next(alloc: Global, reader: &mut Reader, out: &mut String) -> Result<(), CaseError>
    ensures ended { reader.new.ended ≡ reader.old.ended }
    ensures fed { reader.new.fed ≡ reader.old.fed }
{
    match reader.next() {
        Ok(Next::Command { expr, line }) => show_command(alloc, &expr, line, out),
        _ => Ok(()),
    }
}

/// Ends the input, and shows the next two answers.
fn show_end(alloc: Global, reader: &mut Reader, out: &mut String) -> Result<(), CaseError> {
    reader.end();
    show_answer(alloc, reader, out)?;
    show_answer(alloc, reader, out)
}

/// Shows the next answer.
fn show_answer(alloc: Global, reader: &mut Reader, out: &mut String) -> Result<(), CaseError>
    ensures ended { reader.new.ended ≡ reader.old.ended }
    ensures fed { reader.new.fed ≡ reader.old.fed }
{
    match reader.next() {
        Ok(Next::Command { expr, line }) => show_command(alloc, &expr, line, out)?,
        Ok(Next::Need) => out.push('?')?,
        Ok(Next::End) => out.push('.')?,
        Err(ReadError::Lexical { code, line }) => {
            out.push_str(format!(in alloc; "!{code}@{line}")?.as_str())?;
        }
        Err(ReadError::NoMemory) => out.push('-')?,
    }
    Ok(())
}

/// Reads a text that is fed whole. It has no more commands than bytes.
fn read_whole(alloc: Global, text: &[u8], out: &mut String) -> Result<(), CaseError> {
    let mut reader = Reader::new(alloc)?;
    reader.feed(text)?;
    for _ in text {
        show_next(alloc, &mut reader, out)?;
    }
    show_end(alloc, &mut reader, out)
}

/// Reads a text that is fed in pieces of one byte. None of them completes two commands.
fn read_bytewise(alloc: Global, text: &[u8], out: &mut String) -> Result<(), CaseError> {
    let mut reader = Reader::new(alloc)?;
    for byte in text {
        reader.feed(&[*byte])?;
        show_next(alloc, &mut reader, out)?;
    }
    show_end(alloc, &mut reader, out)
}

/// Shows what is read of a text that is fed whole and in pieces of one byte: once where it is the
/// same.
fn read_both(alloc: Global, text: &[u8], out: &mut String) -> Result<(), CaseError> {
    let mut whole = String::new(alloc);
    read_whole(alloc, text, &mut whole)?;
    let mut bytewise = String::new(alloc);
    read_bytewise(alloc, text, &mut bytewise)?;
    show_both(&whole, &bytewise, out)
}

/// Shows what is read of a text that may go on.
fn read_on(alloc: Global, text: &[u8], out: &mut String) -> Result<(), CaseError> {
    out.push(' ')?;
    let mut reader = Reader::new(alloc)?;
    reader.feed(text)?;
    for _ in text {
        show_next(alloc, &mut reader, out)?;
    }
    show_answer(alloc, &mut reader, out)
}

/// Shows how many bytes of a text are kept, before and after each command.
fn show_kept(alloc: Global, text: &[u8], out: &mut String) -> Result<(), CaseError> {
    let mut reader = Reader::new(alloc)?;
    reader.feed(text)?;
    show_count(alloc, reader.kept_bytes(), out)?;
    for _ in text {
        show_kept_after_next(alloc, &mut reader, out)?;
    }
    show_count(alloc, reader.kept_bytes(), out)
}

/// Shows how many bytes are kept after the next command, if there is one.
fn show_kept_after_next(
    alloc: Global,
    reader: &mut Reader,
    out: &mut String,
) -> Result<(), CaseError>
    ensures ended { reader.new.ended ≡ reader.old.ended }
    ensures fed { reader.new.fed ≡ reader.old.fed }
{
    if let Ok(Next::Command { .. }) = reader.next() {
        show_count(alloc, reader.kept_bytes(), out)?;
    }
    Ok(())
}

/// Shows two answers after a text, one after what follows it, and two at the end.
fn read_again(alloc: Global, text: &[u8], more: &[u8], out: &mut String) -> Result<(), CaseError> {
    out.push(' ')?;
    if text.len() > 1_000 || more.len() > 1_000 {
        return Err(CaseError::Bad);
    }
    let mut reader = Reader::new(alloc)?;
    reader.feed(text)?;
    show_answer(alloc, &mut reader, out)?;
    show_answer(alloc, &mut reader, out)?;
    reader.feed(more)?;
    show_answer(alloc, &mut reader, out)?;
    show_end(alloc, &mut reader, out)
}

/// Shows what is written of the next command, if there is one.
fn write_next(alloc: Global, reader: &mut Reader, out: &mut String) -> Result<(), CaseError>
    ensures ended { reader.new.ended ≡ reader.old.ended }
    ensures fed { reader.new.fed ≡ reader.old.fed }
{
    if let Ok(Next::Command { expr, .. }) = reader.next() {
        show_bytes(alloc, sexpr_text(alloc, &expr)?.as_slice(), out)?;
    }
    Ok(())
}

/// Writes the first command of a text.
fn write_first(alloc: Global, text: &[u8], out: &mut String) -> Result<(), CaseError> {
    let mut reader = Reader::new(alloc)?;
    reader.feed(text)?;
    write_next(alloc, &mut reader, out)
}

/// Writes the commands of a text that is fed in pieces of one byte.
fn write_bytewise(alloc: Global, text: &[u8], out: &mut String) -> Result<(), CaseError> {
    let mut reader = Reader::new(alloc)?;
    for byte in text {
        reader.feed(&[*byte])?;
        write_next(alloc, &mut reader, out)?;
    }
    Ok(())
}

/// Shows what is written of the command of a text that is fed whole and in pieces of one byte:
/// once where it is the same.
fn write_both(alloc: Global, text: &[u8], out: &mut String) -> Result<(), CaseError> {
    let mut whole = String::new(alloc);
    write_first(alloc, text, &mut whole)?;
    let mut bytewise = String::new(alloc);
    write_bytewise(alloc, text, &mut bytewise)?;
    show_both(&whole, &bytewise, out)
}

/// Shows of each item of the first command whether it is a simple symbol, and how many items it
/// has.
fn show_first(alloc: Global, text: &[u8], out: &mut String) -> Result<(), CaseError> {
    let mut reader = Reader::new(alloc)?;
    reader.feed(text)?;
    if let Next::Command { expr, .. } = reader.next()? {
        for item in expr.as_list().ok_or(CaseError::Bad)? {
            show_parts(alloc, item, out)?;
        }
    }
    Ok(())
}

/// Shows the bytes of a simple symbol, the number of items of a list, and `-` for anything else.
fn show_parts(alloc: Global, item: &Sexpr, out: &mut String) -> Result<(), CaseError> {
    match (item.as_symbol(), item.as_list()) {
        (Some(name), None) => {
            out.push(' ')?;
            show_bytes(alloc, name, out)
        }
        (None, Some(items)) => show_count(alloc, items.len() as u64, out),
        (None, None) => Ok(out.push_str(" -")?),
        (Some(_), Some(_)) => Err(CaseError::Bad),
    }
}
