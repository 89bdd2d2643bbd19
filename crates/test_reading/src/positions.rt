//! Where commands and their parts stand. `(positions TEXT (INDEX ..) ..)` shows of each command of a text, fed whole and one byte a
//! piece, the line and the column of its opening parenthesis, its bytes, and the line, the column and the bytes of its part at each
//! path, or `-` where there is none; and then the next answer, with the line and the column after the last byte.
ghost use Rattle.std.specs.Prelude.{◌≡◌};

use crate::steps::show_both;
use ct_cases::{CaseError, bytes_of, items_of, show_bytes, size_of};
use ct_input::{Position, SourceReader, last_piece, part, parts_stand};
use ct_sexpr::{Next, ReadError, Sexpr};
use std::alloc::Global;

/// Answers a case of positions.
pub fn answer(
    alloc: Global,
    kind: &str,
    parts: &[Sexpr],
    out: &mut String,
) -> Result<bool, CaseError> {
    last_piece();
    parts_stand();
    match parts {
        [text, paths @ ..] if kind == "positions" => {
            place_both(alloc, &bytes_of(alloc, text)?, paths, out)?;
        }
        _ => return Ok(false),
    }
    Ok(true)
}

/// Shows what stands where in a text that is fed whole and in pieces of one byte.
fn place_both(
    alloc: Global,
    text: &[u8],
    paths: &[Sexpr],
    out: &mut String,
) -> Result<(), CaseError> {
    let mut whole = String::new(alloc);
    place_whole(alloc, text, paths, &mut whole)?;
    let mut bytewise = String::new(alloc);
    place_bytewise(alloc, text, paths, &mut bytewise)?;
    show_both(&whole, &bytewise, out)
}

/// Places the commands of a text that is fed whole. It has no more commands than bytes.
fn place_whole(
    alloc: Global,
    text: &[u8],
    paths: &[Sexpr],
    out: &mut String,
) -> Result<(), CaseError> {
    let mut source = SourceReader::new(alloc)?;
    source.feed(text)?;
    for _ in text {
        show_next(alloc, &mut source, paths, out)?;
    }
    show_end(alloc, &mut source, out)
}

/// Places the commands of a text that is fed in pieces of one byte. None of them completes two commands.
fn place_bytewise(
    alloc: Global,
    text: &[u8],
    paths: &[Sexpr],
    out: &mut String,
) -> Result<(), CaseError> {
    let mut source = SourceReader::new(alloc)?;
    for byte in text {
        source.feed(&[*byte])?;
        show_next(alloc, &mut source, paths, out)?;
    }
    show_end(alloc, &mut source, out)
}

/// Shows the next command, if there is one, and its parts.
fn show_next(
    alloc: Global,
    source: &mut SourceReader,
    paths: &[Sexpr],
    out: &mut String,
) -> Result<(), CaseError>
    ensures ended { source.new.unread.ended ≡ source.old.unread.ended }
    ensures fed { source.new.unread.fed ≡ source.old.unread.fed }
{
    match source.next() {
        Ok(Next::Command { .. }) => show_command(alloc, source, paths, out),
        _ => Ok(()),
    }
}

/// Shows the last command and its parts.
fn show_command(
    alloc: Global,
    source: &SourceReader,
    paths: &[Sexpr],
    out: &mut String,
) -> Result<(), CaseError> {
    show_position(alloc, source.position(0), out)?;
    show(alloc, source.last_command(), out)?;
    for path in paths {
        show_part(alloc, source, &path_of(alloc, path)?, out)?;
    }
    Ok(())
}

/// Shows the part of the last command at a path.
fn show_part(
    alloc: Global,
    source: &SourceReader,
    path: &[usize],
    out: &mut String,
) -> Result<(), CaseError> {
    let bytes = source.held_bytes();
    let Some(span) = part(bytes, path) else {
        return Ok(out.push_str(" -")?);
    };
    show_position(alloc, source.position(span.start), out)?;
    show(alloc, &bytes[span.start..span.end], out)
}

/// Ends the input, and shows the next answer and where the last byte ends.
fn show_end(alloc: Global, source: &mut SourceReader, out: &mut String) -> Result<(), CaseError> {
    source.end();
    match source.next() {
        Ok(Next::Command { .. }) => out.push_str(" command")?,
        Ok(Next::Need) => out.push_str(" ?")?,
        Ok(Next::End) => out.push_str(" .")?,
        Err(ReadError::Lexical { code, line }) => {
            out.push_str(format!(in alloc; " !{code}@{line}")?.as_str())?;
        }
        Err(ReadError::NoMemory) => out.push_str(" -")?,
    }
    show_position(alloc, source.position(source.held_bytes().len()), out)
}

/// The path of `(INDEX ..)`.
fn path_of(alloc: Global, part: &Sexpr) -> Result<Vec<usize>, CaseError> {
    let mut path = Vec::new(alloc);
    for index in items_of(part)? {
        path.push(size_of(index)? as usize)?;
    }
    Ok(path)
}

/// Shows a line and a column.
fn show_position(alloc: Global, position: Position, out: &mut String) -> Result<(), CaseError> {
    let Position { line, column } = position;
    out.push_str(format!(in alloc; " {line}:{column}")?.as_str())?;
    Ok(())
}

/// Shows bytes between vertical bars.
fn show(alloc: Global, bytes: &[u8], out: &mut String) -> Result<(), CaseError> {
    out.push('|')?;
    show_bytes(alloc, bytes, out)?;
    out.push('|')?;
    Ok(())
}
