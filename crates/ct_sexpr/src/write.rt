//! Expressions as they are written.
ghost use Rattle.std.specs.Prelude.{◌≡◌, ℕ, List, [], ◌∷◌, ◌++◌, IfOk, IfErr, OnOk};
ghost use Rattle.ct_sexpr.specs.Expression.{list};
ghost use Rattle.ct_sexpr.specs.Reading.{BeginsCommand};
ghost use Rattle.ct_sexpr.specs.View.{expression_of, expressions_of};
ghost use Rattle.ct_sexpr.specs.Written.{written, written_name, written_text, written_items, doubled, canonical};

use crate::bytes::Bytes;
use crate::error::ReadError;
use crate::reserved::is_simple;
use crate::sexpr::Sexpr;
use std::alloc::Global;

/// The expression as text (SMT-LIB 2.7, sections 3.1 and 3.2): single spaces between the items of a list, names quoted
/// if necessary, numerals in decimal without leading zeros, and strings with each quotation mark twice. What is written
/// of a command that was read is read as the same expression, with a quoted name that need not be quoted as a simple
/// one; `written_texts` says more of what is written. The only error is `NoMemory`.
pub fn sexpr_text(alloc: Global, expr: &Sexpr) -> Result<Bytes, ReadError>
    ensures text { IfOk result (λ text. text ≡ written (expression_of expr.now)) }
    ensures err { IfErr result (λ e. e ≡ ReadError.NoMemory) }
    ensures reads_back { (bytes rest : List ℕ) → BeginsCommand bytes (expression_of expr.now) rest
        → IfOk result (λ text. BeginsCommand text (canonical (expression_of expr.now)) []) }
{
    let mut out = Vec::new(alloc);
    write(alloc, expr, &mut out)?;
    Ok(Bytes::new(out))
}

/// Writes the expression after what is there.
#[cycle(write)]
#[tactic(auto, using(crate::proofs::Rows::expression_of_list))]
fn write(alloc: Global, expr: &Sexpr, out: &mut Vec<u8>) -> Result<(), ReadError>
    ensures ok { OnOk result (out.new.items ≡ out.old.items ++ written (expression_of expr.now)) }
    ensures err { IfErr result (λ e. e ≡ ReadError.NoMemory) }
{
    match expr {
        Sexpr::Symbol(bytes)
        | Sexpr::Keyword(bytes)
        | Sexpr::Decimal(bytes)
        | Sexpr::Binary(bytes)
        | Sexpr::Hex(bytes) => Ok(out.extend_from_slice(bytes.as_slice())?),
        Sexpr::Quoted(bytes) => write_name(bytes.as_slice(), out),
        Sexpr::Text(bytes) => write_text(bytes.as_slice(), out),
        Sexpr::Numeral(value) => Ok(out.extend_from_slice(format!(in alloc;
            "{value}"
        )?.as_bytes())?),
        Sexpr::List(items) => write_list(alloc, items, out),
    }
}

/// Writes the name, quoted where it needs to be.
fn write_name(name: &[u8], out: &mut Vec<u8>) -> Result<(), ReadError>
    ensures ok { OnOk result (out.new.items ≡ out.old.items ++ written_name name.now) }
    ensures err { IfErr result (λ e. e ≡ ReadError.NoMemory) }
{
    if is_simple(name) {
        return Ok(out.extend_from_slice(name)?);
    }
    out.push(b'|')?;
    out.extend_from_slice(name)?;
    Ok(out.push(b'|')?)
}

/// Writes the string, with each quotation mark twice.
fn write_text(content: &[u8], out: &mut Vec<u8>) -> Result<(), ReadError>
    ensures ok { OnOk result (out.new.items ≡ out.old.items ++ written_text content.now) }
    ensures err { IfErr result (λ e. e ≡ ReadError.NoMemory) }
{
    out.push(b'"')?;
    for byte in content {
        write_in_text(*byte, out)?;
    }
    Ok(out.push(b'"')?)
}

/// Writes a byte of a string, a quotation mark twice.
fn write_in_text(byte: u8, out: &mut Vec<u8>) -> Result<(), ReadError>
    ensures ok { OnOk result (out.new.items ≡ out.old.items ++ doubled (byte ∷ [])) }
    ensures err { IfErr result (λ e. e ≡ ReadError.NoMemory) }
{
    if byte == b'"' {
        out.push(b'"')?;
        return Ok(out.push(b'"')?);
    }
    Ok(out.push(byte)?)
}

/// Writes the items between parentheses, with one space between two.
#[cycle(write)]
fn write_list(alloc: Global, items: &[Sexpr], out: &mut Vec<u8>) -> Result<(), ReadError>
    ensures ok { OnOk result (out.new.items ≡ out.old.items ++ written (list (expressions_of items.now))) }
    ensures err { IfErr result (λ e. e ≡ ReadError.NoMemory) }
{
    out.push(b'(')?;
    write_items(alloc, items, out)?;
    Ok(out.push(b')')?)
}

/// Writes the items, with one space between two.
#[cycle(write)]
fn write_items(alloc: Global, items: &[Sexpr], out: &mut Vec<u8>) -> Result<(), ReadError>
    ensures ok { OnOk result (out.new.items ≡ out.old.items ++ written_items (expressions_of items.now)) }
    ensures err { IfErr result (λ e. e ≡ ReadError.NoMemory) }
{
    match items {
        [] => Ok(()),
        [first, others @ ..] => {
            write(alloc, first, out)?;
            for item in others {
                out.push(b' ')?;
                write(alloc, item, out)?;
            }
            Ok(())
        }
    }
}
