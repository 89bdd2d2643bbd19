//! Writes words, numbers and rows.
ghost use Rattle.std.specs.Prelude.{◌≡◌, List, [], ◌∷◌, ◌++◌, decimal, OnOk, IfErr};
ghost use Rattle.ct_sexpr.specs.Expression.{more, none, list, word};
ghost use Rattle.ct_sexpr.specs.Written.{written, written_after};
ghost use Rattle.ct_log_text.specs.Written.{number, numbers, name, term_numbers, row};

use ct_sexpr::is_simple;
use ct_terms::TermId;
use std::alloc::{AllocError, Global};

/// Writes a number.
pub(crate) fn put_number(alloc: Global, n: u64, out: &mut Vec<u8>) -> Result<(), AllocError>
    ensures ok { OnOk result (out.new.items ≡ out.old.items ++ written (number n)) }
{
    Ok(out.extend_from_slice(format!(in alloc; "{n}")?.as_bytes())?)
}

/// Writes a space and a number.
pub(crate) fn put_number_after(alloc: Global, n: u64, out: &mut Vec<u8>) -> Result<(), AllocError>
    ensures ok { OnOk result (out.new.items ≡ out.old.items ++ written_after (numbers (n ∷ []))) }
{
    out.push(b' ')?;
    put_number(alloc, n, out)
}

/// Writes numbers, each after a space.
pub(crate) fn put_numbers(alloc: Global, ns: &[u64], out: &mut Vec<u8>) -> Result<(), AllocError>
    ensures ok { OnOk result (out.new.items ≡ out.old.items ++ written_after (numbers ns.now)) }
{
    let mut rest = ns;
    while let [n, others @ ..] = rest {
        put_number_after(alloc, *n, out)?;
        rest = others;
    }
    Ok(())
}

/// Writes the numbers of terms, each after a space.
pub(crate) fn put_terms(
    alloc: Global,
    terms: &[TermId],
    out: &mut Vec<u8>,
) -> Result<(), AllocError>
    ensures ok { OnOk result (out.new.items ≡ out.old.items ++ written_after (numbers (term_numbers terms.now))) }
{
    let mut rest = terms;
    while let [t, others @ ..] = rest {
        put_number_after(alloc, t.0 as u64, out)?;
        rest = others;
    }
    Ok(())
}

/// Writes an opening parenthesis and a word.
pub(crate) fn open_row(text: &[u8], out: &mut Vec<u8>) -> Result<(), AllocError>
    ensures ok { OnOk result (out.new.items ≡ out.old.items ++ 40 ∷ text.now) }
{
    out.push(b'(')?;
    Ok(out.extend_from_slice(text)?)
}

/// Writes a space and a word.
pub(crate) fn put_word_after(text: &[u8], out: &mut Vec<u8>) -> Result<(), AllocError>
    ensures ok { OnOk result (out.new.items ≡ out.old.items ++ written_after (more (word text.now) none)) }
{
    out.push(b' ')?;
    Ok(out.extend_from_slice(text)?)
}

/// Writes a space and a name, quoted where it needs to be.
pub(crate) fn put_name_after(bytes: &[u8], out: &mut Vec<u8>) -> Result<(), AllocError>
    ensures ok { OnOk result (out.new.items ≡ out.old.items ++ written_after (more (name bytes.now) none)) }
{
    out.push(b' ')?;
    if is_simple(bytes) {
        return Ok(out.extend_from_slice(bytes)?);
    }
    out.push(b'|')?;
    out.extend_from_slice(bytes)?;
    Ok(out.push(b'|')?)
}

/// Writes a row of a word and numbers.
pub(crate) fn put_row(
    alloc: Global,
    text: &[u8],
    ns: &[u64],
    out: &mut Vec<u8>,
) -> Result<(), AllocError>
    ensures ok { OnOk result (out.new.items ≡ out.old.items ++ written (row text.now (numbers ns.now))) }
{
    open_row(text, out)?;
    put_numbers(alloc, ns, out)?;
    Ok(out.push(b')')?)
}
