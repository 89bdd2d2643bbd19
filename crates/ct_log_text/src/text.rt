//! The text of a derivation.
ghost use Rattle.std.specs.Prelude.{◌≡◌, [], ◌∷◌, ◌++◌, ◌<◌, ◌+◌, length, drop, OnOk, IfOk, IfErr};
ghost use Rattle.ct_sexpr.specs.Expression.{Expressions};
ghost use Rattle.ct_sexpr.specs.Written.{written};
ghost use Rattle.ct_terms.specs.Terms.{AreSorted};
ghost use Rattle.ct_log.specs.declared.error.LogError.TheVariants.{NoMemory};
ghost use Rattle.ct_log_text.specs.Written.{numbers, row, line_item, term_items, line_items, item_lines, expression_of_record, text_of};
ghost use Rattle.ct_log_text.specs.Writable.{CanBeRead, IsReadBack};

use crate::put::put_row;
use crate::put_line::put_line;
use crate::put_term::put_term;
use crate::theorems::{reads_back, text_is_read};
use ct_log::{Line, LogError, Record};
use ct_sorts::Signature;
use ct_terms::{TermId, TermTable};
use std::alloc::{AllocError, Global};

/// The text of a record as a derivation of the check of satisfiability with this number: a line `(`, the items one a
/// line, and `)`, with which it ends. Of a record that can be written it is read back as that record, with that number,
/// and nothing is left of it. Its only error is out of memory.
pub fn derivation_text(
    alloc: Global,
    sig: &Signature,
    number: u64,
    rec: &Record,
) -> Result<Vec<u8>, LogError>
    requires fits { AreSorted sig.now rec.now.terms }
    ensures text { IfOk result (λ text. text.items ≡ text_of (expression_of_record sig.now number rec.now)) }
    ensures reads_back { IfOk result (λ text. CanBeRead sig.now number rec.now → IsReadBack sig.now number rec.now text.items) }
    ensures err { IfErr result (λ e. e ≡ NoMemory) }
{
    reads_back();
    text_is_read();
    prove!(sig.sorts() > 0);
    let text = record_text(alloc, sig, number, rec)?;
    Ok(text)
}

/// The text of a record.
fn record_text(
    alloc: Global,
    sig: &Signature,
    number: u64,
    rec: &Record,
) -> Result<Vec<u8>, LogError>
    requires fits { AreSorted sig.now rec.now.terms }
    ensures text { IfOk result (λ text. text.items ≡ text_of (expression_of_record sig.now number rec.now)) }
    ensures err { IfErr result (λ e. e ≡ NoMemory) }
{
    let mut out = Vec::new(alloc);
    put_derivation(alloc, sig, number, rec.table(), rec.lines(), &mut out)?;
    Ok(out)
}

/// Writes the text of a record of this table and these lines.
fn put_derivation(
    alloc: Global,
    sig: &Signature,
    number: u64,
    table: &TermTable,
    lines: &[Line],
    out: &mut Vec<u8>,
) -> Result<(), AllocError>
    requires fits { AreSorted sig.now table.now }
    ensures ok { OnOk result (out.new.items ≡ out.old.items ++ text_of (expression_of_record sig.now number (record { terms = table.now; lines = lines.now }))) }
{
    out.extend_from_slice(b"(\n")?;
    put_item(alloc, b"cosmt-derivation", number, out)?;
    put_term_items(alloc, sig, table, out)?;
    put_line_items(alloc, lines, out)?;
    put_item(alloc, b"end", lines.len() as u64, out)?;
    Ok(out.extend_from_slice(b")")?)
}

/// Writes a line of a word and a number.
fn put_item(alloc: Global, text: &[u8], n: u64, out: &mut Vec<u8>) -> Result<(), AllocError>
    ensures ok { OnOk result (out.new.items ≡ out.old.items ++ (written (row text.now (numbers (n ∷ []))) ++ 10 ∷ [])) }
{
    put_row(alloc, text, &[n], out)?;
    Ok(out.push(b'\n')?)
}

/// Writes the term lines, one a line.
fn put_term_items(
    alloc: Global,
    sig: &Signature,
    table: &TermTable,
    out: &mut Vec<u8>,
) -> Result<(), AllocError>
    requires fits { AreSorted sig.now table.now }
    ensures ok { OnOk result ((after : Expressions) → out.new.items ++ item_lines after ≡ out.old.items ++ item_lines (term_items sig.now 0 table.now after)) }
{
    for n in 0..table.len() {
        put_term_item(alloc, sig, table, n, out)?;
    }
    Ok(())
}

/// Writes the term line with this number, on a line of its own.
fn put_term_item(
    alloc: Global,
    sig: &Signature,
    table: &TermTable,
    n: u32,
    out: &mut Vec<u8>,
) -> Result<(), AllocError>
    requires fits { AreSorted sig.now table.now }
    requires within { n < length table.now }
    ensures ok { OnOk result ((after : Expressions) → out.new.items ++ item_lines (term_items sig.now (n + 1) (drop (n + 1) table.now) after)
        ≡ out.old.items ++ item_lines (term_items sig.now n (drop n table.now) after)) }
{
    put_term(alloc, sig, n as u64, table.core(TermId(n)), out)?;
    Ok(out.push(b'\n')?)
}

/// Writes the lines, one a line.
fn put_line_items(alloc: Global, lines: &[Line], out: &mut Vec<u8>) -> Result<(), AllocError>
    ensures ok { OnOk result ((after : Expressions) → out.new.items ++ item_lines after ≡ out.old.items ++ item_lines (line_items 1 lines.now after)) }
{
    let mut n = 1;
    let mut rest = lines;
    while let [line, others @ ..] = rest {
        put_line_item(alloc, n, line, out)?;
        n += 1;
        rest = others;
    }
    Ok(())
}

/// Writes the line with this number, on a line of its own.
fn put_line_item(alloc: Global, n: u64, line: &Line, out: &mut Vec<u8>) -> Result<(), AllocError>
    ensures ok { OnOk result (out.new.items ≡ out.old.items ++ (written (line_item n line.now) ++ 10 ∷ [])) }
{
    put_line(alloc, n, line, out)?;
    Ok(out.push(b'\n')?)
}
