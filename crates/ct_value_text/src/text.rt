//! The parts of texts of values, each appended to the text: names, numbers, and heads.
ghost use Rattle.std.specs.Prelude.{◌≡◌, [], ◌∷◌, ◌++◌, OnOk, IfOk};
ghost use Rattle.ct_sorts.specs.Declarations.{IsSort, IsConstructor};
ghost use Rattle.ct_sexpr.specs.Written.{written, written_name};
ghost use Rattle.ct_value_text.specs.Numeral.{numeral};
ghost use Rattle.ct_value_text.specs.ValueText as spec;

use ct_instances::{has_determined_sort, sort_text};
use ct_sexpr::is_simple;
use ct_sorts::{CtorId, Signature, SortId};
use ct_values::{NodeId, ValueError};
use std::alloc::Global;

// Writes the name, quoted where it needs to be.
fn write_name(name: &[u8], out: &mut Vec<u8>) -> Result<(), ValueError>
    ensures ok { OnOk result (out.new.items ≡ out.old.items ++ written_name name.now) }
{
    if is_simple(name) {
        return Ok(out.extend_from_slice(name)?);
    }
    out.push(b'|')?;
    out.extend_from_slice(name)?;
    Ok(out.push(b'|')?)
}

// Writes the number in decimal.
fn write_number(alloc: Global, number: u64, out: &mut Vec<u8>) -> Result<(), ValueError>
    ensures ok { OnOk result (out.new.items ≡ out.old.items ++ numeral number) }
{
    Ok(out.extend_from_slice(format!(in alloc; "{number}")?.as_bytes())?)
}

/// Writes the number of a node, as `@3`.
pub(crate) fn write_node_name(alloc: Global, n: NodeId, out: &mut Vec<u8>) -> Result<(), ValueError>
    ensures ok { OnOk result (out.new.items ≡ out.old.items ++ written (spec.node_name n.0)) }
{
    out.push(b'@')?;
    write_number(alloc, n.0, out)
}

/// Writes a constructor: its name, or `(as C S)` where the sorts of its fields do not determine its own.
pub(crate) fn write_ctor(sig: &Signature, c: CtorId, out: &mut Vec<u8>) -> Result<(), ValueError>
    requires declared { IsConstructor sig.now c }
    ensures ok { OnOk result (out.new.items ≡ out.old.items ++ written (spec.ctor_expression sig.now c)) }
{
    if has_determined_sort(sig, c) {
        return write_name(sig.ctor_name(c), out);
    }
    write_qualified(sig, sig.ctor_name(c), sig.ctor_sort(c), out)
}

/// Writes an element of a sort, as `(as @U_3 U)`.
pub(crate) fn write_element(
    alloc: Global,
    sig: &Signature,
    s: SortId,
    number: u64,
    out: &mut Vec<u8>,
) -> Result<(), ValueError>
    requires declared { IsSort sig.now s }
    ensures ok { OnOk result (out.new.items ≡ out.old.items ++ written (spec.element_text sig.now s.0 number)) }
{
    let symbol = element_name(alloc, sig, s, number)?;
    write_qualified(sig, &symbol, s, out)
}

// Writes a symbol qualified by a sort, as `(as nil (List E))`.
fn write_qualified(
    sig: &Signature,
    symbol: &[u8],
    s: SortId,
    out: &mut Vec<u8>,
) -> Result<(), ValueError>
    requires inside { IsSort sig.now s }
    ensures ok { OnOk result (out.new.items ≡ out.old.items ++ written (spec.qualified symbol.now (spec.sort_expression sig.now s.0))) }
{
    out.extend_from_slice(b"(as ")?;
    write_name(symbol, out)?;
    out.push(b' ')?;
    out.extend_from_slice(sort_text(sig, s))?;
    Ok(out.push(b')')?)
}

// The symbol of an element of the sort, as `@U_3` or `@(Arr E)_3`: the bars in the text of the sort are left out.
fn element_name(
    alloc: Global,
    sig: &Signature,
    s: SortId,
    number: u64,
) -> Result<Vec<u8>, ValueError>
    requires inside { IsSort sig.now s }
    ensures value { IfOk result (λ symbol. symbol.items ≡ spec.element_name (spec.bare_sort sig.now s.0) number) }
{
    let mut symbol = Vec::new(alloc);
    symbol.push(b'@')?;
    push_without_bars(sort_text(sig, s), &mut symbol)?;
    symbol.push(b'_')?;
    write_number(alloc, number, &mut symbol)?;
    Ok(symbol)
}

// Writes the text without its bars.
fn push_without_bars(text: &[u8], out: &mut Vec<u8>) -> Result<(), ValueError>
    ensures ok { OnOk result (out.new.items ≡ out.old.items ++ spec.without_bars text.now) }
{
    for byte in text {
        push_but_bar(*byte, out)?;
    }
    Ok(())
}

// Writes the byte where it is no bar.
fn push_but_bar(byte: u8, out: &mut Vec<u8>) -> Result<(), ValueError>
    ensures ok { OnOk result (out.new.items ≡ out.old.items ++ spec.without_bars (byte ∷ [])) }
{
    if byte == b'|' {
        return Ok(());
    }
    Ok(out.push(byte)?)
}
