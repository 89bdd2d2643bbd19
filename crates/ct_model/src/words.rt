//! The parts of texts of models, each appended to the text: names, parameters and values.
ghost use Rattle.std.specs.Prelude.{◌≡◌, ℕ, ◌<◌, List, ◌++◌, length, All, OnOk};
ghost use Rattle.ct_sorts.specs.Declarations.{IsSort};
ghost use Rattle.ct_sexpr.specs.Written.{written_name};
ghost use Rattle.ct_values.specs.Fitting.{FitsGraph};
ghost use Rattle.ct_value_text.specs.Numeral.{numeral};
ghost use Rattle.ct_value_text.specs.Separation.{gap};
ghost use Rattle.ct_value_text.specs.ValueText.{sort_text as text_of_sort, IsValueText};
ghost use Rattle.ct_model.specs.Within.{IsNode};
ghost use Rattle.ct_model.specs.Listed.{listed};
ghost use Rattle.ct_model.specs.TableText.{parameter, sorted_parameter, parameters};

use crate::error::ModelError;
use ct_instances::sort_text;
use ct_sexpr::is_simple;
use ct_sorts::{Signature, SortId};
use ct_value_text::value_text;
use ct_values::{Graph, NodeId};
use std::alloc::Global;

/// Writes the name, quoted where it needs to be.
pub(crate) fn write_name(name: &[u8], out: &mut Vec<u8>) -> Result<(), ModelError>
    ensures ok { OnOk result (out.new.items ≡ out.old.items ++ written_name name.now) }
{
    if is_simple(name) {
        return Ok(out.extend_from_slice(name)?);
    }
    out.push(b'|')?;
    out.extend_from_slice(name)?;
    Ok(out.push(b'|')?)
}

/// Writes the text of a sort.
pub(crate) fn write_sort(sig: &Signature, s: SortId, out: &mut Vec<u8>) -> Result<(), ModelError>
    requires declared { IsSort sig.now s }
    ensures ok { OnOk result (out.new.items ≡ out.old.items ++ text_of_sort sig.now s.0) }
{
    Ok(out.extend_from_slice(sort_text(sig, s))?)
}

// Writes the number in decimal.
fn write_number(alloc: Global, number: u64, out: &mut Vec<u8>) -> Result<(), ModelError>
    ensures ok { OnOk result (out.new.items ≡ out.old.items ++ numeral number) }
{
    Ok(out.extend_from_slice(format!(in alloc; "{number}")?.as_bytes())?)
}

/// Writes the name of a parameter, as `@x3`.
pub(crate) fn write_parameter(
    alloc: Global,
    number: usize,
    out: &mut Vec<u8>,
) -> Result<(), ModelError>
    ensures ok { OnOk result (out.new.items ≡ out.old.items ++ parameter number) }
{
    out.extend_from_slice(b"@x")?;
    write_number(alloc, number as u64, out)
}

/// Writes a space before each item of a list but the first.
pub(crate) fn write_gap(index: usize, out: &mut Vec<u8>) -> Result<(), ModelError>
    ensures ok { OnOk result (out.new.items ≡ out.old.items ++ gap index) }
{
    if index == 0 {
        return Ok(());
    }
    Ok(out.push(b' ')?)
}

// Writes a parameter and its sort, as `(@x3 S)`.
fn write_sorted_parameter(
    alloc: Global,
    sig: &Signature,
    number: usize,
    s: SortId,
    out: &mut Vec<u8>,
) -> Result<(), ModelError>
    requires declared { IsSort sig.now s }
    ensures ok { OnOk result (out.new.items ≡ out.old.items ++ sorted_parameter sig.now number s) }
{
    out.push(b'(')?;
    write_parameter(alloc, number, out)?;
    out.push(b' ')?;
    write_sort(sig, s, out)?;
    Ok(out.push(b')')?)
}

/// Writes the parameters of these sorts, as `((@x0 S) (@x1 T))`.
pub(crate) fn write_parameters(
    alloc: Global,
    sig: &Signature,
    sorts: &[SortId],
    out: &mut Vec<u8>,
) -> Result<(), ModelError>
    requires declared { All (IsSort sig.now) sorts.now }
    ensures ok { OnOk result (out.new.items ≡ out.old.items ++ listed (parameters sig.now 0 sorts.now)) }
{
    out.push(b'(')?;
    for index in 0..sorts.len() {
        write_gap(index, out)?;
        write_sorted_parameter(alloc, sig, index, sorts[index], out)?;
    }
    Ok(out.push(b')')?)
}

/// Writes the text of the value at the node.
pub(crate) fn write_value(
    alloc: Global,
    sig: &Signature,
    graph: &Graph,
    n: NodeId,
    out: &mut Vec<u8>,
) -> Result<(), ModelError>
    requires within { IsNode graph.now n }
    requires fits { FitsGraph sig.now graph.now }
    ensures ok { OnOk result ((text : List ℕ) × IsValueText sig.now graph.now n text × (out.new.items ≡ out.old.items ++ text)) }
{
    let text = value_text(alloc, sig, graph, n)?;
    Ok(out.extend_from_slice(&text)?)
}
