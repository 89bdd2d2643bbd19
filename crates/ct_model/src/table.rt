//! The texts of single tables: of a function, and of a selector for wrong applications.
ghost use Rattle.std.specs.Prelude.{◌≡◌, ℕ, ◌<◌, List, ◌++◌, length, slice_get, Some, All, OnOk, IfOk};
ghost use Rattle.ct_sorts.specs.Declarations.{IsSort, IsFunction, IsSelector};
ghost use Rattle.ct_eval.specs.Interpretation.{IsProper};
ghost use Rattle.ct_model.specs.Opening.{heading};
ghost use Rattle.ct_model.specs.TableText.{IsTableText, IsOffText};

use crate::body::write_body;
use crate::error::ModelError;
use crate::words::{write_name, write_parameters, write_sort};
use ct_eval::{Interp, Table};
use ct_sorts::{FunId, SelId, Signature, SortId};
use std::alloc::Global;

/// The table of the function, as a definition of it (SMT-LIB 2.7, section 4.2.3, `define-fun`): `(define-fun f ((@x0 S0) ..) T body)`.
///
/// The body is `(ite test result rest)` for each row in order, and the default where no row is left. The test is `(= @x0 v)` for one
/// argument, and `(and (= @x0 v0) (= @x1 v1) ..)` for more. The body of a constant is the result of its first row, and the default
/// where it has no row. Values are written as `value_text` of `ct_values` writes them, and names are quoted where they need to be. The
/// only error is out of memory.
pub fn table_text(
    alloc: Global,
    sig: &Signature,
    interp: &Interp,
    f: FunId,
) -> Result<Vec<u8>, ModelError>
    requires proper { IsProper sig.now interp.now }
    requires declared { IsFunction sig.now f }
    ensures text { IfOk result (λ text. IsTableText sig.now interp.now f.0 text.items) }
{
    let mut out = Vec::new(alloc);
    write_function(alloc, sig, interp, f, &mut out)?;
    Ok(out)
}

/// Writes the table of the function.
pub(crate) fn write_function(
    alloc: Global,
    sig: &Signature,
    interp: &Interp,
    f: FunId,
    out: &mut Vec<u8>,
) -> Result<(), ModelError>
    requires proper { IsProper sig.now interp.now }
    requires declared { IsFunction sig.now f }
    ensures ok { OnOk result ((text : List ℕ) × IsTableText sig.now interp.now f.0 text
        × (out.new.items ≡ out.old.items ++ text)) }
{
    let sorts = sig.fun_args(f);
    let table = table_at(interp.funs.as_slice(), f.0);
    out.extend_from_slice(b"(define-fun ")?;
    write_heading(alloc, sig, sig.fun_name(f), sorts, sig.fun_result(f), out)?;
    write_body(alloc, sig, &interp.graph, sorts, table, out)?;
    Ok(out.push(b')')?)
}

/// Writes the table of the selector for wrong applications.
pub(crate) fn write_off(
    alloc: Global,
    sig: &Signature,
    interp: &Interp,
    s: SelId,
    out: &mut Vec<u8>,
) -> Result<(), ModelError>
    requires proper { IsProper sig.now interp.now }
    requires declared { IsSelector sig.now s }
    ensures ok { OnOk result ((text : List ℕ) × IsOffText sig.now interp.now s.0 text
        × (out.new.items ≡ out.old.items ++ text)) }
{
    let of = sig.ctor_sort(sig.sel_ctor(s));
    let table = table_at(interp.offs.as_slice(), s.0);
    out.extend_from_slice(b"(@off ")?;
    write_heading(alloc, sig, sig.sel_name(s), &[of], sig.sel_sort(s), out)?;
    write_body(alloc, sig, &interp.graph, &[of], table, out)?;
    Ok(out.push(b')')?)
}

// The table of this number.
fn table_at(tables: &[Table], number: u32) -> &Table
    requires within { number < length tables.now }
    ensures value { slice_get tables.now number ≡ Some result.now }
{
    &tables[number as usize]
}

// Writes the name of a table, its parameters and the sort of its result, as `f ((@x0 S0) ..) T ` with the space at the end.
fn write_heading(
    alloc: Global,
    sig: &Signature,
    name: &[u8],
    sorts: &[SortId],
    sort: SortId,
    out: &mut Vec<u8>,
) -> Result<(), ModelError>
    requires args { All (IsSort sig.now) sorts.now }
    requires sort { IsSort sig.now sort }
    ensures ok { OnOk result (out.new.items ≡ out.old.items ++ heading sig.now name.now sorts.now sort) }
{
    write_name(name, out)?;
    out.push(b' ')?;
    write_parameters(alloc, sig, sorts, out)?;
    out.push(b' ')?;
    write_sort(sig, sort, out)?;
    Ok(out.push(b' ')?)
}
