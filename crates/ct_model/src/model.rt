//! The text of a whole model.
ghost use Rattle.std.specs.Prelude.{◌≡◌, ℕ, List, ◌++◌, ◌∷◌, [], OnOk, IfOk};
ghost use Rattle.std.specs.Bool.{MatchBool};
ghost use Rattle.std.specs.List.{AllZip};
ghost use Rattle.ct_sorts.specs.Declarations.{IsFunction, IsSelector};
ghost use Rattle.ct_eval.specs.Interpretation.{IsProper};
ghost use Rattle.ct_model.specs.Listed.{lines};
ghost use Rattle.ct_model.specs.TableText.{IsTableText, IsOffText};
ghost use Rattle.ct_model.specs.ModelText.{can_miss, function_numbers, off_numbers, IsModelText};

use crate::error::ModelError;
use crate::table::{write_function, write_off};
use ct_eval::Interp;
use ct_sorts::{FunId, SelId, Signature};
use std::alloc::Global;

/// The model, as `get-model` answers it (SMT-LIB 2.7, section 4.2.6): the line `(`; a line for each declared function
/// in order of declaration, as `table_text` gives it; a line `(@off s ((@x0 S)) T body)` for each selector of a sort
/// with two or more constructors, in order, with the results of its wrong applications; and `)`. The last line is not
/// ended. The only error is out of memory.
pub fn model_text(alloc: Global, sig: &Signature, interp: &Interp) -> Result<Vec<u8>, ModelError>
    requires proper { IsProper sig.now interp.now }
    ensures text { IfOk result (λ text. IsModelText sig.now interp.now text.items) }
{
    let mut out = Vec::new(alloc);
    out.extend_from_slice(b"(\n")?;
    write_functions(alloc, sig, interp, &mut out)?;
    write_selectors(alloc, sig, interp, &mut out)?;
    out.push(b')')?;
    Ok(out)
}

// Writes a line for each function.
fn write_functions(
    alloc: Global,
    sig: &Signature,
    interp: &Interp,
    out: &mut Vec<u8>,
) -> Result<(), ModelError>
    requires proper { IsProper sig.now interp.now }
    ensures ok { OnOk result ((texts : List (List ℕ)) × AllZip (IsTableText sig.now interp.now) (function_numbers sig.now) texts
        × (out.new.items ≡ out.old.items ++ lines texts)) }
{
    let count = sig.funs();
    for f in 0..count {
        write_function(alloc, sig, interp, FunId(f), out)?;
        out.push(b'\n')?;
    }
    Ok(())
}

// Writes a line for each selector that can be wrongly applied.
fn write_selectors(
    alloc: Global,
    sig: &Signature,
    interp: &Interp,
    out: &mut Vec<u8>,
) -> Result<(), ModelError>
    requires proper { IsProper sig.now interp.now }
    ensures ok { OnOk result ((texts : List (List ℕ)) × AllZip (IsOffText sig.now interp.now) (off_numbers sig.now) texts
        × (out.new.items ≡ out.old.items ++ lines texts)) }
{
    let count = sig.mark().sels();
    for s in 0..count {
        write_selector(alloc, sig, interp, SelId(s), out)?;
    }
    Ok(())
}

// Writes a line for the selector where it can be wrongly applied, and nothing else.
fn write_selector(
    alloc: Global,
    sig: &Signature,
    interp: &Interp,
    s: SelId,
    out: &mut Vec<u8>,
) -> Result<(), ModelError>
    requires proper { IsProper sig.now interp.now }
    requires declared { IsSelector sig.now s }
    ensures ok { OnOk result (MatchBool (can_miss sig.now s.0)
        ((text : List ℕ) × IsOffText sig.now interp.now s.0 text × (out.new.items ≡ out.old.items ++ (text ++ 10 ∷ [])))
        (out.new.items ≡ out.old.items)) }
{
    if !can_miss(sig, s) {
        return Ok(());
    }
    write_off(alloc, sig, interp, s, out)?;
    Ok(out.push(b'\n')?)
}

// Whether the sort of the selector's argument has two or more constructors.
fn can_miss(sig: &Signature, s: SelId) -> bool
    requires declared { IsSelector sig.now s }
    ensures value { result ≡ can_miss sig.now s.0 }
{
    let of = sig.ctor_sort(sig.sel_ctor(s));
    sig.ctors(of).len() > 1
}
