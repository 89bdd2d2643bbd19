//! Sizes: `(sizes SORT ..)` shows each sort with its size, and `(copied SORT ..)` the same by a
//! copy of the sizes. `(theorems)` calls the functions that do nothing.
ghost use Rattle.std.specs.Prelude.{IfOk};
ghost use Rattle.ct_card.specs.Sizes.{AreSizes};

use ct_card::{CardError, Size, Sizes, different_values, single_sorts, stable_sizes, unique_sizes};
use ct_cases::{CaseError, show_bytes, sort_of};
use ct_ordering::no_both;
use ct_sexpr::Sexpr;
use ct_sorts::{Signature, SortId};
use std::alloc::Global;

/// Answers a case of sizes.
pub fn answer(
    alloc: Global,
    sig: &Signature,
    kind: &str,
    parts: &[Sexpr],
    out: &mut String,
) -> Result<bool, CaseError> {
    match (kind, parts) {
        ("sizes", sorts) => {
            let sizes = sizes_of(alloc, sig)?;
            show_sizes(alloc, sig, &sizes, sorts, out)?;
        }
        ("copied", sorts) => {
            let sizes = copied_sizes(alloc, sig)?;
            show_sizes(alloc, sig, &sizes, sorts, out)?;
        }
        ("theorems", []) => call_theorems(out)?,
        _ => return Ok(false),
    }
    Ok(true)
}

/// Calls the functions that do nothing.
fn call_theorems(out: &mut String) -> Result<(), CaseError> {
    unique_sizes();
    stable_sizes();
    single_sorts();
    different_values();
    no_both();
    Ok(out.push_str(" ok")?)
}

/// The sizes of all sorts.
pub fn sizes_of(alloc: Global, sig: &Signature) -> Result<Box<Sizes>, CaseError>
    ensures sizes { IfOk result (λ sizes. AreSizes sig.now sizes.value) }
{
    match Sizes::new(alloc, sig) {
        Ok(sizes) => Ok(Box::new(alloc, sizes)?),
        Err(CardError) => Err(CaseError::NoMemory),
    }
}

/// A copy of the sizes of all sorts.
fn copied_sizes(alloc: Global, sig: &Signature) -> Result<Box<Sizes>, CaseError>
    ensures sizes { IfOk result (λ sizes. AreSizes sig.now sizes.value) }
{
    let sizes = sizes_of(alloc, sig)?;
    match sizes.copy() {
        Ok(copy) => Ok(Box::new(alloc, copy)?),
        Err(CardError) => Err(CaseError::NoMemory),
    }
}

/// Shows sorts with their sizes.
pub fn show_sizes(
    alloc: Global,
    sig: &Signature,
    sizes: &Sizes,
    parts: &[Sexpr],
    out: &mut String,
) -> Result<(), CaseError>
    requires sizes { AreSizes sig.now sizes.now }
{
    for part in parts {
        let sort = sort_of(alloc, sig, part)?;
        out.push(' ')?;
        show_bytes(alloc, sig.sort_name(sort), out)?;
        let size = sizes.size_of(sort);
        out.push_str(format!(in alloc; " {size:?}")?.as_str())?;
    }
    Ok(())
}
