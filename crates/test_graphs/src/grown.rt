//! Sizes of declarations that grow: `(extended (STEP ..) (STEP ..) (SORT ..) (SORT ..))` declares the first steps anew, and
//! extends their sizes by the second steps; it shows the later sorts, the earlier ones after a cut, and the later ones when the
//! sizes were extended again. `(cut ..)` does the same with sizes that were made at once, and begins with the cut.
ghost use Rattle.std.specs.Prelude.{OnOk};
ghost use Rattle.ct_sorts.specs.Consistent.{IsConsistent};
ghost use Rattle.ct_sorts.specs.Declarations.{Declarations};
ghost use Rattle.ct_sorts.specs.Grown.{Extends};
ghost use Rattle.ct_card.specs.Sizes.{AreSizes};

use crate::sized::{show_sizes, sizes_of};
use ct_card::{CardError, Sizes};
use ct_cases::{CaseError, declare_all, items_of};
use ct_sexpr::Sexpr;
use ct_sorts::Signature;
use std::alloc::Global;

/// Answers a case of sizes of declarations that grow.
pub fn answer(
    alloc: Global,
    kind: &str,
    parts: &[Sexpr],
    out: &mut String,
) -> Result<bool, CaseError> {
    match (kind, parts) {
        ("extended", [first, second, early, sorts]) => {
            let (first, second) = (items_of(first)?, items_of(second)?);
            show_extended(
                alloc,
                first,
                second,
                items_of(early)?,
                items_of(sorts)?,
                out,
            )?;
        }
        ("cut", [first, second, early, sorts]) => {
            let (first, second) = (items_of(first)?, items_of(second)?);
            show_made(
                alloc,
                first,
                second,
                items_of(early)?,
                items_of(sorts)?,
                out,
            )?;
        }
        _ => return Ok(false),
    }
    Ok(true)
}

/// Shows sizes that are extended, cut and extended again.
fn show_extended(
    alloc: Global,
    first: &[Sexpr],
    second: &[Sexpr],
    early: &[Sexpr],
    sorts: &[Sexpr],
    out: &mut String,
) -> Result<(), CaseError> {
    let mut sig = Box::new(alloc, Signature::new(alloc)?)?;
    declare_all(alloc, &mut sig, first)?;
    let earlier = Box::new(alloc, sig.copy()?)?;
    declare_all(alloc, &mut sig, second)?;
    let mut sizes = sizes_of(alloc, &earlier)?;
    extend(&earlier, &sig, &mut sizes)?;
    show_sizes(alloc, &sig, &sizes, sorts, out)?;
    show_cut(alloc, &earlier, &sig, &mut sizes, early, sorts, out)
}

/// Shows sizes that were made at once, are cut and extended again.
fn show_made(
    alloc: Global,
    first: &[Sexpr],
    second: &[Sexpr],
    early: &[Sexpr],
    sorts: &[Sexpr],
    out: &mut String,
) -> Result<(), CaseError> {
    let mut sig = Box::new(alloc, Signature::new(alloc)?)?;
    declare_all(alloc, &mut sig, first)?;
    let earlier = Box::new(alloc, sig.copy()?)?;
    declare_all(alloc, &mut sig, second)?;
    let mut sizes = sizes_of(alloc, &sig)?;
    show_cut(alloc, &earlier, &sig, &mut sizes, early, sorts, out)
}

/// Shows sizes that are cut and extended again.
fn show_cut(
    alloc: Global,
    earlier: &Signature,
    sig: &Signature,
    sizes: &mut Sizes,
    early: &[Sexpr],
    sorts: &[Sexpr],
    out: &mut String,
) -> Result<(), CaseError>
    requires extends { Extends sig.now earlier.now }
    requires sizes { AreSizes sig.now sizes.old }
{
    sizes.cut_to(earlier.sorts());
    show_sizes(alloc, earlier, sizes, early, out)?;
    extend(earlier, sig, sizes)?;
    show_sizes(alloc, sig, sizes, sorts, out)
}

/// Extends the sizes of an earlier state of the declarations.
fn extend(earlier: &Signature, sig: &Signature, sizes: &mut Sizes) -> Result<(), CaseError>
    requires extends { Extends sig.now earlier.now }
    requires sizes { AreSizes earlier.now sizes.old }
    ensures sizes { OnOk result (AreSizes sig.now sizes.new) }
{
    prove!(earlier.sorts() > 0);
    match sizes.extend(sig) {
        Ok(()) => Ok(()),
        Err(CardError) => Err(CaseError::NoMemory),
    }
}
