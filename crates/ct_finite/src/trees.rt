//! The entries of the list of a sort as formulas.
ghost use Rattle.std.specs.Prelude.{◌≡◌, ◌<◌, ◌≤◌, length, slice_get, option_map, Some, IfOk};
ghost use Rattle.ct_sorts.specs.Declarations.{IsSort};
ghost use Rattle.ct_formulas.specs.Formula.{Con};
ghost use Rattle.ct_formulas.specs.TreeFormula.{formula_of, formulas_of_trees};
ghost use Rattle.ct_listing.specs.Listable.{IsListable};
ghost use Rattle.ct_listing.specs.Listing.{listed};
ghost use Rattle.ct_finite.specs.ClosedFormula.{formula_of_value};
ghost use Rattle.ct_finite.specs.Counts.{AreCounts, most_values};

use crate::error::FiniteError;
use crate::parts::part_at;
use ct_formulas::Tree;
use ct_listing::listed_values;
use ct_sorts::{CtorId, Signature, SortId};
use std::alloc::Global;

/// The entry with this number.
pub(crate) fn tree_at(
    alloc: Global,
    sig: &Signature,
    counts: &[u64],
    s: SortId,
    k: u64,
) -> Result<Tree, FiniteError>
    requires inside { IsSort sig.now s }
    requires counts { AreCounts sig.now counts.now }
    requires listable { IsListable sig.now s }
    requires few { length (listed sig.now s) ≤ most_values }
    requires there { k < length (listed sig.now s) }
    ensures tree { IfOk result (λ tree. option_map formula_of_value (slice_get (listed sig.now s) k) ≡ Some (formula_of tree)) }
{
    listed_values();
    prove!(sig.sorts() > 0);
    let part = part_at(alloc, sig, counts, s, k)?;
    let mut args = Vec::with_capacity(alloc, part.numbers.len())?;
    let sels = sig.ctor_sels(part.ctor);
    for i in 0..sels.len() {
        let field = sig.sel_sort(sels[i]);
        let arg = tree_at(alloc, sig, counts, field, part.numbers[i])?;
        args.push(arg)?;
    }
    Ok(tree_of(part.ctor, args))
}

// The constructor over these arguments.
fn tree_of(c: CtorId, args: Vec<Tree>) -> Tree
    ensures value { formula_of result ≡ Con c (formulas_of_trees args.items) }
{
    Tree::Con(c, args)
}
