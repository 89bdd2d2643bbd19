//! Tables in which all constructor terms have finite values: bisimilar classes are already equal there.
ghost use Rattle.std.specs.Prelude.{◌≡◌, ◌<◌, ◌⊎◌, List, [], Some, length, slice_get, IsTrue, true};
ghost use Rattle.ct_sorts.specs.declared.ids.CtorId.{CtorId};
ghost use Rattle.ct_sorts.specs.declared.ids.SortId.{SortId};
ghost use Rattle.ct_terms.specs.declared.ids.TermId.{TermId};
ghost use Rattle.ct_terms.specs.declared.term.Core.TheVariants.{Con};
ghost use Rattle.ct_terms.specs.Terms.{Has};
ghost use Rattle.ct_rules.specs.Cycle.{IsOfDatatype};
ghost use Rattle.ct_congr.specs.State.{IsQuiet};
ghost use Rattle.ct_acyclic.specs.Order.{IsClassOrder};
ghost use Rattle.ct_unique.specs.Partition.{IsStronglyExtensional};
ghost use Rattle.ct_theory.specs.Finite.{AreFinite};

use ct_congr::Classes;
use ct_sorts::{Kind, Signature};
use ct_terms::{Core, TermId, TermTable};

/// Whether each constructor term that has arguments is of a datatype. Linear.
pub(crate) fn are_finite(sig: &Signature, table: &TermTable) -> bool
    ensures finite { IsTrue result → AreFinite sig.now table.now }
{
    for t in 0..table.len() {
        if !is_finite(sig, table, TermId(t)) {
            return false;
        }
    }
    true
}

// Whether the term, if it is a constructor term and has arguments, is of a datatype.
fn is_finite(sig: &Signature, table: &TermTable, t: TermId) -> bool
    requires inside { t.0 < length table.now }
    ensures finite { IsTrue result → (c : CtorId) (args : List TermId) → Has table.now (Con c args) t.0 → (args ≡ []) ⊎ IsOfDatatype sig.now table.now t }
{
    match table.core(t) {
        Core::Con(_, args) => args.as_slice().is_empty() || is_of_datatype(sig, table, t),
        _ => true,
    }
}

// Whether the term is of a datatype.
fn is_of_datatype(sig: &Signature, table: &TermTable, t: TermId) -> bool
    requires inside { t.0 < length table.now }
    ensures datatype { IsTrue result → IsOfDatatype sig.now table.now t }
{
    let sort = table.sort(t);
    sort.0 < sig.sorts() && sig.kind(sort) == Kind::Data
}

/// Quiet classes with an order of those of datatypes are strongly extensional where constructor terms are finite. It does
/// nothing: a proof that needs this calls it.
pub(crate) fn finite_classes(classes: &Classes, order: &[TermId])
    requires quiet { IsQuiet classes.now }
    requires ordered { IsClassOrder classes.now order.now }
    requires finite { AreFinite classes.now.declarations classes.now.terms }
    ensures extensional { IsStronglyExtensional classes.now }
{
    let _merges = classes.merges();
    let _table = classes.table();
}
