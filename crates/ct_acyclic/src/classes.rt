//! Which terms represent classes of datatypes.
ghost use Rattle.std.specs.Prelude.{◌≡◌, ℕ, ◌+◌, ◌<◌, ◌↔◌, List, Some, slice_get, length, IfOk, OnOk, IsTrue, All};
ghost use Rattle.ct_terms.specs.declared.ids.TermId.{TermId};
ghost use Rattle.ct_rules.specs.Cycle.{IsOfDatatype};
ghost use Rattle.ct_acyclic.specs.Order.{IsDataClass};
ghost use Rattle.ct_acyclic.specs.Edges.{AreKept, term};

use ct_congr::Classes;
use ct_ordering::OrderingError;
use ct_sorts::{Kind, Signature};
use ct_terms::{TermId, TermTable};
use std::alloc::Global;

/// Those of the points that represent classes of datatypes, in order.
pub(crate) fn data_classes(
    alloc: Global,
    classes: &Classes,
    points: &[usize],
) -> Result<Vec<TermId>, OrderingError>
    requires within { All (λ point. point < length classes.now.terms) points.now }
    ensures kept { IfOk result (λ reps. AreKept classes.now points.now (length points.now) reps.items) }
{
    let mut reps = Vec::new(alloc);
    for point in points {
        keep(classes, term(classes, *point), &mut reps)?;
    }
    Ok(reps)
}

// Adds the term, if it represents a class of a datatype.
fn keep(classes: &Classes, t: TermId, reps: &mut Vec<TermId>) -> Result<(), OrderingError>
    requires inside { t.0 < length classes.now.terms }
    ensures kept { OnOk result ((points : List ℕ) (count : ℕ)
        → slice_get points count ≡ Some t.0
        → AreKept classes.now points count reps.old.items
        → AreKept classes.now points (count + 1) reps.new.items) }
{
    if is_data_class(classes, t) {
        reps.push(t)?;
        return Ok(());
    }
    Ok(())
}

/// The term with this number.
pub(crate) fn term(classes: &Classes, number: usize) -> TermId
    requires inside { number < length classes.now.terms }
    ensures value { result ≡ term number }
{
    prove!(number < classes.table().len() as usize);
    TermId(number as u32)
}

/// Whether the term represents a class of a datatype.
pub(crate) fn is_data_class(classes: &Classes, t: TermId) -> bool
    requires inside { t.0 < length classes.now.terms }
    ensures value { IsTrue result ↔ IsDataClass classes.now t }

    // The representative of a term is its own.
    ensures own { (r : TermId) → slice_get classes.now.reps t.0 ≡ Some r → slice_get classes.now.reps r.0 ≡ Some r }
{
    classes.rep(t) == t && is_of_datatype(classes.signature(), classes.table(), t)
}

// Whether the term is of a datatype.
fn is_of_datatype(sig: &Signature, table: &TermTable, t: TermId) -> bool
    requires inside { t.0 < length table.now }
    ensures datatype { IsTrue result ↔ IsOfDatatype sig.now table.now t }
{
    let sort = table.sort(t);
    sort.0 < sig.sorts() && sig.kind(sort) == Kind::Data
}
