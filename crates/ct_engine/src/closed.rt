//! The closed table of a check: made of the assertions alone, or from what is kept of earlier checks.
ghost use Rattle.std.specs.Prelude.{All, IfOk, OnOk, IsErrOf};
ghost use Rattle.ct_card.specs.Sizes.{AreSizes};
ghost use Rattle.ct_terms.specs.Terms.{AreSorted, IsBoolean};
ghost use Rattle.ct_closure.specs.Closed.{HasMoreThan, most_closure_terms};
ghost use Rattle.ct_closure.specs.ClosedTable.{AreSubtermsOf, terms_at};
ghost use Rattle.ct_base.specs.Base.{IsBase, IsClosedFor};
ghost use Rattle.ct_engine.specs.Progress.{IsClosureOf, IsClosedAs};

use crate::error::SolveError;
use ct_base::Base;
use ct_card::Sizes;
use ct_closure::{CloseError, Closure, close};
use ct_sorts::Signature;
use ct_terms::{TermId, TermTable, core_trees};
use std::alloc::Global;

/// A closed table.
#[derive(Drop)]
pub(crate) struct Closed {
    /// The closure of the roots.
    pub(crate) table: TermTable,
    /// The assertions, in order.
    pub(crate) roots: Vec<TermId>,
    /// What is known of the closure beside.
    pub(crate) closure: Closure,
}

/// The closure of the assertions, made in a copy of their table.
pub(crate) fn closed_alone(
    alloc: Global,
    sig: &Signature,
    sizes: &Sizes,
    table: &TermTable,
    asserts: &[TermId],
) -> Result<Box<Closed>, SolveError>
    requires sizes { AreSizes sig.now sizes.now }
    requires sorted { AreSorted sig.now table.now }
    requires asserts { All (IsBoolean table.now) asserts.now }
    requires exact { AreSubtermsOf table.now asserts.now }
    ensures closed { IfOk result (λ closed. IsClosedAs sig.now table.now asserts.now closed.value) }
    ensures too_large { IsErrOf result SolveError.TooLarge → HasMoreThan sig.now (terms_at table.now asserts.now) most_closure_terms }
    ensures fits { OnOk result (HasMoreThan sig.now (terms_at table.now asserts.now) most_closure_terms → ⊥) }
{
    core_trees();
    let roots = Vec::from_slice(alloc, asserts)?;
    let mut closed = table.copy()?;
    let closure = closure_of(alloc, sig, sizes, &mut closed, asserts)?;
    let _terms = closed.len();
    Ok(Box::new(
        alloc,
        Closed {
            table: closed,
            roots,
            closure,
        },
    )?)
}

/// The closure of the assertions, made in the base, and copied from there.
pub(crate) fn closed_in(
    alloc: Global,
    sig: &Signature,
    base: &mut Base,
    table: &TermTable,
    asserts: &[TermId],
) -> Result<Box<Closed>, SolveError>
    requires base { IsBase sig.now base.old }
    requires sorted { AreSorted sig.now table.now }
    requires asserts { All (IsBoolean table.now) asserts.now }
    requires exact { AreSubtermsOf table.now asserts.now }
    ensures base { IsBase sig.now base.new }
    ensures sizes { OnOk result (AreSizes sig.now base.new.sizes) }
    ensures closed { IfOk result (λ closed. IsClosedAs sig.now table.now asserts.now closed.value) }
    ensures too_large { IsErrOf result SolveError.TooLarge → HasMoreThan sig.now (terms_at table.now asserts.now) most_closure_terms }
    ensures fits { OnOk result (HasMoreThan sig.now (terms_at table.now asserts.now) most_closure_terms → ⊥) }
{
    let closure = closure_in(alloc, sig, base, table, asserts)?;
    let roots = Vec::from_slice(alloc, base.roots())?;
    let closed = base.table().copy()?;
    Ok(Box::new(
        alloc,
        Closed {
            table: closed,
            roots,
            closure,
        },
    )?)
}

// Closes the table of the assertions.
fn closure_of(
    alloc: Global,
    sig: &Signature,
    sizes: &Sizes,
    table: &mut TermTable,
    asserts: &[TermId],
) -> Result<Closure, SolveError>
    requires sizes { AreSizes sig.now sizes.now }
    requires sorted { AreSorted sig.now table.old }
    requires asserts { All (IsBoolean table.old) asserts.now }
    requires exact { AreSubtermsOf table.old asserts.now }
    ensures closure { IfOk result (IsClosureOf sig.now table.old asserts.now table.new) }
    ensures too_large { IsErrOf result SolveError.TooLarge → HasMoreThan sig.now (terms_at table.old asserts.now) most_closure_terms }
    ensures fits { OnOk result (HasMoreThan sig.now (terms_at table.old asserts.now) most_closure_terms → ⊥) }
{
    match close(alloc, sig, sizes, table, asserts) {
        Ok(closure) => Ok(closure),
        Err(CloseError::TooLarge) => Err(SolveError::TooLarge),
        Err(CloseError::NoMemory) => Err(SolveError::NoMemory),
    }
}

// Closes the table of the base over the assertions.
fn closure_in(
    alloc: Global,
    sig: &Signature,
    base: &mut Base,
    table: &TermTable,
    asserts: &[TermId],
) -> Result<Closure, SolveError>
    requires base { IsBase sig.now base.old }
    requires sorted { AreSorted sig.now table.now }
    requires asserts { All (IsBoolean table.now) asserts.now }
    requires exact { AreSubtermsOf table.now asserts.now }
    ensures base { IsBase sig.now base.new }
    ensures sizes { OnOk result (AreSizes sig.now base.new.sizes) }
    ensures closed { IfOk result (IsClosedFor sig.now (terms_at table.now asserts.now) base.new) }
    ensures too_large { IsErrOf result SolveError.TooLarge → HasMoreThan sig.now (terms_at table.now asserts.now) most_closure_terms }
{
    match base.close_over(alloc, sig, table, asserts) {
        Ok(closure) => Ok(closure),
        Err(CloseError::TooLarge) => Err(SolveError::TooLarge),
        Err(CloseError::NoMemory) => Err(SolveError::NoMemory),
    }
}
