//! Visits the terms of a table in the order of their numbers, and adds what the rules ask for.
ghost use Rattle.std.specs.Prelude.{◌≡◌, ◌<◌, ◌≤◌, ◌↔◌, ◌+◌, length, take, IsTrue, Some, OnOk, IfOk, IsErrOf};
ghost use Rattle.ct_sorts.specs.declared.ids.SortId.{SortId};
ghost use Rattle.ct_sorts.specs.Declarations.{IsSort};
ghost use Rattle.ct_card.specs.declared.size.Size.TheVariants.{Finite};
ghost use Rattle.ct_card.specs.Cardinality.{HasSize};
ghost use Rattle.ct_card.specs.Sizes.{AreSizes};
ghost use Rattle.ct_terms.specs.declared.ids.TermId.{TermId};
ghost use Rattle.ct_closure.specs.Closed.{IsStructured, most_closure_terms};
ghost use Rattle.ct_closure.specs.ClosedTable.{IsOpen, IsSplitTerm};
ghost use Rattle.ct_closure.specs.Steps.{IsSound, IsStep, IsMarked, AreMarked, HasMarks, IsArgumentOf, IsConditionalTaken, IsArgumentTaken, IsFiniteTaken, IsTaken, IsUnderWay};

use crate::add::{MOST_TERMS, add};
use crate::cases::add_cases;
use crate::error::CloseError;
use crate::facts::{declared, sound, trees};
use ct_card::{Size, Sizes, unique_sizes};
use ct_sorts::{Kind, Signature, SortId};
use ct_terms::{Core, TermId, TermTable};
use std::alloc::Global;

/// The sort of Boolean terms.
const BOOL: SortId = SortId(0);

/// Takes the terms of the table in the order of their numbers, and adds at its end what the rules
/// ask for each, until all are taken. The marks say which terms are split.
pub(crate) fn close_table(
    alloc: Global,
    sig: &Signature,
    sizes: &Sizes,
    table: &mut TermTable,
) -> Result<Vec<bool>, CloseError>
    requires sizes { AreSizes sig.now sizes.now }
    requires sound { IsSound sig.now table.old }
    requires few { length table.old ≤ most_closure_terms }
    ensures step { IsStep sig.now table.old table.new }
    ensures long { IfOk result (λ marks. length marks.items ≡ length table.new) }
    ensures taken { IfOk result (λ marks. IsUnderWay sig.now table.new marks.items) }
    ensures few { OnOk result (length table.new ≤ most_closure_terms) }
    ensures large { IsErrOf result CloseError.TooLarge → most_closure_terms < length table.new }
{
    let mut marks = Vec::new(alloc);
    go_on(alloc, sig, sizes, table, &mut marks)?;
    Ok(marks)
}

/// Goes on with the terms of the table that are not taken yet, which come after as many as there are marks.
pub(crate) fn go_on(
    alloc: Global,
    sig: &Signature,
    sizes: &Sizes,
    table: &mut TermTable,
    marks: &mut Vec<bool>,
) -> Result<(), CloseError>
    requires sizes { AreSizes sig.now sizes.now }
    requires sound { IsSound sig.now table.old }
    requires few { length table.old ≤ most_closure_terms }
    requires within { length marks.old.items ≤ length table.old }
    requires under_way { IsUnderWay sig.now table.old marks.old.items }
    ensures step { IsStep sig.now table.old table.new }
    ensures long { OnOk result (length marks.new.items ≡ length table.new) }
    ensures taken { OnOk result (IsUnderWay sig.now table.new marks.new.items) }
    ensures few { OnOk result (length table.new ≤ most_closure_terms) }
    ensures large { IsErrOf result CloseError.TooLarge → most_closure_terms < length table.new }
{
    while marks.len() < table.len() as usize {
        take_next(alloc, sig, sizes, table, marks)?;
    }
    Ok(())
}

// Takes the next term.
fn take_next(
    alloc: Global,
    sig: &Signature,
    sizes: &Sizes,
    table: &mut TermTable,
    marks: &mut Vec<bool>,
) -> Result<(), CloseError>
    requires sizes { AreSizes sig.now sizes.now }
    requires sound { IsSound sig.now table.old }
    requires few { length table.old ≤ most_closure_terms }
    requires within { length marks.old.items < length table.old }
    requires under_way { IsUnderWay sig.now table.old marks.old.items }
    ensures step { IsStep sig.now table.old table.new }
    ensures long { OnOk result (length marks.new.items ≡ length marks.old.items + 1) }
    ensures under_way { OnOk result (IsUnderWay sig.now table.new marks.new.items) }
    ensures few { OnOk result (length table.new ≤ most_closure_terms) }
    ensures large { IsErrOf result CloseError.TooLarge → most_closure_terms < length table.new }
{
    let t = TermId(marks.len() as u32);
    marks.push(false)?;
    take_conditional(sig, table, t)?;
    take_argument(alloc, sig, table, marks, t)?;
    take_finite(alloc, sig, sizes, table, marks, t)?;
    Ok(())
}

// Adds the equations of a conditional that is no formula with both of its branches.
fn take_conditional(sig: &Signature, table: &mut TermTable, t: TermId) -> Result<(), CloseError>
    requires sound { IsSound sig.now table.old }
    requires few { length table.old ≤ most_closure_terms }
    requires within { t.0 < length table.old }
    ensures step { IsStep sig.now table.old table.new }
    ensures taken { OnOk result (IsConditionalTaken table.new t) }
    ensures few { OnOk result (length table.new ≤ most_closure_terms) }
    ensures large { IsErrOf result CloseError.TooLarge → most_closure_terms < length table.new }
{
    trees();
    if table.sort(t) == BOOL {
        return Ok(());
    }
    let Core::Ite(_, a, b) = table.core(t) else {
        return Ok(());
    };
    let (a, b) = (*a, *b);
    add(sig, table, Core::Eq(t, a))?;
    add(sig, table, Core::Eq(t, b))?;
    Ok(())
}

// Adds the cases of the argument of a selection or a test.
fn take_argument(
    alloc: Global,
    sig: &Signature,
    table: &mut TermTable,
    marks: &mut Vec<bool>,
    t: TermId,
) -> Result<(), CloseError>
    requires sound { IsSound sig.now table.old }
    requires few { length table.old ≤ most_closure_terms }
    requires within { t.0 < length table.old }
    requires long { t.0 < length marks.old.items }
    requires marked { AreMarked sig.now table.old marks.old.items }
    ensures step { IsStep sig.now table.old table.new }
    ensures marks { OnOk result (HasMarks sig.now table.new marks.old.items marks.new.items) }
    ensures taken { OnOk result (IsArgumentTaken sig.now table.new marks.new.items t) }
    ensures few { OnOk result (length table.new ≤ most_closure_terms) }
    ensures large { IsErrOf result CloseError.TooLarge → most_closure_terms < length table.new }
{
    let Some(x) = argument(table, t) else {
        return Ok(());
    };
    if !is_open(sig, table, x) {
        return Ok(());
    }
    mark(alloc, sig, table, marks, x)?;
    Ok(())
}

// Adds the cases of a term whose sort has more than one and finitely many values.
fn take_finite(
    alloc: Global,
    sig: &Signature,
    sizes: &Sizes,
    table: &mut TermTable,
    marks: &mut Vec<bool>,
    t: TermId,
) -> Result<(), CloseError>
    requires sizes { AreSizes sig.now sizes.now }
    requires sound { IsSound sig.now table.old }
    requires few { length table.old ≤ most_closure_terms }
    requires within { t.0 < length table.old }
    requires long { t.0 < length marks.old.items }
    requires marked { AreMarked sig.now table.old marks.old.items }
    ensures step { IsStep sig.now table.old table.new }
    ensures marks { OnOk result (HasMarks sig.now table.new marks.old.items marks.new.items) }
    ensures taken { OnOk result (IsFiniteTaken sig.now table.new marks.new.items t) }
    ensures few { OnOk result (length table.new ≤ most_closure_terms) }
    ensures large { IsErrOf result CloseError.TooLarge → most_closure_terms < length table.new }
{
    if !is_open(sig, table, t) {
        return Ok(());
    }
    if !is_finite(sig, sizes, table.sort(t)) {
        return Ok(());
    }
    mark(alloc, sig, table, marks, t)?;
    Ok(())
}

// Adds the cases of a term that is split and marks it, where it is not marked.
fn mark(
    alloc: Global,
    sig: &Signature,
    table: &mut TermTable,
    marks: &mut Vec<bool>,
    t: TermId,
) -> Result<(), CloseError>
    requires sound { IsSound sig.now table.old }
    requires few { length table.old ≤ most_closure_terms }
    requires split { (sort : SortId) × IsSplitTerm sig.now table.old t sort }
    requires long { t.0 < length marks.old.items }
    requires marked { AreMarked sig.now table.old marks.old.items }
    ensures step { IsStep sig.now table.old table.new }
    ensures marks { OnOk result (HasMarks sig.now table.new marks.old.items marks.new.items) }
    ensures marked { OnOk result (IsMarked marks.new.items t) }
    ensures few { OnOk result (length table.new ≤ most_closure_terms) }
    ensures large { IsErrOf result CloseError.TooLarge → most_closure_terms < length table.new }
{
    if marks[t.0 as usize] {
        return Ok(());
    }
    add_cases(alloc, sig, table, t)?;
    marks[t.0 as usize] = true;
    Ok(())
}

// The argument of a selection or a test.
fn argument(table: &TermTable, t: TermId) -> Option<TermId>
    requires within { t.0 < length table.now }
    ensures value { (x : TermId) → (result ≡ Some x) ↔ IsArgumentOf table.now x t }
{
    match table.core(t) {
        Core::Sel(_, x) => Some(*x),
        Core::Test(_, x) => Some(*x),
        _ => None,
    }
}

// Whether the term is of a datatype or codatatype, and no constructor term.
fn is_open(sig: &Signature, table: &TermTable, t: TermId) -> bool
    requires sound { IsSound sig.now table.now }
    requires within { t.0 < length table.now }
    ensures unsettled { IsTrue result ↔ ((sort : SortId) × IsOpen sig.now table.now t sort) }
{
    declared(sig);
    if let Core::Con(_, _) = table.core(t) {
        return false;
    }
    is_structured(sig, table.sort(t))
}

// Whether the sort is a datatype or a codatatype.
fn is_structured(sig: &Signature, s: SortId) -> bool
    requires inside { IsSort sig.now s }
    ensures structured { IsTrue result ↔ IsStructured sig.now s }
{
    match sig.kind(s) {
        Kind::Data => true,
        Kind::Codata => true,
        _ => false,
    }
}

// Whether the sort has more than one and finitely many values.
fn is_finite(sig: &Signature, sizes: &Sizes, s: SortId) -> bool
    requires sizes { AreSizes sig.now sizes.now }
    requires inside { IsSort sig.now s }
    ensures finite { IsTrue result ↔ HasSize sig.now s.0 Finite }
{
    unique_sizes();
    sizes.size_of(s) == Size::Finite
}
