//! What a split of a term needs: for each constructor of its sort the tester, the fields, and the constructor term over them.
ghost use Rattle.std.specs.Prelude.{◌≡◌, ◌<◌, ◌≤◌, length, OnOk, IfOk, IsErrOf, Contains};
ghost use Rattle.std.specs.List.{AllZip};
ghost use Rattle.ct_sorts.specs.declared.ids.SortId.{SortId};
ghost use Rattle.ct_closure.specs.Closed.{most_closure_terms};
ghost use Rattle.ct_closure.specs.ClosedTable.{IsPresent, IsSplitTerm, IsFieldTerm, HasCase, HasCases};
ghost use Rattle.ct_card.specs.Fields.{sels_of};
ghost use Rattle.ct_closure.specs.Steps.{IsSound, IsStep, IsCaseOf};
ghost use Rattle.ct_terms.specs.declared.term.Core.TheVariants.{Con, Test};

use crate::add::add;
use crate::error::CloseError;
use crate::facts::{declared, trees};
use ct_sorts::{CtorId, SelId, Signature};
use ct_terms::{Args, Core, TermId, TermTable};
use std::alloc::Global;

/// Adds what a split of the term needs.
pub(crate) fn add_cases(
    alloc: Global,
    sig: &Signature,
    table: &mut TermTable,
    t: TermId,
) -> Result<(), CloseError>
    requires sound { IsSound sig.now table.old }
    requires split { (sort : SortId) × IsSplitTerm sig.now table.old t sort }
    requires few { length table.old ≤ most_closure_terms }
    ensures step { IsStep sig.now table.old table.new }
    ensures cases { OnOk result ((sort : SortId) → IsSplitTerm sig.now table.old t sort → HasCases sig.now table.new t sort) }
    ensures few { OnOk result (length table.new ≤ most_closure_terms) }
    ensures large { IsErrOf result CloseError.TooLarge → most_closure_terms < length table.new }
{
    declared(sig);
    let ctors = sig.ctors(table.sort(t));
    for c in ctors {
        add_case(alloc, sig, table, t, *c)?;
    }
    Ok(())
}

// Adds what a split on this constructor needs.
fn add_case(
    alloc: Global,
    sig: &Signature,
    table: &mut TermTable,
    t: TermId,
    c: CtorId,
) -> Result<(), CloseError>
    requires sound { IsSound sig.now table.old }
    requires case { IsCaseOf sig.now table.old t c }
    requires few { length table.old ≤ most_closure_terms }
    ensures step { IsStep sig.now table.old table.new }
    ensures has { OnOk result (HasCase sig.now table.new t c) }
    ensures few { OnOk result (length table.new ≤ most_closure_terms) }
    ensures large { IsErrOf result CloseError.TooLarge → most_closure_terms < length table.new }
{
    add_test(sig, table, t, c)?;
    let args = add_fields(alloc, sig, table, t, c)?;
    add_construction(sig, table, t, c, args)?;
    Ok(())
}

// Adds the test of the term.
fn add_test(sig: &Signature, table: &mut TermTable, t: TermId, c: CtorId) -> Result<(), CloseError>
    requires sound { IsSound sig.now table.old }
    requires case { IsCaseOf sig.now table.old t c }
    ensures step { IsStep sig.now table.old table.new }
    ensures present { OnOk result (IsPresent table.new (Test c t)) }
    ensures few { OnOk result (length table.new ≤ most_closure_terms) }
    ensures large { IsErrOf result CloseError.TooLarge → most_closure_terms < length table.new }
{
    declared(sig);
    trees();
    add(sig, table, Core::Test(c, t))?;
    Ok(())
}

// Adds the fields of the term, in order.
fn add_fields(
    alloc: Global,
    sig: &Signature,
    table: &mut TermTable,
    t: TermId,
    c: CtorId,
) -> Result<Args, CloseError>
    requires sound { IsSound sig.now table.old }
    requires case { IsCaseOf sig.now table.old t c }
    requires few { length table.old ≤ most_closure_terms }
    ensures step { IsStep sig.now table.old table.new }
    ensures fields { IfOk result (λ args. AllZip (IsFieldTerm table.new t) (sels_of sig.now c) args) }
    ensures few { OnOk result (length table.new ≤ most_closure_terms) }
    ensures large { IsErrOf result CloseError.TooLarge → most_closure_terms < length table.new }
{
    declared(sig);
    let mut args = Args::new(alloc);
    let sels = sig.ctor_sels(c);
    for s in sels {
        let field = add_field(sig, table, t, c, *s)?;
        args.push(field)?;
    }
    Ok(args)
}

// Adds a field of the term.
fn add_field(
    sig: &Signature,
    table: &mut TermTable,
    t: TermId,
    c: CtorId,
    s: SelId,
) -> Result<TermId, CloseError>
    requires sound { IsSound sig.now table.old }
    requires case { IsCaseOf sig.now table.old t c }
    requires of_ctor { Contains (sels_of sig.now c) s }
    ensures step { IsStep sig.now table.old table.new }
    ensures field { IfOk result (IsFieldTerm table.new t s) }
    ensures few { OnOk result (length table.new ≤ most_closure_terms) }
    ensures large { IsErrOf result CloseError.TooLarge → most_closure_terms < length table.new }
{
    declared(sig);
    trees();
    let field = add(sig, table, Core::Sel(s, t))?;
    Ok(field)
}

// Adds the constructor term over the fields.
fn add_construction(
    sig: &Signature,
    table: &mut TermTable,
    t: TermId,
    c: CtorId,
    args: Args,
) -> Result<(), CloseError>
    requires sound { IsSound sig.now table.old }
    requires case { IsCaseOf sig.now table.old t c }
    requires fields { AllZip (IsFieldTerm table.old t) (sels_of sig.now c) args }
    ensures step { IsStep sig.now table.old table.new }
    ensures present { OnOk result (IsPresent table.new (Con c args)) }
    ensures few { OnOk result (length table.new ≤ most_closure_terms) }
    ensures large { IsErrOf result CloseError.TooLarge → most_closure_terms < length table.new }
{
    declared(sig);
    trees();
    add(sig, table, Core::Con(c, args))?;
    Ok(())
}
