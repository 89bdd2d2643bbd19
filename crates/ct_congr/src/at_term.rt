//! The merges that the rules of one term ask for, using the constructor terms that are stored for classes.
ghost use Rattle.std.specs.Prelude.{◌≡◌, ◌<◌, ◌↔◌, length, OnOk, Some};
ghost use Rattle.ct_sorts.specs.Declarations.{Declarations, IsConstructor, IsSelector};
ghost use Rattle.ct_terms.specs.declared.ids.TermId.{TermId};
ghost use Rattle.ct_terms.specs.declared.term.Core.TheVariants.{Sel, Test, Eq, Not};
ghost use Rattle.ct_terms.specs.Terms.{Has, AreSorted};
ghost use Rattle.ct_rules.specs.Rules.{IsSelection, IsTesting, IsExpansion, IsEquationIn, IsEquationOut, IsNegation};
ghost use Rattle.ct_congr.specs.Partition.{InOneClass};
ghost use Rattle.ct_congr.specs.Joined.{AreJoined, WaitsOn};
ghost use Rattle.ct_congr.specs.Covered.{HasCon, IsGrouped, IsCoveredAt, IsArgument};

use crate::constructors::is_built_by;
use crate::error::CongrError;
use crate::merge::{Merge, Reason};
use crate::needed::are_equal;
use crate::rules::{argument_at, expansion, truth};
use crate::waiting::{TRUE, con_at, is_true, let_wait, truth_of};
use ct_sorts::{CtorId, SelId, Signature};
use ct_terms::{Core, TermId, TermTable};
use std::alloc::Global;
use std::collections::VecDeque;

/// What the rules ask for that begin at the term.
pub(crate) fn at_term(
    alloc: Global,
    sig: &Signature,
    table: &TermTable,
    reps: &[TermId],
    cons: &[Option<TermId>],
    t: TermId,
    waiting: &mut VecDeque<Merge>,
) -> Result<(), CongrError>
    requires sorted { AreSorted sig.now table.now }
    requires grouped { IsGrouped table.now reps.now cons.now }
    requires inside { t.0 < length table.now }
    ensures waits { OnOk result (WaitsOn sig.now table.now reps.now waiting.old.items waiting.new.items) }
    ensures covered { OnOk result (IsCoveredAt sig.now table.now (InOneClass reps.now) (HasCon reps.now cons.now) (AreJoined reps.now waiting.new.items) t) }
{
    match table.core(t) {
        Core::Sel(s, u) => {
            select_at(sig, table, reps, cons, t, *s, *u, waiting)?;
            Ok(())
        }
        Core::Test(c, u) => {
            test_at(table, reps, cons, t, *c, *u, waiting)?;
            expand_at(alloc, sig, table, reps, cons, t, *c, *u, waiting)?;
            Ok(())
        }
        Core::Eq(a, b) => {
            equal_in_at(table, reps, t, *a, *b, waiting)?;
            equal_out_at(table, reps, cons, t, *a, *b, waiting)?;
            Ok(())
        }
        Core::Not(a) => {
            negate_at(table, reps, cons, t, *a, waiting)?;
            Ok(())
        }
        _ => Ok(()),
    }
}

// The merge of a selection with the argument of the constructor term in the class of what is selected
// from.
fn select_at(
    sig: &Signature,
    table: &TermTable,
    reps: &[TermId],
    cons: &[Option<TermId>],
    t: TermId,
    s: SelId,
    u: TermId,
    waiting: &mut VecDeque<Merge>,
) -> Result<(), CongrError>
    requires grouped { IsGrouped table.now reps.now cons.now }
    requires stands { Has table.now (Sel s u) t.0 }
    requires selector { IsSelector sig.now s }
    requires inside { u.0 < length table.now }
    ensures waits { OnOk result (WaitsOn sig.now table.now reps.now waiting.old.items waiting.new.items) }
    ensures covered { OnOk result ((y : TermId) → IsSelection sig.now table.now (HasCon reps.now cons.now) t y → AreJoined reps.now waiting.new.items t y) }
{
    let Some(con) = con_at(reps, cons, u) else {
        return Ok(());
    };
    if !is_built_by(table, con, sig.sel_ctor(s)) {
        return Ok(());
    }
    let Some(argument) = argument_of(table, con, sig.sel_place(s)) else {
        return Ok(());
    };
    let_wait(reps, waiting, t, argument, Reason::Sel(t, con))?;
    Ok(())
}

// The argument of the constructor term at the place.
fn argument_of(table: &TermTable, con: TermId, place: u32) -> Option<TermId>
    requires inside { con.0 < length table.now }
    ensures value { (y : TermId) → (result ≡ Some y) ↔ IsArgument table.now con place y }
    ensures inside { (y : TermId) → result ≡ Some y → y.0 < length table.now }
{
    match table.core(con) {
        Core::Con(_, args) => argument_at(args.as_slice(), place as usize),
        _ => None,
    }
}

// The merge of a test with `true` or `false`, where the class of what is tested has a constructor term.
fn test_at(
    table: &TermTable,
    reps: &[TermId],
    cons: &[Option<TermId>],
    t: TermId,
    c: CtorId,
    u: TermId,
    waiting: &mut VecDeque<Merge>,
) -> Result<(), CongrError>
    requires grouped { IsGrouped table.now reps.now cons.now }
    requires stands { Has table.now (Test c u) t.0 }
    requires inside { u.0 < length table.now }
    ensures waits { OnOk result ((d : Declarations) → WaitsOn d table.now reps.now waiting.old.items waiting.new.items) }
    ensures covered { OnOk result ((y : TermId) → IsTesting table.now (HasCon reps.now cons.now) t y → AreJoined reps.now waiting.new.items t y) }
{
    prove!(table.len() >= 2);
    let Some(con) = con_at(reps, cons, u) else {
        return Ok(());
    };
    let value = is_built_by(table, con, c);
    let_wait(reps, waiting, t, truth(value), Reason::Test(t, con))?;
    Ok(())
}

// The merge of a negation with `false` or `true`, where the class of the negated term has a truth value.
fn negate_at(
    table: &TermTable,
    reps: &[TermId],
    cons: &[Option<TermId>],
    t: TermId,
    a: TermId,
    waiting: &mut VecDeque<Merge>,
) -> Result<(), CongrError>
    requires grouped { IsGrouped table.now reps.now cons.now }
    requires stands { Has table.now (Not a) t.0 }
    requires inside { a.0 < length table.now }
    ensures waits { OnOk result ((d : Declarations) → WaitsOn d table.now reps.now waiting.old.items waiting.new.items) }
    ensures covered { OnOk result ((y : TermId) → IsNegation table.now (HasCon reps.now cons.now) t y → AreJoined reps.now waiting.new.items t y) }
{
    prove!(table.len() >= 2);
    let Some(con) = con_at(reps, cons, a) else {
        return Ok(());
    };
    let Some(value) = truth_of(con) else {
        return Ok(());
    };
    let_wait(reps, waiting, t, truth(!value), Reason::Neg(t))?;
    Ok(())
}

// The merge of what is tested with the constructor over its selectors, where the test is `true` and the
// table has that term.
fn expand_at(
    alloc: Global,
    sig: &Signature,
    table: &TermTable,
    reps: &[TermId],
    cons: &[Option<TermId>],
    t: TermId,
    c: CtorId,
    u: TermId,
    waiting: &mut VecDeque<Merge>,
) -> Result<(), CongrError>
    requires grouped { IsGrouped table.now reps.now cons.now }
    requires stands { Has table.now (Test c u) t.0 }
    requires constructor { IsConstructor sig.now c }
    requires inside { u.0 < length table.now }
    ensures waits { OnOk result (WaitsOn sig.now table.now reps.now waiting.old.items waiting.new.items) }
    ensures covered { OnOk result ((x y : TermId) (rule : IsExpansion sig.now table.now (HasCon reps.now cons.now) x y) → rule.test ≡ t → AreJoined reps.now waiting.new.items x y) }
{
    if !is_true(reps, cons, t) {
        return Ok(());
    }
    match expansion(alloc, sig, table, c, u)? {
        Some(con) => {
            let_wait(reps, waiting, u, con, Reason::Expand(t, con))?;
            Ok(())
        }
        None => Ok(()),
    }
}

// The merge of an equation with `true`, where its sides are equal.
fn equal_in_at(
    table: &TermTable,
    reps: &[TermId],
    t: TermId,
    a: TermId,
    b: TermId,
    waiting: &mut VecDeque<Merge>,
) -> Result<(), CongrError>
    requires long { length reps.now ≡ length table.now }
    requires stands { Has table.now (Eq a b) t.0 }
    requires left { a.0 < length table.now }
    requires right { b.0 < length table.now }
    ensures waits { OnOk result ((d : Declarations) → WaitsOn d table.now reps.now waiting.old.items waiting.new.items) }
    ensures covered { OnOk result ((y : TermId) → IsEquationIn table.now (InOneClass reps.now) t y → AreJoined reps.now waiting.new.items t y) }
{
    prove!(table.len() >= 2);
    if !are_equal(reps, a, b) {
        return Ok(());
    }
    let_wait(reps, waiting, t, TRUE, Reason::EqualIn(t))?;
    Ok(())
}

// The merge of the sides of an equation that is `true`.
fn equal_out_at(
    table: &TermTable,
    reps: &[TermId],
    cons: &[Option<TermId>],
    t: TermId,
    a: TermId,
    b: TermId,
    waiting: &mut VecDeque<Merge>,
) -> Result<(), CongrError>
    requires grouped { IsGrouped table.now reps.now cons.now }
    requires stands { Has table.now (Eq a b) t.0 }
    requires left { a.0 < length table.now }
    requires right { b.0 < length table.now }
    ensures waits { OnOk result ((d : Declarations) → WaitsOn d table.now reps.now waiting.old.items waiting.new.items) }
    ensures covered { OnOk result ((x y : TermId) (rule : IsEquationOut table.now (HasCon reps.now cons.now) x y) → rule.term ≡ t → AreJoined reps.now waiting.new.items x y) }
{
    if !is_true(reps, cons, t) {
        return Ok(());
    }
    let_wait(reps, waiting, a, b, Reason::EqualOut(t))?;
    Ok(())
}
