//! The rules that begin at one term: selections, tests, equations and negations.
ghost use Rattle.std.specs.Prelude.{◌≡◌, ◌<◌, [], true, false, List, length, IfOk, IfSome, OnOk, Some, slice_get};
ghost use Rattle.std.specs.List.{AllZip};
ghost use Rattle.ct_sorts.specs.Declarations.{Declarations, Constructor, IsConstructor, IsSelector};
ghost use Rattle.ct_terms.specs.declared.ids.TermId.{TermId};
ghost use Rattle.ct_terms.specs.declared.ids.Lit.{Lit};
ghost use Rattle.ct_terms.specs.declared.term.Core.TheVariants.{Con, Sel, Test, Eq, Not};
ghost use Rattle.ct_terms.specs.Terms.{Has, AreSorted};
ghost use Rattle.ct_rules.specs.Rules.{IsSelected, IsExpansion, IsEquationIn, IsEquationOut, truth_term};
ghost use Rattle.ct_congr.specs.Partition.{InOneClass};
ghost use Rattle.ct_congr.specs.Needed.{AreNeeded};
ghost use Rattle.ct_congr.specs.Index.{IsConIndex};
ghost use Rattle.ct_congr.specs.Rules.{IsInjective, IsClosedAt, AreShapes, IsTestedTrue, IsTestedFalse, IsNegated};

use crate::constructors::{Shape, built_by, different};
use crate::error::CongrError;
use crate::index::TermIndex;
use crate::merge::{Merge, Reason};
use crate::needed::{are_equal, need};
use ct_sorts::{CtorId, SelId, Signature};
use ct_terms::{Args, Core, TermId, TermTable};
use std::alloc::Global;

/// The term `true` and the term `false`, the first two of each table.
const TRUE: TermId = TermId(0);

const FALSE: TermId = TermId(1);

/// The merge of a selection with the argument of a constructor term in the class of what is
/// selected from.
pub(crate) fn select(
    sig: &Signature,
    table: &TermTable,
    reps: &[TermId],
    index: &TermIndex,
    t: TermId,
    s: SelId,
    u: TermId,
    found: &mut Vec<Merge>,
) -> Result<(), CongrError>
    requires sorted { AreSorted sig.now table.now }
    requires long { length reps.now ≡ length table.now }
    requires index { IsConIndex table.now reps.now (length table.now) index.now }
    requires stands { Has table.now (Sel s u) t.0 }
    requires selector { IsSelector sig.now s }
    requires inside { u.0 < length table.now }
    ensures needed { OnOk result ((hyps : List Lit)
        → AreNeeded sig.now table.now hyps reps.now found.old.items
        → AreNeeded sig.now table.now hyps reps.now found.new.items) }
    ensures none { OnOk result (found.new.items ≡ [] → found.old.items ≡ []) }
    ensures closed { OnOk result (found.new.items ≡ []
        → IsInjective table.now (InOneClass reps.now)
        → IsClosedAt sig.now table.now (InOneClass reps.now) t (Sel s u)) }
{
    let Some(con) = built_by(index, reps, sig.sel_ctor(s), u) else {
        return Ok(());
    };
    let Core::Con(_, args) = table.core(con) else {
        return Ok(());
    };
    let Some(argument) = argument_at(args.as_slice(), sig.sel_place(s) as usize) else {
        return Ok(());
    };
    need(reps, found, t, argument, Reason::Sel(t, con))?;
    Ok(())
}

/// The argument at the index.
pub(crate) fn argument_at(args: &[TermId], place: usize) -> Option<TermId>
    ensures value { result ≡ slice_get args.now place }
{
    args.get(place).copied()
}

/// The merge of a test with `true`, where a term of the constructor is in the class of what is
/// tested.
pub(crate) fn test_true(
    table: &TermTable,
    reps: &[TermId],
    index: &TermIndex,
    t: TermId,
    c: CtorId,
    u: TermId,
    found: &mut Vec<Merge>,
) -> Result<(), CongrError>
    requires long { length reps.now ≡ length table.now }
    requires index { IsConIndex table.now reps.now (length table.now) index.now }
    requires stands { Has table.now (Test c u) t.0 }
    requires inside { u.0 < length table.now }
    ensures needed { OnOk result ((d : Declarations) (hyps : List Lit)
        → AreNeeded d table.now hyps reps.now found.old.items
        → AreNeeded d table.now hyps reps.now found.new.items) }
    ensures none { OnOk result (found.new.items ≡ [] → found.old.items ≡ []) }
    ensures closed { OnOk result (found.new.items ≡ [] → IsTestedTrue table.now reps.now t c u) }
{
    prove!(table.len() >= 2);
    match built_by(index, reps, c, u) {
        Some(con) => {
            need(reps, found, t, TRUE, Reason::Test(t, con))?;
            Ok(())
        }
        None => Ok(()),
    }
}

/// The merge of a test with `false`, where a term of another constructor is in the class of what is
/// tested.
pub(crate) fn test_false(
    table: &TermTable,
    reps: &[TermId],
    shapes: &[Shape],
    t: TermId,
    c: CtorId,
    u: TermId,
    found: &mut Vec<Merge>,
) -> Result<(), CongrError>
    requires long { length reps.now ≡ length table.now }
    requires own { (x r : TermId) → slice_get reps.now x.0 ≡ Some r → slice_get reps.now r.0 ≡ Some r }
    requires shapes_long { length shapes.now ≡ length reps.now }
    requires shapes { AreShapes table.now reps.now (length table.now) shapes.now }
    requires stands { Has table.now (Test c u) t.0 }
    requires inside { u.0 < length table.now }
    ensures needed { OnOk result ((d : Declarations) (hyps : List Lit)
        → AreNeeded d table.now hyps reps.now found.old.items
        → AreNeeded d table.now hyps reps.now found.new.items) }
    ensures none { OnOk result (found.new.items ≡ [] → found.old.items ≡ []) }
    ensures closed { OnOk result (found.new.items ≡ [] → IsTestedFalse table.now reps.now t c u) }
{
    prove!(table.len() >= 2);
    let r = reps[u.0 as usize];
    match different(table, shapes[r.0 as usize], c) {
        Some(con) => {
            need(reps, found, t, FALSE, Reason::Test(t, con))?;
            Ok(())
        }
        None => Ok(()),
    }
}

/// The merge of what is tested with the constructor over its selectors, where the test is `true` and
/// the table has that term.
pub(crate) fn expand(
    alloc: Global,
    sig: &Signature,
    table: &TermTable,
    reps: &[TermId],
    t: TermId,
    c: CtorId,
    u: TermId,
    found: &mut Vec<Merge>,
) -> Result<(), CongrError>
    requires long { length reps.now ≡ length table.now }
    requires stands { Has table.now (Test c u) t.0 }
    requires constructor { IsConstructor sig.now c }
    requires inside { u.0 < length table.now }
    ensures needed { OnOk result ((hyps : List Lit)
        → AreNeeded sig.now table.now hyps reps.now found.old.items
        → AreNeeded sig.now table.now hyps reps.now found.new.items) }
    ensures none { OnOk result (found.new.items ≡ [] → found.old.items ≡ []) }
    ensures closed { OnOk result (found.new.items ≡ []
        → (x y : TermId) (rule : IsExpansion sig.now table.now (InOneClass reps.now) x y)
        → rule.test ≡ t → InOneClass reps.now x y) }
{
    prove!(table.len() >= 2);
    if !are_equal(reps, t, TRUE) {
        return Ok(());
    }
    match expansion(alloc, sig, table, c, u)? {
        Some(con) => {
            need(reps, found, u, con, Reason::Expand(t, con))?;
            Ok(())
        }
        None => Ok(()),
    }
}

/// The constructor over its selectors of the term, where the table has it.
pub(crate) fn expansion(
    alloc: Global,
    sig: &Signature,
    table: &TermTable,
    c: CtorId,
    u: TermId,
) -> Result<Option<TermId>, CongrError>
    requires constructor { IsConstructor sig.now c }
    ensures found { IfOk result (λ answer. IfSome answer (λ con. (ctor : Constructor) × (args : List TermId)
        × (slice_get sig.now.ctors c.0 ≡ Some ctor)
        × Has table.now (Con c args) con.0
        × AllZip (IsSelected table.now u) args ctor.sels)) }
    ensures unique { IfOk result (λ answer. (ctor : Constructor) (args : List TermId) (con : TermId)
        → slice_get sig.now.ctors c.0 ≡ Some ctor
        → Has table.now (Con c args) con.0
        → AllZip (IsSelected table.now u) args ctor.sels
        → answer ≡ Some con) }
{
    prove!(table.len() >= 2);
    match selected(alloc, sig, table, c, u)? {
        Some(args) => Ok(table.find(&Core::Con(c, args))),
        None => Ok(None),
    }
}

// The selectors of the constructor on the term, where the table has all of them.
fn selected(
    alloc: Global,
    sig: &Signature,
    table: &TermTable,
    c: CtorId,
    u: TermId,
) -> Result<Option<Args>, CongrError>
    requires constructor { IsConstructor sig.now c }
    ensures found { IfOk result (λ answer. IfSome answer (λ args. (ctor : Constructor)
        → slice_get sig.now.ctors c.0 ≡ Some ctor
        → AllZip (IsSelected table.now u) args ctor.sels)) }
    ensures unique { IfOk result (λ answer. (ctor : Constructor) (args : List TermId)
        → slice_get sig.now.ctors c.0 ≡ Some ctor
        → AllZip (IsSelected table.now u) args ctor.sels
        → answer ≡ Some args) }
{
    prove!(table.len() >= 2);
    let mut args = Args::new(alloc);
    for s in sig.ctor_sels(c) {
        let Some(field) = table.find(&Core::Sel(*s, u)) else {
            return Ok(None);
        };
        args.push(field)?;
    }
    Ok(Some(args))
}

/// The merge of an equation with `true`, where its sides are equal.
pub(crate) fn equal_in(
    table: &TermTable,
    reps: &[TermId],
    t: TermId,
    a: TermId,
    b: TermId,
    found: &mut Vec<Merge>,
) -> Result<(), CongrError>
    requires long { length reps.now ≡ length table.now }
    requires stands { Has table.now (Eq a b) t.0 }
    requires left { a.0 < length table.now }
    requires right { b.0 < length table.now }
    ensures needed { OnOk result ((d : Declarations) (hyps : List Lit)
        → AreNeeded d table.now hyps reps.now found.old.items
        → AreNeeded d table.now hyps reps.now found.new.items) }
    ensures none { OnOk result (found.new.items ≡ [] → found.old.items ≡ []) }
    ensures closed { OnOk result (found.new.items ≡ []
        → (y : TermId) → IsEquationIn table.now (InOneClass reps.now) t y → InOneClass reps.now t y) }
{
    prove!(table.len() >= 2);
    if !are_equal(reps, a, b) {
        return Ok(());
    }
    need(reps, found, t, TRUE, Reason::EqualIn(t))?;
    Ok(())
}

/// The merge of the sides of an equation that is `true`.
pub(crate) fn equal_out(
    table: &TermTable,
    reps: &[TermId],
    t: TermId,
    a: TermId,
    b: TermId,
    found: &mut Vec<Merge>,
) -> Result<(), CongrError>
    requires long { length reps.now ≡ length table.now }
    requires stands { Has table.now (Eq a b) t.0 }
    requires left { a.0 < length table.now }
    requires right { b.0 < length table.now }
    ensures needed { OnOk result ((d : Declarations) (hyps : List Lit)
        → AreNeeded d table.now hyps reps.now found.old.items
        → AreNeeded d table.now hyps reps.now found.new.items) }
    ensures none { OnOk result (found.new.items ≡ [] → found.old.items ≡ []) }
    ensures closed { OnOk result (found.new.items ≡ []
        → (x y : TermId) (rule : IsEquationOut table.now (InOneClass reps.now) x y)
        → rule.term ≡ t → InOneClass reps.now x y) }
{
    prove!(table.len() >= 2);
    if !are_equal(reps, t, TRUE) {
        return Ok(());
    }
    need(reps, found, a, b, Reason::EqualOut(t))?;
    Ok(())
}

/// The merge of a negation with `false` or `true`, where the negated term has this truth value.
pub(crate) fn negate(
    table: &TermTable,
    reps: &[TermId],
    t: TermId,
    a: TermId,
    value: bool,
    found: &mut Vec<Merge>,
) -> Result<(), CongrError>
    requires long { length reps.now ≡ length table.now }
    requires stands { Has table.now (Not a) t.0 }
    requires inside { a.0 < length table.now }
    ensures needed { OnOk result ((d : Declarations) (hyps : List Lit)
        → AreNeeded d table.now hyps reps.now found.old.items
        → AreNeeded d table.now hyps reps.now found.new.items) }
    ensures none { OnOk result (found.new.items ≡ [] → found.old.items ≡ []) }
    ensures closed { OnOk result (found.new.items ≡ [] → IsNegated reps.now t a value) }
{
    prove!(table.len() >= 2);
    if !are_equal(reps, a, truth(value)) {
        return Ok(());
    }
    need(reps, found, t, truth(!value), Reason::Neg(t))?;
    Ok(())
}

/// The term `true` or `false`.
pub(crate) fn truth(value: bool) -> TermId
    ensures value { result ≡ truth_term value }
{
    if value { TRUE } else { FALSE }
}
