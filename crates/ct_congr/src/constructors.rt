//! Constructor terms by their classes, and the rule that constructors are injective.
ghost use Rattle.std.specs.Prelude.{◌≡◌, ◌<◌, ◌+◌, [], ℕ, List, length, IfOk, OnOk, IfSome, IfNone, MatchBool, Some, None, slice_get};
ghost use Rattle.ct_sorts.specs.declared.ids.CtorId.{CtorId};
ghost use Rattle.ct_sorts.specs.Declarations.{Constructor, IsConstructor};
ghost use Rattle.ct_terms.specs.declared.ids.TermId.{TermId};
ghost use Rattle.ct_terms.specs.declared.ids.Lit.{Lit};
ghost use Rattle.ct_terms.specs.declared.term.Core.TheVariants.{Con};
ghost use Rattle.ct_terms.specs.Terms.{Terms, Has, AreSorted};
ghost use Rattle.ct_congr.specs.Partition.{InOneClass};
ghost use Rattle.ct_congr.specs.Needed.{AreNeeded};
ghost use Rattle.ct_congr.specs.Index.{IsConIndex, IsInjectedAt};
ghost use Rattle.ct_congr.specs.Rules.{IsInjective, IsBuiltIn, IsShape, AreShapes};

use crate::error::CongrError;
use crate::index::{TermIndex, enter, known};
use crate::merge::{Merge, Reason};
use crate::needed::need;
use ct_sorts::{CtorId, Signature, structure};
use ct_terms::{Core, TermId, TermTable};
use std::alloc::Global;

/// The constructor terms of a class: the first one, and one with another constructor.
#[derive(Clone, Copy, Debug)]
pub(crate) struct Shape {
    pub(crate) first: Option<TermId>,
    pub(crate) other: Option<TermId>,
}

/// The constructor of the term, if it is a constructor term.
pub(crate) fn constructor_of(table: &TermTable, t: TermId) -> Option<CtorId>
    requires inside { t.0 < length table.now }
    ensures built { IfSome result (λ c. (args : List TermId) × Has table.now (Con c args) t.0) }
    ensures other { IfNone result ((c : CtorId) (args : List TermId) → Has table.now (Con c args) t.0 → ⊥) }
{
    match table.core(t) {
        Core::Con(c, _) => Some(*c),
        _ => None,
    }
}

/// A term of each constructor in each class, where there is one.
pub(crate) fn constructor_index(
    alloc: Global,
    table: &TermTable,
    reps: &[TermId],
) -> Result<TermIndex, CongrError>
    requires long { length reps.now ≡ length table.now }
    ensures index { IfOk result (IsConIndex table.now reps.now (length table.now)) }
{
    let mut index = TermIndex::new(alloc);
    for t in 0..table.len() {
        index_term(table, reps, &mut index, TermId(t))?;
    }
    Ok(index)
}

// Puts the next term under its constructor and class, if it is a constructor term.
fn index_term(
    table: &TermTable,
    reps: &[TermId],
    index: &mut TermIndex,
    t: TermId,
) -> Result<(), CongrError>
    requires long { length reps.now ≡ length table.now }
    requires inside { t.0 < length table.now }
    ensures index { OnOk result (IsConIndex table.now reps.now t.0 index.old → IsConIndex table.now reps.now (t.0 + 1) index.new) }
{
    match constructor_of(table, t) {
        Some(c) => {
            enter(index, Core::Test(c, reps[t.0 as usize]), t)?;
            Ok(())
        }
        None => Ok(()),
    }
}

/// A term of the constructor in the class of the term.
pub(crate) fn built_by(index: &TermIndex, reps: &[TermId], c: CtorId, u: TermId) -> Option<TermId>
    requires inside { u.0 < length reps.now }
    ensures found { IfSome result (λ con. (terms : Terms) (n : ℕ)
        → IsConIndex terms reps.now n index.now
        → (args : List TermId) × Has terms (Con c args) con.0 × InOneClass reps.now u con) }
    ensures none { IfNone result ((terms : Terms) (n : ℕ) (t : TermId) (args : List TermId)
        → IsConIndex terms reps.now n index.now
        → t.0 < n
        → Has terms (Con c args) t.0
        → InOneClass reps.now u t
        → ⊥) }
{
    known(index, &Core::Test(c, reps[u.0 as usize]))
}

/// The merges that injectivity asks for: the arguments of each constructor term with those of the
/// term of its constructor and class.
pub(crate) fn injections(
    sig: &Signature,
    table: &TermTable,
    reps: &[TermId],
    index: &TermIndex,
    found: &mut Vec<Merge>,
) -> Result<(), CongrError>
    requires sorted { AreSorted sig.now table.now }
    requires long { length reps.now ≡ length table.now }
    requires index { IsConIndex table.now reps.now (length table.now) index.now }
    ensures needed { OnOk result ((hyps : List Lit)
        → AreNeeded sig.now table.now hyps reps.now found.old.items
        → AreNeeded sig.now table.now hyps reps.now found.new.items) }
    ensures closed { OnOk result (found.new.items ≡ [] → (found.old.items ≡ []) × IsInjective table.now (InOneClass reps.now)) }
{
    for t in 0..table.len() {
        inject(sig, table, reps, index, TermId(t), found)?;
    }
    Ok(())
}

// The same for one term.
fn inject(
    sig: &Signature,
    table: &TermTable,
    reps: &[TermId],
    index: &TermIndex,
    t: TermId,
    found: &mut Vec<Merge>,
) -> Result<(), CongrError>
    requires sorted { AreSorted sig.now table.now }
    requires long { length reps.now ≡ length table.now }
    requires index { IsConIndex table.now reps.now (length table.now) index.now }
    requires inside { t.0 < length table.now }
    ensures needed { OnOk result ((hyps : List Lit)
        → AreNeeded sig.now table.now hyps reps.now found.old.items
        → AreNeeded sig.now table.now hyps reps.now found.new.items) }
    ensures closed { OnOk result (found.new.items ≡ [] → (found.old.items ≡ []) × IsInjectedAt table.now reps.now index.now t) }
{
    let Core::Con(c, xs) = table.core(t) else {
        return Ok(());
    };
    let Some(first) = known(index, &Core::Test(*c, reps[t.0 as usize])) else {
        return Ok(());
    };
    let Core::Con(_, ys) = table.core(first) else {
        return Ok(());
    };
    structure();
    prove!(sig.sorts() > 0);
    inject_arguments(
        sig,
        reps,
        *c,
        (t, first),
        xs.as_slice(),
        ys.as_slice(),
        found,
    )?;
    Ok(())
}

// The merges of the arguments of two equal terms of the constructor, place by place.
fn inject_arguments(
    sig: &Signature,
    reps: &[TermId],
    c: CtorId,
    sides: (TermId, TermId),
    xs: &[TermId],
    ys: &[TermId],
    found: &mut Vec<Merge>,
) -> Result<(), CongrError>
    requires constructor { IsConstructor sig.now c }
    requires left { (ctor : Constructor) → slice_get sig.now.ctors c.0 ≡ Some ctor → length xs.now ≡ length ctor.sels }
    requires right { (ctor : Constructor) → slice_get sig.now.ctors c.0 ≡ Some ctor → length ys.now ≡ length ctor.sels }
    requires left_inside { (k : ℕ) (x : TermId) → slice_get xs.now k ≡ Some x → x.0 < length reps.now }
    requires right_inside { (k : ℕ) (y : TermId) → slice_get ys.now k ≡ Some y → y.0 < length reps.now }
    ensures needed { OnOk result ((terms : Terms) (hyps : List Lit)
        → InOneClass reps.now sides.0 sides.1
        → Has terms (Con c xs.now) sides.0.0
        → Has terms (Con c ys.now) sides.1.0
        → AreNeeded sig.now terms hyps reps.now found.old.items
        → AreNeeded sig.now terms hyps reps.now found.new.items) }
    ensures closed { OnOk result (found.new.items ≡ [] → (found.old.items ≡ [])
        × ((k : ℕ) (x y : TermId) → slice_get xs.now k ≡ Some x → slice_get ys.now k ≡ Some y → InOneClass reps.now x y)) }
{
    structure();
    prove!(sig.sorts() > 0);
    for s in sig.ctor_sels(c) {
        let place = sig.sel_place(*s);
        let x = xs[place as usize];
        let y = ys[place as usize];
        need(reps, found, x, y, Reason::Inject(sides.0, sides.1, place))?;
    }
    Ok(())
}

/// Whether the term is of the constructor.
pub(crate) fn is_built_by(table: &TermTable, t: TermId, c: CtorId) -> bool
    requires inside { t.0 < length table.now }
    ensures value { MatchBool result ((args : List TermId) × Has table.now (Con c args) t.0)
        ((args : List TermId) → Has table.now (Con c args) t.0 → ⊥) }
{
    match table.core(t) {
        Core::Con(k, _) => *k == c,
        _ => false,
    }
}

/// The constructor terms of each class.
pub(crate) fn shapes(
    alloc: Global,
    table: &TermTable,
    reps: &[TermId],
) -> Result<Vec<Shape>, CongrError>
    requires long { length reps.now ≡ length table.now }
    requires own { (x r : TermId) → slice_get reps.now x.0 ≡ Some r → slice_get reps.now r.0 ≡ Some r }
    ensures long { IfOk result (λ shapes. length shapes.items ≡ length reps.now) }
    ensures shapes { IfOk result (λ shapes. AreShapes table.now reps.now (length table.now) shapes.items) }
{
    let none = Shape {
        first: None,
        other: None,
    };
    let mut shapes = vec![in alloc; none; reps.len()]?;
    for t in 0..table.len() {
        note(table, reps, &mut shapes, TermId(t));
    }
    Ok(shapes)
}

// Takes the next term into the shape of its class.
fn note(table: &TermTable, reps: &[TermId], shapes: &mut Vec<Shape>, t: TermId)
    requires long { length reps.now ≡ length table.now }
    requires own { (x r : TermId) → slice_get reps.now x.0 ≡ Some r → slice_get reps.now r.0 ≡ Some r }
    requires shapes_long { length shapes.old.items ≡ length reps.now }
    requires inside { t.0 < length table.now }
    requires shapes { AreShapes table.now reps.now t.0 shapes.old.items }
    ensures long { length shapes.new.items ≡ length reps.now }
    ensures shapes { AreShapes table.now reps.now (t.0 + 1) shapes.new.items }
{
    match constructor_of(table, t) {
        Some(c) => {
            let r = reps[t.0 as usize];
            let shape = with_term(table, shapes[r.0 as usize], c, t);
            shapes[r.0 as usize] = shape;
        }
        None => {}
    }
}

// The shape of a class with one more term of the constructor.
fn with_term(table: &TermTable, shape: Shape, c: CtorId, t: TermId) -> Shape
    requires inside { (f : TermId) → shape.first ≡ Some f → f.0 < length table.now }
    ensures value { (reps : List TermId) (r : TermId)
        → IsShape table.now reps t.0 r shape
        → IsBuiltIn table.now reps r c t
        → IsShape table.now reps (t.0 + 1) r result }
{
    let Some(first) = shape.first else {
        return Shape {
            first: Some(t),
            other: None,
        };
    };
    if shape.other.is_some() || is_built_by(table, first, c) {
        return shape;
    }
    Shape {
        first: Some(first),
        other: Some(t),
    }
}

/// A constructor term of a class with this shape whose constructor is another one.
pub(crate) fn different(table: &TermTable, shape: Shape, c: CtorId) -> Option<TermId>
    requires inside { (f : TermId) → shape.first ≡ Some f → f.0 < length table.now }
    ensures found { IfSome result (λ t. (reps : List TermId) (n : ℕ) (r : TermId)
        → IsShape table.now reps n r shape
        → (k : CtorId) × IsBuiltIn table.now reps r k t × (c ≡ k → ⊥)) }
    ensures none { IfNone result ((reps : List TermId) (n : ℕ) (r : TermId) (k : CtorId) (t : TermId)
        → IsShape table.now reps n r shape
        → t.0 < n
        → IsBuiltIn table.now reps r k t
        → c ≡ k) }
{
    let Some(first) = shape.first else {
        return None;
    };
    if is_built_by(table, first, c) {
        return shape.other;
    }
    Some(first)
}
