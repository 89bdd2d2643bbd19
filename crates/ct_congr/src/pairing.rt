//! Two constructor terms in one class: a clash, or the merges of their arguments.
ghost use Rattle.std.specs.Prelude.{◌≡◌, ◌<◌, ℕ, length, IfOk, OnOk, MatchBool, Some, slice_get};
ghost use Rattle.ct_sorts.specs.Declarations.{Constructor, IsConstructor};
ghost use Rattle.ct_terms.specs.declared.ids.TermId.{TermId};
ghost use Rattle.ct_terms.specs.declared.term.Core.TheVariants.{Con};
ghost use Rattle.ct_terms.specs.Terms.{Terms, Has, AreSorted};
ghost use Rattle.ct_congr.specs.Partition.{InOneClass};
ghost use Rattle.ct_congr.specs.Joined.{AreJoined, WaitsOn};
ghost use Rattle.ct_congr.specs.Step.{IsPairing};

use crate::error::CongrError;
use crate::merge::{Closed, Merge, Reason};
use crate::waiting::let_wait;
use ct_sorts::{CtorId, Signature, structure};
use ct_terms::{Core, TermId, TermTable};
use std::collections::VecDeque;

/// Lets the merges of the arguments of two constructor terms wait. The answer is a clash where they
/// have different constructors.
pub(crate) fn pair(
    sig: &Signature,
    table: &TermTable,
    reps: &[TermId],
    t: TermId,
    u: TermId,
    waiting: &mut VecDeque<Merge>,
) -> Result<Closed, CongrError>
    requires sorted { AreSorted sig.now table.now }
    requires long { length reps.now ≡ length table.now }
    requires left { t.0 < length table.now }
    requires right { u.0 < length table.now }
    requires equal { InOneClass reps.now t u }
    ensures waits { OnOk result (WaitsOn sig.now table.now reps.now waiting.old.items waiting.new.items) }
    ensures paired { IfOk result (IsPairing table.now reps.now (AreJoined reps.now waiting.new.items) t u) }
{
    let Core::Con(c, xs) = table.core(t) else {
        return Ok(Closed::Quiet);
    };
    let Core::Con(k, ys) = table.core(u) else {
        return Ok(Closed::Quiet);
    };
    if !same_constructor(*c, *k) {
        return Ok(Closed::Clash(t, u));
    }
    structure();
    prove!(sig.sorts() > 0);
    pair_arguments(sig, reps, *c, (t, u), xs.as_slice(), ys.as_slice(), waiting)?;
    Ok(Closed::Quiet)
}

/// Whether the two are one constructor.
pub(crate) fn same_constructor(c: CtorId, k: CtorId) -> bool
    ensures value { MatchBool result (c ≡ k) (c ≡ k → ⊥) }
{
    c == k
}

// The merges of the arguments of two equal terms of the constructor, place by place.
fn pair_arguments(
    sig: &Signature,
    reps: &[TermId],
    c: CtorId,
    sides: (TermId, TermId),
    xs: &[TermId],
    ys: &[TermId],
    waiting: &mut VecDeque<Merge>,
) -> Result<(), CongrError>
    requires constructor { IsConstructor sig.now c }
    requires left { (ctor : Constructor) → slice_get sig.now.ctors c.0 ≡ Some ctor → length xs.now ≡ length ctor.sels }
    requires right { (ctor : Constructor) → slice_get sig.now.ctors c.0 ≡ Some ctor → length ys.now ≡ length ctor.sels }
    requires left_inside { (k : ℕ) (x : TermId) → slice_get xs.now k ≡ Some x → x.0 < length reps.now }
    requires right_inside { (k : ℕ) (y : TermId) → slice_get ys.now k ≡ Some y → y.0 < length reps.now }
    ensures waits { OnOk result ((terms : Terms)
        → InOneClass reps.now sides.0 sides.1
        → Has terms (Con c xs.now) sides.0.0
        → Has terms (Con c ys.now) sides.1.0
        → WaitsOn sig.now terms reps.now waiting.old.items waiting.new.items) }
    ensures joined { OnOk result ((k : ℕ) (x y : TermId) → slice_get xs.now k ≡ Some x → slice_get ys.now k ≡ Some y → AreJoined reps.now waiting.new.items x y) }
{
    structure();
    prove!(sig.sorts() > 0);
    for s in sig.ctor_sels(c) {
        let place = sig.sel_place(*s);
        let x = xs[place as usize];
        let y = ys[place as usize];
        let_wait(reps, waiting, x, y, Reason::Inject(sides.0, sides.1, place))?;
    }
    Ok(())
}
