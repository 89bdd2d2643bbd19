//! Closes classes, and answers whether a class has two terms of different constructors.
ghost use Rattle.std.specs.Prelude.{◌≡◌, ◌⊎◌, List, length, IfOk, OnOk, IfSome, IfNone, Some, None, slice_get};
ghost use Rattle.ct_terms.specs.declared.ids.TermId.{TermId};
ghost use Rattle.ct_terms.specs.declared.ids.Lit.{Lit};
ghost use Rattle.ct_terms.specs.Terms.{Terms, AreSorted};
ghost use Rattle.ct_rules.specs.declared.equation.Equation.{Equation};
ghost use Rattle.ct_congr.specs.declared.merge.Closed.TheVariants.{Quiet};
ghost use Rattle.ct_congr.specs.Partition.{InOneClass};
ghost use Rattle.ct_congr.specs.Rules.{AreShapes, AreSingleSorts, AreRulesClosed};
ghost use Rattle.ct_congr.specs.State.{IsVerdict};
ghost use Rattle.ct_congr.specs.Sound.{IsSound};
ghost use Rattle.ct_congr.specs.History.{IsFurther};
ghost use Rattle.ct_congr.specs.Kept.{IsKept};

use crate::adding::Progress;
use crate::clash::{note, standing};
use crate::constructors::{Shape, shapes};
use crate::covered::covering;
use crate::error::CongrError;
use crate::merge::Closed;
use crate::running::{is_quiet, run};
use crate::saturate::saturate;
use crate::store::reps;
use ct_sorts::Signature;
use ct_terms::{TermId, TermTable};
use std::alloc::Global;

/// Closes the classes under all rules but uniqueness. The answer says whether a class has two terms of
/// different constructors. After an error the classes are sound, but some rule may apply.
pub(crate) fn settle(
    alloc: Global,
    sig: &Signature,
    table: &TermTable,
    single: &[bool],
    progress: &mut Progress,
) -> Result<Closed, CongrError>
    requires sorted { AreSorted sig.now table.now }
    requires single { AreSingleSorts sig.now single.now }
    requires kept { IsKept sig.now table.now progress.old.store.parts progress.old.keys progress.old.waiting.items progress.old.covered }
    ensures kept { IsKept sig.now table.now progress.new.store.parts progress.new.keys progress.new.waiting.items progress.new.covered }
    ensures further { IsFurther table.now progress.old.store.parts progress.new.store.parts progress.old.store.merges.items progress.new.store.merges.items progress.old.keys progress.new.keys }
    ensures sound { (hyps : List Lit) (given : List Equation)
        → IsSound sig.now table.now hyps given progress.old.store.parts.now.reps progress.old.store.parts.now.cons progress.old.store.merges.items
        → IsSound sig.now table.now hyps given progress.new.store.parts.now.reps progress.new.store.parts.now.cons progress.new.store.merges.items }
    ensures closed { OnOk result (AreRulesClosed sig.now table.now (InOneClass progress.new.store.parts.now.reps)) }
    ensures verdict { IfOk result (IsVerdict table.now progress.new.store.parts.now.reps) }
{
    let answer = settle_or_clash(alloc, sig, table, single, progress)?;
    if is_quiet(answer) {
        return Ok(answer);
    }
    let answer = settle_slowly(alloc, sig, table, single, progress)?;
    Ok(answer)
}

/// The same, but stops where two terms of different constructors meet: then some rule may apply.
pub(crate) fn settle_or_clash(
    alloc: Global,
    sig: &Signature,
    table: &TermTable,
    single: &[bool],
    progress: &mut Progress,
) -> Result<Closed, CongrError>
    requires sorted { AreSorted sig.now table.now }
    requires single { AreSingleSorts sig.now single.now }
    requires kept { IsKept sig.now table.now progress.old.store.parts progress.old.keys progress.old.waiting.items progress.old.covered }
    ensures kept { IsKept sig.now table.now progress.new.store.parts progress.new.keys progress.new.waiting.items progress.new.covered }
    ensures further { IsFurther table.now progress.old.store.parts progress.new.store.parts progress.old.store.merges.items progress.new.store.merges.items progress.old.keys progress.new.keys }
    ensures sound { (hyps : List Lit) (given : List Equation)
        → IsSound sig.now table.now hyps given progress.old.store.parts.now.reps progress.old.store.parts.now.cons progress.old.store.merges.items
        → IsSound sig.now table.now hyps given progress.new.store.parts.now.reps progress.new.store.parts.now.cons progress.new.store.merges.items }
    ensures closed { IfOk result (λ answer. answer ≡ Quiet → AreRulesClosed sig.now table.now (InOneClass progress.new.store.parts.now.reps)) }
    ensures verdict { IfOk result (IsVerdict table.now progress.new.store.parts.now.reps) }
{
    let fast = progress.covered;
    if !fast {
        let answer = settle_or_tell(alloc, sig, table, single, progress)?;
        return Ok(answer);
    }
    covering();
    prove!(table.len() >= 2);
    progress.covered = false;
    let answer = run(alloc, sig, table, progress)?;
    prove!(progress.store.parts.unions() >= 0);
    progress.covered = is_quiet(answer);
    note(&mut progress.clash, answer);
    Ok(answer)
}

// The same where the rules may not be covered: tells the clash that was met last, where it is one still.
fn settle_or_tell(
    alloc: Global,
    sig: &Signature,
    table: &TermTable,
    single: &[bool],
    progress: &mut Progress,
) -> Result<Closed, CongrError>
    requires sorted { AreSorted sig.now table.now }
    requires single { AreSingleSorts sig.now single.now }
    requires kept { IsKept sig.now table.now progress.old.store.parts progress.old.keys progress.old.waiting.items progress.old.covered }
    ensures kept { IsKept sig.now table.now progress.new.store.parts progress.new.keys progress.new.waiting.items progress.new.covered }
    ensures further { IsFurther table.now progress.old.store.parts progress.new.store.parts progress.old.store.merges.items progress.new.store.merges.items progress.old.keys progress.new.keys }
    ensures sound { (hyps : List Lit) (given : List Equation)
        → IsSound sig.now table.now hyps given progress.old.store.parts.now.reps progress.old.store.parts.now.cons progress.old.store.merges.items
        → IsSound sig.now table.now hyps given progress.new.store.parts.now.reps progress.new.store.parts.now.cons progress.new.store.merges.items }
    ensures closed { IfOk result (λ answer. answer ≡ Quiet → AreRulesClosed sig.now table.now (InOneClass progress.new.store.parts.now.reps)) }
    ensures verdict { IfOk result (IsVerdict table.now progress.new.store.parts.now.reps) }
{
    if let Some((a, b)) = standing(table, reps(&progress.store), progress.clash) {
        return Ok(Closed::Clash(a, b));
    }
    let answer = settle_slowly(alloc, sig, table, single, progress)?;
    Ok(answer)
}

// Closes the classes by rounds over all terms, so that a long chain of consequences takes as many rounds.
fn settle_slowly(
    alloc: Global,
    sig: &Signature,
    table: &TermTable,
    single: &[bool],
    progress: &mut Progress,
) -> Result<Closed, CongrError>
    requires sorted { AreSorted sig.now table.now }
    requires single { AreSingleSorts sig.now single.now }
    requires kept { IsKept sig.now table.now progress.old.store.parts progress.old.keys progress.old.waiting.items progress.old.covered }
    ensures kept { IsKept sig.now table.now progress.new.store.parts progress.new.keys progress.new.waiting.items progress.new.covered }
    ensures further { IsFurther table.now progress.old.store.parts progress.new.store.parts progress.old.store.merges.items progress.new.store.merges.items progress.old.keys progress.new.keys }
    ensures sound { (hyps : List Lit) (given : List Equation)
        → IsSound sig.now table.now hyps given progress.old.store.parts.now.reps progress.old.store.parts.now.cons progress.old.store.merges.items
        → IsSound sig.now table.now hyps given progress.new.store.parts.now.reps progress.new.store.parts.now.cons progress.new.store.merges.items }
    ensures closed { OnOk result (AreRulesClosed sig.now table.now (InOneClass progress.new.store.parts.now.reps)) }
    ensures verdict { IfOk result (IsVerdict table.now progress.new.store.parts.now.reps) }
{
    prove!(progress.store.parts.unions() >= 0);
    progress.covered = false;
    saturate(alloc, sig, table, single, &mut progress.store)?;
    let shapes = shapes(alloc, table, reps(&progress.store))?;
    Ok(verdict(shapes.as_slice()))
}

// Two terms of different constructors in one class, by the constructor terms of each class.
fn verdict(shapes: &[Shape]) -> Closed
    ensures verdict { (terms : Terms) (reps : List TermId)
        → length shapes.now ≡ length reps
        → ((x r : TermId) → slice_get reps x.0 ≡ Some r → slice_get reps r.0 ≡ Some r)
        → AreShapes terms reps (length terms) shapes.now
        → IsVerdict terms reps result }
{
    for shape in shapes {
        if let Some((first, other)) = two_constructors(*shape) {
            return Closed::Clash(first, other);
        }
    }
    Closed::Quiet
}

// Two terms of different constructors in a class of this shape.
fn two_constructors(shape: Shape) -> Option<(TermId, TermId)>
    ensures found { IfSome result (λ pair. (shape.first ≡ Some pair.0) × (shape.other ≡ Some pair.1)) }
    ensures none { IfNone result ((shape.first ≡ None) ⊎ (shape.other ≡ None)) }
{
    let Some(first) = shape.first else {
        return None;
    };
    let Some(other) = shape.other else {
        return None;
    };
    Some((first, other))
}
