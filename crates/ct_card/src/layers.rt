//! For each sort how its second value differs from its default value, and for each infinite sort a layer of its values.
ghost use Rattle.std.specs.Prelude.{◌≡◌, ◌≤◌, ℕ, false, List, Some, length, slice_get, IfOk, OnOk, MatchOption};
ghost use Rattle.ct_sorts.specs.Declarations.{Declarations, IsSort, IsConstructor};
ghost use Rattle.ct_card.specs.Fields.{ctor_fields, ctors_of};
ghost use Rattle.ct_card.specs.Rules.{IsDerived};
ghost use Rattle.ct_card.specs.Ranked.{AreSeveral, AreSmall};
ghost use Rattle.ct_card.specs.Defaults.{AreChosen, is_free_sort};
ghost use Rattle.ct_card.specs.Departures.{IsDeparture, HasNoDeparture, IsDigitField, IsLargeStep, HasSmallFields};
ghost use Rattle.ct_card.specs.Extended.{AreGrownBy, IsLayerOf, IsSecond};

use crate::choice::rank_of;
use crate::defaults::is_free;
use crate::departure::{Departure, Layer, Step, departure_from};
use crate::error::CardError;
use crate::fields::push_fields;
use ct_sorts::{CtorId, Signature, SortId, structure};
use std::alloc::Global;

/// For each further sort how its second value departs from its default value, whose constructors are these.
pub(crate) fn push_seconds(
    alloc: Global,
    sig: &Signature,
    several: &[usize],
    ctors: &[CtorId],
    all: &mut Vec<Departure>,
) -> Result<(), CardError>
    requires several { AreSeveral sig.now several.now }
    requires chosen { (ranks : List ℕ) × AreChosen sig.now ranks ctors.now }
    requires few { length all.old.items ≤ length sig.now.sorts }
    ensures long { OnOk result (length all.new.items ≡ length sig.now.sorts) }
    ensures seconds { OnOk result (AreGrownBy (IsSecond sig.now several.now ctors.now) all.old.items all.new.items) }
{
    structure();
    let sorts = sig.sorts();
    for s in all.len() as u32..sorts {
        all.push(second(alloc, sig, several, SortId(s), ctors[s as usize])?)?;
    }
    Ok(())
}

// How the second value of the sort departs from its default value of this constructor.
fn second(
    alloc: Global,
    sig: &Signature,
    several: &[usize],
    s: SortId,
    c: CtorId,
) -> Result<Departure, CardError>
    requires inside { IsSort sig.now s }
    requires several { AreSeveral sig.now several.now }
    requires listed { is_free_sort sig.now s.0 ≡ false → (index : ℕ) × (slice_get (ctors_of sig.now s.0) index ≡ Some c) }
    ensures departs { IfOk result (λ found. is_free_sort sig.now s.0 ≡ false → IsDeparture sig.now several.now s.0 c found) }
    ensures some { IfOk result (λ found. is_free_sort sig.now s.0 ≡ false → IsDerived several.now s.0 → found ≡ Departure.Nowhere → ⊥) }
{
    structure();
    prove!(sig.sorts() > 0);
    if is_free(sig.kind(s)) {
        return Ok(Departure::Nowhere);
    }
    let mut fields = Vec::new(alloc);
    push_fields(sig, c, &mut fields)?;
    Ok(departure_from(sig, several, &fields, s, c, fields.len()))
}

/// For each further infinite sort with constructors a layer of its values.
pub(crate) fn push_layers(
    alloc: Global,
    sig: &Signature,
    several: &[usize],
    small: &[usize],
    all: &mut Vec<Layer>,
) -> Result<(), CardError>
    requires several { AreSeveral sig.now several.now }
    requires small { AreSmall sig.now several.now small.now }
    requires few { length all.old.items ≤ length sig.now.sorts }
    ensures long { OnOk result (length all.new.items ≡ length sig.now.sorts) }
    ensures layers { OnOk result (AreGrownBy (IsLayerOf sig.now several.now) all.old.items all.new.items) }
{
    let sorts = sig.sorts();
    for s in all.len() as u32..sorts {
        all.push(layer(alloc, sig, several, small, SortId(s))?)?;
    }
    Ok(())
}

// A layer of values of the sort, if it is infinite and has constructors, and else any.
fn layer(
    alloc: Global,
    sig: &Signature,
    several: &[usize],
    small: &[usize],
    s: SortId,
) -> Result<Layer, CardError>
    requires inside { IsSort sig.now s }
    requires several { AreSeveral sig.now several.now }
    requires small { AreSmall sig.now several.now small.now }
    ensures layer { IfOk result (IsLayerOf sig.now several.now s.0) }
{
    structure();
    prove!(sig.sorts() > 0);
    match large_step(alloc, sig, several, small, s)? {
        Some(step) => {
            let found = layer_by(alloc, sig, several, s, step)?;
            Ok(found)
        }
        None => Ok(Layer {
            step: Step {
                ctor: CtorId(0),
                place: 0,
                next: 0,
            },
            departure: Departure::Nowhere,
            digit: None,
        }),
    }
}

// The layer with this step.
fn layer_by(
    alloc: Global,
    sig: &Signature,
    several: &[usize],
    s: SortId,
    step: Step,
) -> Result<Layer, CardError>
    requires inside { IsSort sig.now s }
    requires listed { (index : ℕ) × (slice_get (ctors_of sig.now s.0) index ≡ Some step.ctor) }
    ensures step { IfOk result (λ found. found.step ≡ step) }
    ensures departs { IfOk result (λ found. IsDeparture sig.now several.now s.0 step.ctor found.departure) }
    ensures apart { IfOk result (λ found. (other : Step) → found.departure ≡ Departure.Field other → other.place ≡ step.place → ⊥) }
    ensures nowhere { IfOk result (λ found. found.departure ≡ Departure.Nowhere → HasNoDeparture sig.now several.now s.0 step.ctor step.place) }
    ensures digit { IfOk result (λ found. (digit : Step) → found.digit ≡ Some digit → IsDigitField sig.now several.now step digit) }
{
    structure();
    prove!(sig.sorts() > 0);
    let mut fields = Vec::new(alloc);
    push_fields(sig, step.ctor, &mut fields)?;
    let departure = departure_from(sig, several, &fields, s, step.ctor, step.place);
    let digit = digit_field(sig, several, &fields, step);
    Ok(Layer {
        step,
        departure,
        digit,
    })
}

// The first field beside the step whose sort has several values. The values of an uninterpreted sort tell all of a number.
fn digit_field(sig: &Signature, several: &[usize], fields: &[usize], step: Step) -> Option<Step>
    ensures digit { (d : Declarations) → fields.now ≡ ctor_fields d step.ctor → (digit : Step) → result ≡ Some digit → IsDigitField d several.now step digit }
{
    if is_uninterpreted(sig, step.next) {
        return None;
    }
    for place in 0..fields.len() {
        if place != step.place && rank_of(several, fields[place]) > 0 {
            return Some(Step {
                ctor: step.ctor,
                place,
                next: fields[place],
            });
        }
    }
    None
}

// Whether the number is that of an uninterpreted sort.
fn is_uninterpreted(sig: &Signature, s: usize) -> bool {
    if s >= sig.sorts() as usize {
        return false;
    }
    is_free(sig.kind(SortId(s as u32)))
}

// A step from the sort to a sort that is not small: the first that tells more of a number than that it is not 0, or else
// the first.
fn large_step(
    alloc: Global,
    sig: &Signature,
    several: &[usize],
    small: &[usize],
    s: SortId,
) -> Result<Option<Step>, CardError>
    requires inside { IsSort sig.now s }
    ensures found { IfOk result (λ found. MatchOption found (HasSmallFields sig.now small.now s.0) (IsLargeStep sig.now small.now s.0)) }
{
    if let Some(step) = telling_step(alloc, sig, several, small, s)? {
        return Ok(Some(step));
    }
    first_step(alloc, sig, small, s)
}

// The first step to a sort that is not small which is uninterpreted, or beside which a field may hold a digit.
fn telling_step(
    alloc: Global,
    sig: &Signature,
    several: &[usize],
    small: &[usize],
    s: SortId,
) -> Result<Option<Step>, CardError>
    requires inside { IsSort sig.now s }
    ensures found { IfOk result (λ found. (step : Step) → found ≡ Some step → IsLargeStep sig.now small.now s.0 step) }
{
    let own = sig.ctors(s);
    for c in own {
        if let Some(step) = large_field(alloc, sig, small, *c)? {
            if tells(alloc, sig, several, *c, step)? {
                return Ok(Some(step));
            }
        }
    }
    Ok(None)
}

// Whether the step goes to an uninterpreted sort, or a field of the constructor beside it may hold a digit.
fn tells(
    alloc: Global,
    sig: &Signature,
    several: &[usize],
    c: CtorId,
    step: Step,
) -> Result<bool, CardError>
    requires inside { IsConstructor sig.now c }
{
    let mut fields = Vec::new(alloc);
    push_fields(sig, c, &mut fields)?;
    Ok(is_uninterpreted(sig, step.next) || digit_field(sig, several, &fields, step).is_some())
}

// The first step from the sort to a sort that is not small.
fn first_step(
    alloc: Global,
    sig: &Signature,
    small: &[usize],
    s: SortId,
) -> Result<Option<Step>, CardError>
    requires inside { IsSort sig.now s }
    ensures found { IfOk result (λ found. MatchOption found (HasSmallFields sig.now small.now s.0) (IsLargeStep sig.now small.now s.0)) }
{
    let own = sig.ctors(s);
    for c in own {
        if let Some(step) = large_field(alloc, sig, small, *c)? {
            return Ok(Some(step));
        }
    }
    Ok(None)
}

// The step by a field of the constructor whose sort is not small: the first that is uninterpreted, or else the first of the
// sort itself, each layer of which may hold a digit, or else the first.
fn large_field(
    alloc: Global,
    sig: &Signature,
    small: &[usize],
    c: CtorId,
) -> Result<Option<Step>, CardError>
    requires inside { IsConstructor sig.now c }
    ensures found { IfOk result (λ found. MatchOption found
        ((k t : ℕ) → slice_get (ctor_fields sig.now c) k ≡ Some t → IsDerived small.now t)
        (λ step. (step.ctor ≡ c) × (slice_get (ctor_fields sig.now c) step.place ≡ Some step.next) × (IsDerived small.now step.next → ⊥))) }
{
    let mut fields = Vec::new(alloc);
    push_fields(sig, c, &mut fields)?;
    if let Some(step) = free_field(sig, small, &fields, c) {
        return Ok(Some(step));
    }
    if let Some(step) = own_field(small, &fields, c, sig.ctor_sort(c)) {
        return Ok(Some(step));
    }
    Ok(first_large(small, &fields, c))
}

// The step by the first field of an uninterpreted sort.
fn free_field(sig: &Signature, small: &[usize], fields: &[usize], c: CtorId) -> Option<Step>
    ensures found { (step : Step) → result ≡ Some step → (step.ctor ≡ c) × (slice_get fields.now step.place ≡ Some step.next) × (IsDerived small.now step.next → ⊥) }
{
    for place in 0..fields.len() {
        if rank_of(small, fields[place]) == 0 && is_uninterpreted(sig, fields[place]) {
            return Some(Step {
                ctor: c,
                place,
                next: fields[place],
            });
        }
    }
    None
}

// The step by the first field of the sort itself, if that is not small.
fn own_field(small: &[usize], fields: &[usize], c: CtorId, s: SortId) -> Option<Step>
    ensures found { (step : Step) → result ≡ Some step → (step.ctor ≡ c) × (slice_get fields.now step.place ≡ Some step.next) × (IsDerived small.now step.next → ⊥) }
{
    for place in 0..fields.len() {
        if rank_of(small, fields[place]) == 0 && fields[place] == s.0 as usize {
            return Some(Step {
                ctor: c,
                place,
                next: fields[place],
            });
        }
    }
    None
}

// The step by the first field whose sort is not small.
fn first_large(small: &[usize], fields: &[usize], c: CtorId) -> Option<Step>
    ensures found { MatchOption result
        ((k t : ℕ) → slice_get fields.now k ≡ Some t → IsDerived small.now t)
        (λ step. (step.ctor ≡ c) × (slice_get fields.now step.place ≡ Some step.next) × (IsDerived small.now step.next → ⊥)) }
{
    for place in 0..fields.len() {
        if rank_of(small, fields[place]) == 0 {
            return Some(Step {
                ctor: c,
                place,
                next: fields[place],
            });
        }
    }
    None
}
