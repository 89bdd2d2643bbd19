//! How values of a sort can differ from default values, and the layers by which values of infinite sorts are built.
ghost use Rattle.std.specs.Prelude.{◌≡◌, ℕ, ◌<◌, ◌↔◌, length, Some, get_or, slice_get, IsTrue};
ghost use Rattle.ct_sorts.specs.declared.ids.CtorId.{CtorId};
ghost use Rattle.ct_sorts.specs.Declarations.{IsSort};
ghost use Rattle.ct_card.specs.Fields.{ctor_fields, ctors_of};
ghost use Rattle.ct_card.specs.Departures.{IsDeparture, IsLower, HasNoDeparture};

use crate::choice::rank_of;
use ct_sorts::{CtorId, Signature, SortId, structure};

/// A step down from a sort: by a field of one of its constructors, at its place, to the sort of the field.
#[derive(Clone, Copy, Debug)]
pub(crate) struct Step {
    pub(crate) ctor: CtorId,
    pub(crate) place: usize,
    pub(crate) next: usize,
}

/// How a value of a sort may depart from a default value, or from a layer of default values.
#[derive(Clone, Copy, Debug)]
pub(crate) enum Departure {
    /// It may not.
    Nowhere,
    /// By another constructor.
    Constructor(CtorId),
    /// By a second value of the sort of a field.
    Field(Step),
}

/// A layer of values of an infinite sort: a step to an infinite sort, how a value may depart beside it, and the field, if
/// there is one, that may hold a digit of the number: its default value or its second value.
#[derive(Clone, Copy, Debug)]
pub(crate) struct Layer {
    pub(crate) step: Step,
    pub(crate) departure: Departure,
    pub(crate) digit: Option<Step>,
}

/// How values of the sort may depart from its constructor with these fields: by another constructor, or by a field of a
/// lower rank among the sorts of several values, but not by the skipped one.
pub(crate) fn departure_from(
    sig: &Signature,
    several: &[usize],
    fields: &[usize],
    s: SortId,
    c: CtorId,
    skip: usize,
) -> Departure
    requires inside { IsSort sig.now s }
    requires listed { (index : ℕ) × (slice_get (ctors_of sig.now s.0) index ≡ Some c) }
    requires fields { fields.now ≡ ctor_fields sig.now c }
    ensures departs { IsDeparture sig.now several.now s.0 c result }
    ensures apart { (step : Step) → result ≡ Departure.Field step → step.place ≡ skip → ⊥ }
    ensures nowhere { result ≡ Departure.Nowhere → HasNoDeparture sig.now several.now s.0 c skip }
{
    structure();
    prove!(sig.sorts() > 0);
    let own = sig.ctors(s);
    if own.len() != 1 {
        return Departure::Constructor(another(own, c));
    }
    lower_field(several, fields, s.0 as usize, c, skip)
}

// The first field of a sort of several values of a lower rank than the sort, but not the skipped one.
fn lower_field(several: &[usize], fields: &[usize], s: usize, c: CtorId, skip: usize) -> Departure
    ensures field { (step : Step) → result ≡ Departure.Field step → (step.ctor ≡ c) × (slice_get fields.now step.place ≡ Some step.next) × IsLower several.now step.next s × (step.place ≡ skip → ⊥) }
    ensures nowhere { result ≡ Departure.Nowhere → (k t : ℕ) → slice_get fields.now k ≡ Some t → (k ≡ skip → ⊥) → IsLower several.now t s → ⊥ }
    ensures constructor { (other : CtorId) → result ≡ Departure.Constructor other → ⊥ }
{
    for k in 0..fields.len() {
        if k != skip && is_lower(several, fields[k], s) {
            return Departure::Field(Step {
                ctor: c,
                place: k,
                next: fields[k],
            });
        }
    }
    Departure::Nowhere
}

// Whether the first sort has several values, and a lower rank than the second.
fn is_lower(several: &[usize], t: usize, s: usize) -> bool
    ensures lower { IsTrue result ↔ IsLower several.now t s }
{
    let rank = rank_of(several, t);
    rank > 0 && rank < rank_of(several, s)
}

// The first of these constructors that is not the given one.
fn another(ctors: &[CtorId], c: CtorId) -> CtorId
    requires distinct { (i j : ℕ) (e : CtorId) → slice_get ctors.now i ≡ Some e → slice_get ctors.now j ≡ Some e → i ≡ j }
    requires many { 1 < length ctors.now }
    ensures other { (index : ℕ) × (slice_get ctors.now index ≡ Some result) × (result ≡ c → ⊥) }
{
    if ctors[0].0 == c.0 {
        return ctors[1];
    }
    ctors[0]
}

/// The departure with this number, or none past the end.
pub(crate) fn departure_at(all: &[Departure], n: usize) -> Departure
    ensures value { n < length all.now → slice_get all.now n ≡ Some result }
{
    if n < all.len() {
        return all[n];
    }
    Departure::Nowhere
}

/// The layer with this number, or any past the end.
pub(crate) fn layer_at(all: &[Layer], n: usize) -> Layer
    ensures value { n < length all.now → slice_get all.now n ≡ Some result }
{
    if n < all.len() {
        return all[n];
    }
    Layer {
        step: Step {
            ctor: CtorId(0),
            place: 0,
            next: 0,
        },
        departure: Departure::Nowhere,
        digit: None,
    }
}
