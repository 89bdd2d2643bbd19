//! The sorts that the arguments of the head of a list must have, one after the other.
ghost use Rattle.std.specs.Prelude.{◌≡◌, Option, drop, IfOk};
ghost use Rattle.ct_sorts.specs.declared.ids.SortId.{SortId};
ghost use Rattle.ct_sorts.specs.Declarations.{Declarations, IsSort, bool_sort};
ghost use Rattle.ct_instances.specs.Among.{IsNamedCtor};
ghost use Rattle.ct_instances.specs.Left.{IsMatchingOf};
ghost use Rattle.ct_names.specs.declared.needs.Needs.{Needs};
ghost use Rattle.ct_names.specs.Answer.{StopsAt};
ghost use Rattle.ct_names.specs.Outcome.{step};
ghost use Rattle.ct_check.specs.Expected.{these, same, choice, owner, expectation_of, next_expected, IsExpectation};

use crate::callees::{BOOL, is_sort};
use ct_instances::{Matching, NamedCtor, ctor_among};
use ct_names::{Stop, WRONG_SORT};
use ct_sorts::{Signature, SortId};
use std::alloc::Global;

/// Which sorts the next arguments are to have.
#[derive(Drop)]
pub(crate) enum Expected {
    /// These, from this place on.
    These(Vec<SortId>, usize),
    /// All this one, or all that of the first.
    Same(Option<SortId>),
    /// Bool, and then two that have one sort.
    Choice,
    /// Those of the fields of a generic's constructor.
    Fields(Matching),
    /// One that has the constructor, which was this one.
    Owner(NamedCtor, Option<SortId>),
}

impl Expected {
    /// What is expected after an argument of this sort. It is refused with 23 where this sort is not expected.
    pub(crate) fn after(
        self,
        alloc: Global,
        sig: &Signature,
        sort: SortId,
    ) -> Result<Expected, Stop>
        requires expected { IsExpectation sig.now self }
        requires sort { IsSort sig.now sort }
        ensures inside { IfOk result (IsExpectation sig.now) }
        ensures value { (needs : Needs) → StopsAt needs sig.now (expectation_of sig.now) (step (next_expected sig.now (expectation_of sig.now self) sort)) result }
    {
        match self {
            Expected::These(sorts, place) => after_these(sorts, place, sort),
            Expected::Same(first) => after_same(first, sort),
            Expected::Choice => after_condition(sort),
            Expected::Fields(matching) => after_field(alloc, sig, matching, sort),
            Expected::Owner(ctor, _) => after_owner(sig, ctor, sort),
        }
    }
}

// After an argument where these sorts are expected from a place on.
fn after_these(sorts: Vec<SortId>, place: usize, sort: SortId) -> Result<Expected, Stop>
    ensures inside { (d : Declarations) → IfOk result (IsExpectation d) }
    ensures value { (needs : Needs) (d : Declarations) → StopsAt needs d (expectation_of d) (step (next_expected d (these (drop place sorts.items)) sort)) result }
{
    match sorts.get(place) {
        Some(next) if is_sort(sort, *next) => Ok(Expected::These(sorts, place + 1)),
        Some(_) | None => Err(Stop::Refused(WRONG_SORT)),
    }
}

// After an argument where one sort is expected.
fn after_same(first: Option<SortId>, sort: SortId) -> Result<Expected, Stop>
    ensures inside { (d : Declarations) → IfOk result (IsExpectation d) }
    ensures value { (needs : Needs) (d : Declarations) → StopsAt needs d (expectation_of d) (step (next_expected d (same first) sort)) result }
{
    match first {
        Some(first) if !is_sort(sort, first) => Err(Stop::Refused(WRONG_SORT)),
        Some(_) | None => Ok(Expected::Same(Some(sort))),
    }
}

// After the condition of a choice.
fn after_condition(sort: SortId) -> Result<Expected, Stop>
    ensures inside { (d : Declarations) → IfOk result (IsExpectation d) }
    ensures value { (needs : Needs) (d : Declarations) → StopsAt needs d (expectation_of d) (step (next_expected d choice sort)) result }
{
    if !is_sort(sort, BOOL) {
        return Err(Stop::Refused(WRONG_SORT));
    }
    Ok(Expected::Same(None))
}

// After a field of a generic's constructor.
fn after_field(
    alloc: Global,
    sig: &Signature,
    matching: Matching,
    sort: SortId,
) -> Result<Expected, Stop>
    requires matching { IsMatchingOf sig.now matching }
    requires sort { IsSort sig.now sort }
    ensures inside { IfOk result (IsExpectation sig.now) }
    ensures value { (needs : Needs) → StopsAt needs sig.now (expectation_of sig.now) (step (next_expected sig.now (expectation_of sig.now (Expected.Fields matching)) sort)) result }
{
    let mut matching = matching;
    if !matching.fits_next(alloc, sig, sort)? {
        return Err(Stop::Refused(WRONG_SORT));
    }
    Ok(Expected::Fields(matching))
}

// After an argument whose sort is to have a constructor.
fn after_owner(sig: &Signature, ctor: NamedCtor, sort: SortId) -> Result<Expected, Stop>
    requires ctor { IsNamedCtor sig.now ctor }
    requires sort { IsSort sig.now sort }
    ensures inside { IfOk result (IsExpectation sig.now) }
    ensures value { (needs : Needs) (last : Option SortId) → StopsAt needs sig.now (expectation_of sig.now) (step (next_expected sig.now (owner ctor last) sort)) result }
{
    if ctor_among(sig, ctor, sort).is_none() {
        return Err(Stop::Refused(WRONG_SORT));
    }
    Ok(Expected::Owner(ctor, Some(sort)))
}
