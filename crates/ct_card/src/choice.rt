//! The constructors of default values.
ghost use Rattle.std.specs.Prelude.{◌≡◌, ◌<◌, ◌≤◌, ◌↔◌, Some, length, get_or, slice_get, IfOk, OnOk, IsTrue};
ghost use Rattle.ct_sorts.specs.Declarations.{IsSort, IsConstructor};
ghost use Rattle.ct_card.specs.Extended.{AreGrownBy, IsChosen};
ghost use Rattle.ct_card.specs.Founding.{HasLowerFields, HasFounding};
ghost use Rattle.ct_card.specs.Defaults.{AreLower};

use crate::error::CardError;
use crate::fields::push_fields;
use ct_sorts::{CtorId, Signature, SortId};
use std::alloc::Global;

/// For each further sort the constructor of its default value: of a datatype one whose fields have sorts of
/// lower ranks. For an uninterpreted sort, which has none, any.
pub(crate) fn push_choices(
    alloc: Global,
    sig: &Signature,
    ranks: &[usize],
    ctors: &mut Vec<CtorId>,
) -> Result<(), CardError>
    requires founded { HasFounding sig.now ranks.now }
    requires few { length ctors.old.items ≤ length sig.now.sorts }
    ensures long { OnOk result (length ctors.new.items ≡ length sig.now.sorts) }
    ensures chosen { OnOk result (AreGrownBy (IsChosen sig.now ranks.now) ctors.old.items ctors.new.items) }
{
    let sorts = sig.sorts();
    for s in ctors.len() as u32..sorts {
        ctors.push(choice(alloc, sig, ranks, SortId(s))?)?;
    }
    Ok(())
}

// The first constructor of the sort whose fields have sorts of lower ranks, or else the first.
fn choice(alloc: Global, sig: &Signature, ranks: &[usize], s: SortId) -> Result<CtorId, CardError>
    requires inside { IsSort sig.now s }
    requires founded { HasFounding sig.now ranks.now }
    ensures chosen { IfOk result (IsChosen sig.now ranks.now s.0) }
{
    let ctors = sig.ctors(s);
    for c in ctors {
        if has_lower_fields(alloc, sig, ranks, s, *c)? {
            return Ok(*c);
        }
    }
    Ok(first_of(ctors))
}

// The first constructor of these, or any.
fn first_of(ctors: &[CtorId]) -> CtorId
    ensures first { 0 < length ctors.now → slice_get ctors.now 0 ≡ Some result }
{
    if ctors.len() == 0 {
        return CtorId(0);
    }
    ctors[0]
}

// Whether all fields of the constructor have sorts of lower ranks than the sort.
fn has_lower_fields(
    alloc: Global,
    sig: &Signature,
    ranks: &[usize],
    s: SortId,
    c: CtorId,
) -> Result<bool, CardError>
    requires inside { IsConstructor sig.now c }
    ensures lower { IfOk result (λ r. IsTrue r ↔ HasLowerFields sig.now ranks.now s.0 c) }
{
    let mut fields = Vec::new(alloc);
    push_fields(sig, c, &mut fields)?;
    Ok(are_lower(ranks, &fields, rank_of(ranks, s.0 as usize)))
}

// Whether all of these have ranks below the bound.
fn are_lower(ranks: &[usize], fields: &[usize], bound: usize) -> bool
    ensures lower { IsTrue result ↔ AreLower ranks.now fields.now bound }
{
    for t in fields {
        if rank_of(ranks, *t) >= bound {
            return false;
        }
    }
    true
}

/// The rank of a number, which is 0 for one past the end.
pub(crate) fn rank_of(ranks: &[usize], n: usize) -> usize
    ensures value { result ≡ get_or ranks.now n 0 }
{
    if n < ranks.len() {
        return ranks[n];
    }
    0
}
