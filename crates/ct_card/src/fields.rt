//! The sorts of fields.
ghost use Rattle.std.specs.Prelude.{◌≡◌, ◌++◌, map, IfOk, OnOk};
ghost use Rattle.ct_sorts.specs.Declarations.{IsSort, IsConstructor};
ghost use Rattle.ct_card.specs.Fields.{field_sort, ctor_fields, sort_fields};

use crate::error::CardError;
use ct_sorts::{CtorId, Signature, SortId};
use std::alloc::Global;

/// The sorts of all fields of the sort, one constructor after the other.
pub(crate) fn sort_fields(
    alloc: Global,
    sig: &Signature,
    s: SortId,
) -> Result<Vec<usize>, CardError>
    requires inside { IsSort sig.now s }
    ensures value { IfOk result (λ fields. fields.items ≡ sort_fields sig.now s.0) }
{
    let mut fields = Vec::new(alloc);
    for c in sig.ctors(s) {
        push_fields(sig, *c, &mut fields)?;
    }
    Ok(fields)
}

/// Puts the sorts of the constructor's fields after those that are there.
pub(crate) fn push_fields(
    sig: &Signature,
    c: CtorId,
    fields: &mut Vec<usize>,
) -> Result<(), CardError>
    requires inside { IsConstructor sig.now c }
    ensures value { OnOk result (fields.new.items ≡ fields.old.items ++ ctor_fields sig.now c) }
{
    for sel in sig.ctor_sels(c) {
        fields.push(sig.sel_sort(*sel).0 as usize)?;
    }
    Ok(())
}
