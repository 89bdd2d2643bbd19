//! Whether the sorts and generics of a block occur in their fields only with their own parameters.
ghost use Rattle.std.specs.Prelude.{◌≡◌, ◌↔◌, List, Option, slice_get, IfOk, IfErr, IsTrue};
ghost use Rattle.std.specs.List.{list_all};
ghost use Rattle.ct_generics.specs.Declarations.{Head};
ghost use Rattle.ct_generics.specs.Stored.{IsStored, AreStored};
ghost use Rattle.ct_generics.specs.Uniform.{IsUniform, AreUniform};
ghost use Rattle.ct_generics.specs.Shapes.{keeps_at};

use crate::error::GenericError;
use crate::heads::StoredHead;
use crate::items::Items;
use crate::nodes::ExprId;
use crate::shape::{Shape, keeps, shapes};
use crate::vertices::stored_head;
use std::alloc::Global;

/// Whether the sorts and generics from `first` on are uniform. The only error is `NoMemory`.
pub(crate) fn are_uniform(
    alloc: Global,
    heads: &[StoredHead],
    first: usize,
) -> Result<bool, GenericError>
    requires stored { (hs : List Head) × AreStored heads.now hs }
    ensures uniform { IfOk result (λ uniform. (hs : List Head) → AreStored heads.now hs → IsTrue uniform ↔ AreUniform first hs) }
    ensures err { IfErr result (λ e. e ≡ GenericError.NoMemory) }
{
    for h in first..heads.len() {
        if !is_uniform(alloc, first, stored_head(heads, h))? {
            return Ok(false);
        }
    }
    Ok(true)
}

// Whether in each field of a sort or generic the names from `first` on stand at its parameters.
fn is_uniform(alloc: Global, first: usize, head: &StoredHead) -> Result<bool, GenericError>
    ensures uniform { IfOk result (λ uniform. (hd : Head) → IsStored head.now hd → IsTrue uniform ↔ IsUniform first hd) }
    ensures err { IfErr result (λ e. e ≡ GenericError.NoMemory) }
{
    let shapes = shapes(alloc, first, head.params, &head.template)?;
    Ok(rows_keep(shapes.as_slice(), head.params, head.ctors.as_slice()))
}

// Whether each field of each constructor keeps to the parameters.
fn rows_keep(shapes: &[Shape], params: u64, rows: &[Items<ExprId>]) -> bool
    ensures value { result ≡ list_all (list_all (keeps_at shapes.now params)) rows.now }
{
    rows.iter()
        .all(|fields| fields_keep(shapes, params, fields.as_slice()))
}

// Whether each of these fields keeps to the parameters.
fn fields_keep(shapes: &[Shape], params: u64, fields: &[ExprId]) -> bool
    ensures value { result ≡ list_all (keeps_at shapes.now params) fields.now }
{
    fields.iter().all(|field| keeps_at(shapes, params, *field))
}

// Whether the expression of this number keeps to the parameters.
fn keeps_at(shapes: &[Shape], params: u64, id: ExprId) -> bool
    ensures value { result ≡ keeps_at shapes.now params id }
{
    match shape_of(shapes, id) {
        Some(shape) => keeps(shape, params),
        None => false,
    }
}

// The shape of this number.
fn shape_of(shapes: &[Shape], id: ExprId) -> Option<Shape>
    ensures value { result ≡ slice_get shapes.now id.0 }
{
    shapes.get(id.0 as usize).copied()
}
