//! Indices for the images of fields that have none yet.
ghost use Rattle.std.specs.Prelude.{◌≡◌, ◌⊎◌, ◌<◌, ℕ, length, All, Some, slice_get, IfOk, IfErr};
ghost use Rattle.std.specs.List.{AllZip};
ghost use Rattle.ct_generics.specs.declared.nodes.ExprId.{ExprId};
ghost use Rattle.ct_generics.specs.Nodes.{Stay};
ghost use Rattle.ct_generics.specs.Images.{IsImageAt, IsFieldImage, IsRowImage, AreBelow};

use crate::error::GenericError;
use crate::ids::ExprIds;
use crate::items::Items;
use crate::nodes::ExprId;
use crate::substitution::image_at;
use std::alloc::Global;

/// The index of the image of each field of each constructor. The only error is `NoMemory`.
pub(crate) fn row_indices(
    alloc: Global,
    ids: &mut ExprIds,
    rows: &[Items<ExprId>],
    images: &[ExprId],
) -> Result<Vec<Items<usize>>, GenericError>
    requires within { All (AreBelow (length images.now)) rows.now }
    ensures rows { IfOk result (λ all. AllZip (AllZip (IsImageAt images.now ids.new)) all.items rows.now) }
    ensures only { IfOk result (λ all. (i : ℕ) (id : ExprId) → slice_get ids.new i ≡ Some id
        → (slice_get ids.old i ≡ Some id) ⊎ IsRowImage images.now rows.now id) }
    ensures stay { Stay ids.old ids.new }
    ensures err { IfErr result (λ e. e ≡ GenericError.NoMemory) }
{
    let mut all = Vec::with_capacity(alloc, rows.len())?;
    for fields in rows {
        let indices = field_indices(alloc, ids, fields.as_slice(), images)?;
        all.push(Items::new(indices))?;
    }
    Ok(all)
}

// The index of the image of each field.
fn field_indices(
    alloc: Global,
    ids: &mut ExprIds,
    fields: &[ExprId],
    images: &[ExprId],
) -> Result<Vec<usize>, GenericError>
    requires within { AreBelow (length images.now) fields.now }
    ensures fields { IfOk result (λ indices. AllZip (IsImageAt images.now ids.new) indices.items fields.now) }
    ensures only { IfOk result (λ indices. (i : ℕ) (id : ExprId) → slice_get ids.new i ≡ Some id
        → (slice_get ids.old i ≡ Some id) ⊎ IsFieldImage images.now fields.now id) }
    ensures stay { Stay ids.old ids.new }
    ensures err { IfErr result (λ e. e ≡ GenericError.NoMemory) }
{
    let mut indices = Vec::with_capacity(alloc, fields.len())?;
    for field in fields {
        let image = image_at(images, *field);
        let index = ids.insert(image)?;
        indices.push(index)?;
    }
    Ok(indices)
}
