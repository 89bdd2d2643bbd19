//! The sorts of the fields of a sort.
ghost use Rattle.std.specs.Prelude.{◌≡◌, ◌<◌, ◌++◌, ℕ, List, [], length, map, All, Some, slice_get, IfOk, IfErr, OnOk};
ghost use Rattle.std.specs.List.{AllZip, flat_map};
ghost use Rattle.ct_generics.specs.declared.nodes.ExprId.{ExprId};
ghost use Rattle.ct_generics.specs.Expression.{Expression, substitute};
ghost use Rattle.ct_generics.specs.Declarations.{Declared, Head};
ghost use Rattle.ct_generics.specs.Nodes.{Stands, StandFor, Stay, AreWithin};
ghost use Rattle.ct_generics.specs.Images.{AreBelow, IsImage};
ghost use Rattle.ct_generics.specs.Reach.{fields_of, fields_with};
ghost use Rattle.ct_generics.specs.Stored.{AreDeclared, AreStored, IsStored};

use crate::error::GenericError;
use crate::generics::Generics;
use crate::heads::StoredHead;
use crate::items::Items;
use crate::nodes::{ExprId, Expressions};
use crate::spine::head_and_args;
use crate::substitution::{image_at, substitute};
use crate::vertices::{has_fields, stored_at};
use std::alloc::Global;

/// For each constructor of a sort the sorts of its fields; there are none for a parameter, Bool or an uninterpreted
/// sort. The only error is `NoMemory`.
pub fn field_rows(
    alloc: Global,
    g: &Generics,
    table: &mut Expressions,
    id: ExprId,
) -> Result<Items<Items<ExprId>>, GenericError>
    requires within { id.0 < length table.old }
    requires declared { (d : Declared) × AreDeclared g.now d }
    ensures rows { IfOk result (λ rows. (d : Declared) (e : Expression) → AreDeclared g.now d → Stands table.old id.0 e
        → AllZip (StandFor table.new) rows (fields_of d.heads e)) }
    ensures stay { Stay table.old table.new }
    ensures err { IfErr result (λ e. e ≡ GenericError.NoMemory) }
{
    stored_rows(alloc, g.heads.as_slice(), table, id)
}

/// The same, from what is stored of sorts and generics.
pub(crate) fn stored_rows(
    alloc: Global,
    heads: &[StoredHead],
    table: &mut Expressions,
    id: ExprId,
) -> Result<Items<Items<ExprId>>, GenericError>
    requires within { id.0 < length table.old }
    requires stored { (hs : List Head) × AreStored heads.now hs }
    ensures rows { IfOk result (λ rows. (hs : List Head) (e : Expression) → AreStored heads.now hs → Stands table.old id.0 e
        → AllZip (StandFor table.new) rows (fields_of hs e)) }
    ensures stay { Stay table.old table.new }
    ensures err { IfErr result (λ e. e ≡ GenericError.NoMemory) }
{
    let spine = head_and_args(alloc, table, id)?;
    match stored_at(heads, spine.head) {
        None => Ok(Items::new(Vec::new(alloc))),
        Some(stored) => rows_with(alloc, table, stored, spine.args.as_slice()),
    }
}

// The field sorts of each constructor with these arguments: there are none for Bool and uninterpreted sorts.
fn rows_with(
    alloc: Global,
    table: &mut Expressions,
    stored: &StoredHead,
    args: &[ExprId],
) -> Result<Items<Items<ExprId>>, GenericError>
    requires args { AreWithin table.old args.now }
    requires fields { All (AreBelow (length stored.now.template)) stored.now.ctors }
    ensures rows { IfOk result (λ rows. (head : Head) (es : List Expression) → IsStored stored.now head → StandFor table.old args.now es
        → AllZip (StandFor table.new) rows (fields_with (Some head) es)) }
    ensures stay { Stay table.old table.new }
    ensures err { IfErr result (λ e. e ≡ GenericError.NoMemory) }
{
    if has_fields(stored.kind) {
        return image_rows(alloc, table, stored, args);
    }
    Ok(Items::new(Vec::new(alloc)))
}

// The field sorts of each constructor, with these arguments in place of the parameters.
fn image_rows(
    alloc: Global,
    table: &mut Expressions,
    stored: &StoredHead,
    args: &[ExprId],
) -> Result<Items<Items<ExprId>>, GenericError>
    requires args { AreWithin table.old args.now }
    requires fields { All (AreBelow (length stored.now.template)) stored.now.ctors }
    ensures rows { IfOk result (λ rows. (head : Head) (es : List Expression) → IsStored stored.now head → StandFor table.old args.now es
        → AllZip (StandFor table.new) rows (map (map (substitute es)) head.ctors)) }
    ensures stay { Stay table.old table.new }
    ensures err { IfErr result (λ e. e ≡ GenericError.NoMemory) }
{
    let images = substitute(alloc, table, &stored.template, args)?;
    let rows = images_of_rows(alloc, stored.ctors.as_slice(), images.as_slice())?;
    Ok(Items::new(rows))
}

// The images of the fields of each constructor.
fn images_of_rows(
    alloc: Global,
    rows: &[Items<ExprId>],
    images: &[ExprId],
) -> Result<Vec<Items<ExprId>>, GenericError>
    requires within { All (AreBelow (length images.now)) rows.now }
    ensures images { IfOk result (λ all. AllZip (AllZip (IsImage images.now)) all.items rows.now) }
    ensures err { IfErr result (λ e. e ≡ GenericError.NoMemory) }
{
    let mut all = Vec::with_capacity(alloc, rows.len())?;
    for fields in rows {
        let row = images_of_fields(alloc, fields.as_slice(), images)?;
        all.push(Items::new(row))?;
    }
    Ok(all)
}

// The image of each field.
fn images_of_fields(
    alloc: Global,
    fields: &[ExprId],
    images: &[ExprId],
) -> Result<Vec<ExprId>, GenericError>
    requires within { AreBelow (length images.now) fields.now }
    ensures images { IfOk result (λ row. AllZip (IsImage images.now) row.items fields.now) }
    ensures err { IfErr result (λ e. e ≡ GenericError.NoMemory) }
{
    let mut row = Vec::with_capacity(alloc, fields.len())?;
    for field in fields {
        let image = image_at(images, *field);
        row.push(image)?;
    }
    Ok(row)
}

/// Puts the items of all rows after these items. The only error is `NoMemory`.
pub(crate) fn append_rows(ids: &mut Vec<ExprId>, rows: &[Items<ExprId>]) -> Result<(), GenericError>
    ensures ok { OnOk result (ids.new.items ≡ ids.old.items ++ flat_map (λ row. row) rows.now) }
    ensures err { IfErr result (λ e. e ≡ GenericError.NoMemory) }
{
    for row in rows {
        ids.extend_from_slice(row.as_slice())?;
    }
    Ok(())
}
