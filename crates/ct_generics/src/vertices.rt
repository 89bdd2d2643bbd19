//! The vertex of an expression among those that were met.
ghost use Rattle.std.specs.Prelude.{◌≡◌, ◌⊎◌, ◌<◌, ℕ, List, [], if◌then◌else◌, length, map, All, Some, None, option_map, slice_get, IfOk, IfErr, IfSome, IfNone};
ghost use Rattle.std.specs.List.{AllZip};
ghost use Rattle.std.specs.Option.{option_and_then};
ghost use Rattle.ct_generics.specs.declared.nodes.ExprId.{ExprId};
ghost use Rattle.ct_generics.specs.Expression.{Expression, substitute};
ghost use Rattle.ct_generics.specs.Declarations.{Head};
ghost use Rattle.ct_generics.specs.Nodes.{Stands, Stay, StandFor, AreWithin};
ghost use Rattle.ct_generics.specs.Images.{AreBelow};
ghost use Rattle.ct_generics.specs.Reach.{StandsIn, HasField, fields_with, fields_by_kind};
ghost use Rattle.ct_generics.specs.Stored.{IsStored, AreStored};
ghost use Rattle.ct_generics.specs.Reached.{StandsAt, IsVertexFor};

use crate::error::GenericError;
use crate::fields::row_indices;
use crate::graph::Vertex;
use crate::heads::StoredHead;
use crate::ids::ExprIds;
use crate::items::Items;
use crate::kind::Kind;
use crate::nodes::{ExprId, Expressions, HeadId};
use crate::spine::head_and_args;
use crate::substitution::substitute;
use std::alloc::Global;

/// The vertex of an expression. Its fields get indices where they have none yet. The only error is `NoMemory`.
pub(crate) fn vertex_of(
    alloc: Global,
    heads: &[StoredHead],
    table: &mut Expressions,
    ids: &mut ExprIds,
    id: ExprId,
) -> Result<Vertex, GenericError>
    requires within { id.0 < length table.old }
    requires stored { (hs : List Head) × AreStored heads.now hs }
    ensures vertex { IfOk result (λ v. (hs : List Head) (e : Expression)
        → AreStored heads.now hs → Stands table.old id.0 e → IsVertexFor hs table.new ids.new v e) }
    ensures only { IfOk result (λ v. (hs : List Head) (e : Expression) (i : ℕ) (other : ExprId)
        → AreStored heads.now hs → Stands table.old id.0 e → slice_get ids.new i ≡ Some other
        → (slice_get ids.old i ≡ Some other) ⊎ ((f : Expression) × Stands table.new other.0 f × HasField hs e f)) }
    ensures stay { Stay table.old table.new }
    ensures stay_ids { Stay ids.old ids.new }
    ensures err { IfErr result (λ e. e ≡ GenericError.NoMemory) }
{
    let spine = head_and_args(alloc, table, id)?;
    match stored_at(heads, spine.head) {
        None => Ok(Vertex {
            kind: None,
            ctors: Items::new(Vec::new(alloc)),
        }),
        Some(stored) => {
            let ctors = field_vertices(alloc, table, ids, stored, spine.args.as_slice())?;
            Ok(Vertex {
                kind: Some(stored.kind),
                ctors,
            })
        }
    }
}

/// What is stored of a sort or generic, where there is one of this number.
pub(crate) fn stored_at(heads: &[StoredHead], head: Option<HeadId>) -> Option<&StoredHead>
    ensures some { IfSome result (λ stored. (hs : List Head) → AreStored heads.now hs
        → (hd : Head) × (option_and_then (slice_get hs) (option_map (λ h. h.0) head) ≡ Some hd) × IsStored stored.now hd) }
    ensures none { IfNone result ((hs : List Head) → AreStored heads.now hs
        → option_and_then (slice_get hs) (option_map (λ h. h.0) head) ≡ None) }
{
    match head {
        None => None,
        Some(h) => at_index(heads, h.0 as usize),
    }
}

/// What is stored at an index, if it is one.
pub(crate) fn at_index(heads: &[StoredHead], index: usize) -> Option<&StoredHead>
    ensures found { IfSome result (λ stored. slice_get heads.now index ≡ Some stored.now) }
    ensures none { IfNone result (slice_get heads.now index ≡ None) }
{
    if index < heads.len() {
        return Some(stored_head(heads, index));
    }
    None
}

/// What is stored at an index.
pub(crate) fn stored_head(heads: &[StoredHead], index: usize) -> &StoredHead
    requires within { index < length heads.now }
    ensures value { slice_get heads.now index ≡ Some result.now }
{
    &heads[index]
}

// The vertices of the fields of an instance: there are none for Bool and uninterpreted sorts.
fn field_vertices(
    alloc: Global,
    table: &mut Expressions,
    ids: &mut ExprIds,
    stored: &StoredHead,
    args: &[ExprId],
) -> Result<Items<Items<usize>>, GenericError>
    requires args { AreWithin table.old args.now }
    requires fields { All (AreBelow (length stored.now.template)) stored.now.ctors }
    ensures fields { IfOk result (λ ctors. (head : Head) (es : List Expression)
        → IsStored stored.now head → StandFor table.old args.now es
        → AllZip (AllZip (StandsAt table.new ids.new)) ctors (fields_with (Some head) es)) }
    ensures only { IfOk result (λ ctors. (head : Head) (es : List Expression) (i : ℕ) (id : ExprId)
        → IsStored stored.now head → StandFor table.old args.now es → slice_get ids.new i ≡ Some id
        → (slice_get ids.old i ≡ Some id) ⊎ ((f : Expression) × Stands table.new id.0 f × StandsIn (fields_with (Some head) es) f)) }
    ensures stay { Stay table.old table.new }
    ensures stay_ids { Stay ids.old ids.new }
    ensures err { IfErr result (λ e. e ≡ GenericError.NoMemory) }
{
    if has_fields(stored.kind) {
        return image_vertices(alloc, table, ids, stored, args);
    }
    Ok(Items::new(Vec::new(alloc)))
}

/// Whether sorts of this kind have fields.
pub(crate) fn has_fields(kind: Kind) -> bool
    ensures fields { (ctors : List (List Expression)) → fields_by_kind kind ctors ≡ (if result then ctors else []) }
{
    match kind {
        Kind::Bool => false,
        Kind::Free => false,
        Kind::Data => true,
        Kind::Codata => true,
    }
}

// The vertices of the field sorts with these arguments.
fn image_vertices(
    alloc: Global,
    table: &mut Expressions,
    ids: &mut ExprIds,
    stored: &StoredHead,
    args: &[ExprId],
) -> Result<Items<Items<usize>>, GenericError>
    requires args { AreWithin table.old args.now }
    requires fields { All (AreBelow (length stored.now.template)) stored.now.ctors }
    ensures fields { IfOk result (λ ctors. (head : Head) (es : List Expression)
        → IsStored stored.now head → StandFor table.old args.now es
        → AllZip (AllZip (StandsAt table.new ids.new)) ctors (map (map (substitute es)) head.ctors)) }
    ensures only { IfOk result (λ ctors. (head : Head) (es : List Expression) (i : ℕ) (id : ExprId)
        → IsStored stored.now head → StandFor table.old args.now es → slice_get ids.new i ≡ Some id
        → (slice_get ids.old i ≡ Some id) ⊎ ((f : Expression) × Stands table.new id.0 f × StandsIn (map (map (substitute es)) head.ctors) f)) }
    ensures stay { Stay table.old table.new }
    ensures stay_ids { Stay ids.old ids.new }
    ensures err { IfErr result (λ e. e ≡ GenericError.NoMemory) }
{
    let images = substitute(alloc, table, &stored.template, args)?;
    let rows = row_indices(alloc, ids, stored.ctors.as_slice(), images.as_slice())?;
    Ok(Items::new(rows))
}
