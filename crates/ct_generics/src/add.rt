//! Adding sorts: an instance comes after its arguments, and the sorts of its fields come after it.
ghost use Rattle.std.specs.Prelude.{◌≡◌, ◌<◌, ◌≤◌, ◌+◌, ℕ, List, [], ◌∷◌, ◌++◌, length, map, IfOk, IfErr, IsErrOf, OnOk, OnErr};
ghost use Rattle.std.specs.List.{flat_map};
ghost use Rattle.ct_generics.specs.declared.nodes.ExprId.{ExprId};
ghost use Rattle.ct_generics.specs.Expression.{Expression};
ghost use Rattle.ct_generics.specs.Declarations.{Declared, Head};
ghost use Rattle.ct_generics.specs.Nodes.{Stands, StandFor, Stay};
ghost use Rattle.ct_generics.specs.Reach.{fields_of};
ghost use Rattle.ct_generics.specs.Stored.{AreDeclared, AreStored};
ghost use Rattle.ct_generics.specs.Refusals.{too_many};
ghost use Rattle.ct_generics.specs.Add.{Adds, Fits, IsAdded, IsAmong, Leaves, field_sorts};
ghost use Rattle.ct_generics.specs.Tasks.{Task as ToDo, add, AreTasks};
ghost use Rattle.ct_generics.specs.SortTable.{AreCounted, AreSorts, IsCounted};
ghost use Rattle.ct_generics.specs.Text.{text_length, most_text};

use crate::error::GenericError;
use crate::generics::Generics;
use crate::heads::StoredHead;
use crate::items::Items;
use crate::nodes::{ExprId, Expressions};
use crate::room::Room;
use crate::rows::{append_rows, stored_rows};
use crate::sort_table::SortTable;
use crate::tasks::{Task, next_made, push_sorts};
use crate::text::{count_more, is_long};
use std::alloc::Global;

/// A limit would be passed.
const TOO_MANY: u16 = 16;

/// Adds sorts to the list, one after the other. A sort that is in the list changes nothing. Otherwise its arguments are
/// added from left to right, then the sort itself unless it is in the list by now, and then the sorts of its fields in
/// order. They are refused with 16 where one that would be added has a text longer than 65,536 bytes, or where there is
/// no room.
pub fn add_sorts(
    alloc: Global,
    g: &Generics,
    table: &mut SortTable,
    roots: &[ExprId],
    room: Room,
) -> Result<(), GenericError>
    requires declared { (d : Declared) × AreDeclared g.now d }
    requires sorts { (before es : List Expression) × AreSorts table.old before × StandFor table.old.expressions roots.now es }
    requires counted { AreCounted g.now table.old }
    ensures ok { OnOk result ((d : Declared) (before es : List Expression) → AreDeclared g.now d → AreSorts table.old before → StandFor table.old.expressions roots.now es
        → (added : List Expression) × IsAdded d.heads room es before added × AreSorts table.new (before ++ added)) }
    ensures refused { (n : ℕ) (d : Declared) (before es added : List Expression) → IsErrOf result (GenericError.Refused n)
        → AreDeclared g.now d → AreSorts table.old before → StandFor table.old.expressions roots.now es → (n ≡ too_many) × (IsAdded d.heads room es before added → ⊥) }
    ensures unchanged { OnErr result (table.new.sorts ≡ table.old.sorts) }
    ensures stay { Stay table.old.expressions table.new.expressions }
    ensures counted { AreCounted g.now table.new }
{
    let first = table.sorts.len();
    match try_add(alloc, g.heads.as_slice(), table, roots, room) {
        Ok(()) => Ok(()),
        Err(error) => {
            table.sorts.truncate(first);
            Err(error)
        }
    }
}

// The same, but what was added may stay where it is refused.
fn try_add(
    alloc: Global,
    heads: &[StoredHead],
    table: &mut SortTable,
    roots: &[ExprId],
    room: Room,
) -> Result<(), GenericError>
    requires stored { (hs : List Head) × AreStored heads.now hs }
    requires sorts { (before es : List Expression) × AreSorts table.old before × StandFor table.old.expressions roots.now es }
    requires counted { IsCounted heads.now table.old.expressions table.old.counts }
    ensures ok { OnOk result ((hs : List Head) (before es : List Expression) → AreStored heads.now hs → AreSorts table.old before → StandFor table.old.expressions roots.now es
        → (added : List Expression) × IsAdded hs room es before added × AreSorts table.new (before ++ added)) }
    ensures refused { (n : ℕ) (hs : List Head) (before es added : List Expression) → IsErrOf result (GenericError.Refused n)
        → AreStored heads.now hs → AreSorts table.old before → StandFor table.old.expressions roots.now es → (n ≡ too_many) × (IsAdded hs room es before added → ⊥) }
    ensures begun { (more : List ExprId) × (table.new.sorts ≡ table.old.sorts ++ more) }
    ensures stay { Stay table.old.expressions table.new.expressions }
    ensures counted { IsCounted heads.now table.new.expressions table.new.counts }
{
    let mut tasks = Vec::new(alloc);
    push_sorts(&mut tasks, roots)?;
    let mut left = room;
    while let Some(next) = next_made(&table.expressions, &table.sorts, &mut tasks)? {
        left = make(alloc, heads, table, &mut tasks, next, left)?;
    }
    Ok(())
}

// Makes a sort whose arguments are there, and has the sorts of its fields added next; what room is left then.
fn make(
    alloc: Global,
    heads: &[StoredHead],
    table: &mut SortTable,
    tasks: &mut Vec<Task>,
    id: ExprId,
    left: Room,
) -> Result<Room, GenericError>
    requires stored { (hs : List Head) × AreStored heads.now hs }
    requires sort { (es : List Expression) × (e : Expression) × AreSorts table.old es × Stands table.old.expressions id.0 e × (IsAmong es e → ⊥) }
    requires counted { IsCounted heads.now table.old.expressions table.old.counts }
    ensures made { IfOk result (λ rest. (hs : List Head) (es : List Expression) (e : Expression) (later : List ToDo)
        → AreStored heads.now hs → AreSorts table.old es → Stands table.old.expressions id.0 e → AreTasks table.old.expressions tasks.old.items later
        → Leaves hs left (e ∷ []) rest × AreSorts table.new (es ++ e ∷ []) × AreTasks table.new.expressions tasks.new.items (map add (field_sorts hs e) ++ later)) }
    ensures refused { (n : ℕ) (hs : List Head) (e : Expression) → IsErrOf result (GenericError.Refused n)
        → AreStored heads.now hs → Stands table.old.expressions id.0 e → (n ≡ too_many) × (Fits hs left (e ∷ []) → ⊥) }
    ensures less { IfOk result (λ rest. rest.sorts < left.sorts) }
    ensures begun { (more : List ExprId) × (table.new.sorts ≡ table.old.sorts ++ more) }
    ensures stay { Stay table.old.expressions table.new.expressions }
    ensures counted { IsCounted heads.now table.new.expressions table.new.counts }
{
    let _ordered = table.expressions.len();
    let fields = field_ids(alloc, heads, &mut table.expressions, id)?;
    count_more(heads, &table.expressions, &mut table.counts)?;
    if is_long(table.counts.as_slice(), id) {
        return Err(GenericError::Refused(TOO_MANY));
    }
    let rest = spend(left, fields.ctors, fields.ids.len() as u64)?;
    table.sorts.push(id)?;
    push_sorts(tasks, fields.ids.as_slice())?;
    Ok(rest)
}

// How many constructors a sort has, and the sorts of their fields.
#[derive(Drop)]
struct FieldIds {
    ctors: u64,
    ids: Items<ExprId>,
}

// The sorts of the fields of all constructors of a sort, one constructor after the other.
fn field_ids(
    alloc: Global,
    heads: &[StoredHead],
    table: &mut Expressions,
    id: ExprId,
) -> Result<FieldIds, GenericError>
    requires within { id.0 < length table.old }
    requires stored { (hs : List Head) × AreStored heads.now hs }
    ensures fields { IfOk result (λ fields. (hs : List Head) (e : Expression) → AreStored heads.now hs → Stands table.old id.0 e
        → (fields.ctors ≡ length (fields_of hs e)) × StandFor table.new fields.ids (field_sorts hs e)) }
    ensures stay { Stay table.old table.new }
    ensures err { IfErr result (λ e. e ≡ GenericError.NoMemory) }
{
    let rows = stored_rows(alloc, heads, table, id)?;
    let mut ids = Vec::new(alloc);
    append_rows(&mut ids, rows.as_slice())?;
    Ok(FieldIds {
        ctors: rows.len() as u64,
        ids: Items::new(ids),
    })
}

// What is left of the room after one sort with so many constructors and selectors.
fn spend(left: Room, ctors: u64, sels: u64) -> Result<Room, GenericError>
    ensures spent { IfOk result (λ rest. (1 + rest.sorts ≡ left.sorts) × (ctors + rest.ctors ≡ left.ctors) × (sels + rest.sels ≡ left.sels)) }
    ensures refused { (n : ℕ) → IsErrOf result (GenericError.Refused n) → (n ≡ too_many) × ((1 ≤ left.sorts) × (ctors ≤ left.ctors) × (sels ≤ left.sels) → ⊥) }
{
    if left.sorts < 1 {
        return Err(GenericError::Refused(TOO_MANY));
    }
    if left.ctors < ctors {
        return Err(GenericError::Refused(TOO_MANY));
    }
    if left.sels < sels {
        return Err(GenericError::Refused(TOO_MANY));
    }
    Ok(Room {
        sorts: left.sorts - 1,
        ctors: left.ctors - ctors,
        sels: left.sels - sels,
    })
}
