//! How much may still be declared.
ghost use Rattle.std.specs.Prelude.{◌≡◌, ℕ, ◌+◌, ◌<◌, ◌≤◌, ◌⊎◌, List, [], length, Some, unwrap_or, slice_get, IfSome, IfNone};
ghost use Rattle.std.specs.List.{flat_map};
ghost use Rattle.ct_generics.specs.declared.decl.CtorDecl.{CtorDecl};
ghost use Rattle.ct_generics.specs.declared.decl.SortDecl.{SortDecl};
ghost use Rattle.ct_generics.specs.Denoted.{declared_of};
ghost use Rattle.ct_generics.specs.Stored.{AreDeclared};
ghost use Rattle.ct_sorts.specs.declared.spelling.Spelling.{Spelling};
ghost use Rattle.ct_sorts.specs.Block.{block_ctors};
ghost use Rattle.ct_sorts.specs.Declarations.{Function, most_sorts, most_ctors, most_sels};
ghost use Rattle.ct_sorts.specs.Limits.{generic_count, generic_ctors, generic_sels, sort_count, room_in, IsOverLimits};
ghost use Rattle.ct_sorts.specs.Room.{IsLeft, DoesNotFit, decl_fields};
ghost use Rattle.ct_sorts.specs.Tabled.{of_tables};

use crate::indexed::item_at;
use crate::spelling::Spelling;
use crate::tables::Tables;
use ct_generics::{CtorDecl, Generics, HeadId, Items, Room, SortDecl};

/// The most sorts that a signature holds, Bool, generics and synonyms among them.
pub(crate) const MOST_SORTS: u64 = 4_096;

/// The most constructors that a signature holds, `true` and `false` among them.
const MOST_CTORS: u64 = 16_384;

/// The most selectors that a signature holds.
const MOST_SELS: u64 = 65_536;

/// How many sorts, generics and synonyms there are.
pub(crate) fn sort_count(tables: &Tables) -> u64
    requires declared { AreDeclared tables.now.generics (declared_of tables.now.generics) }
    requires within { (fs ds : List Function) × (IsOverLimits (of_tables tables.now fs ds) → ⊥) }
    ensures count { (fs ds : List Function) → result ≡ sort_count (of_tables tables.now fs ds) }
{
    let generics = generic_totals(&tables.generics, tables.spellings.as_slice());
    tables.sorts.len() as u64 + generics.sorts + tables.generics.synonym_count() as u64
}

/// What may still be declared.
pub(crate) fn room_in(tables: &Tables) -> Room
    requires declared { AreDeclared tables.now.generics (declared_of tables.now.generics) }
    requires within { (fs ds : List Function) × (IsOverLimits (of_tables tables.now fs ds) → ⊥) }
    ensures room { (fs ds : List Function) → result ≡ room_in (of_tables tables.now fs ds) }
{
    let generics = generic_totals(&tables.generics, tables.spellings.as_slice());
    let synonyms = tables.generics.synonym_count() as u64;
    Room {
        sorts: MOST_SORTS - (tables.sorts.len() as u64 + generics.sorts + synonyms),
        ctors: MOST_CTORS - (tables.ctors.len() as u64 + generics.ctors),
        sels: MOST_SELS - (tables.sels.len() as u64 + generics.sels),
    }
}

// How many generics there are, with how many constructors and selectors.
fn generic_totals(generics: &Generics, spellings: &[Items<Spelling>]) -> Room
    requires declared { AreDeclared generics.now (declared_of generics.now) }
    requires few { generic_count (declared_of generics.now).heads ≤ most_sorts }
    requires ctors_few { generic_ctors (declared_of generics.now).heads spellings.now ≤ most_ctors }
    requires sels_few { generic_sels (declared_of generics.now).heads spellings.now ≤ most_sels }
    ensures sorts { result.sorts ≡ generic_count (declared_of generics.now).heads }
    ensures ctors { result.ctors ≡ generic_ctors (declared_of generics.now).heads spellings.now }
    ensures sels { result.sels ≡ generic_sels (declared_of generics.now).heads spellings.now }
{
    let mut totals = Room {
        sorts: 0,
        ctors: 0,
        sels: 0,
    };
    for h in 0..generics.head_count() {
        let params = generics.head_params(HeadId(h as u64));
        totals = with_head(totals, params, spellings, h);
    }
    totals
}

// With one sort or generic more, which has so many parameters.
fn with_head(totals: Room, params: u64, spellings: &[Items<Spelling>], h: usize) -> Room
    requires few { 0 < params → totals.sorts < most_sorts }
    requires ctors_few { 0 < params → totals.ctors + length (unwrap_or (slice_get spellings.now h) []) ≤ most_ctors }
    requires sels_few { 0 < params → totals.sels + length (flat_map (λ c. c.fields) (unwrap_or (slice_get spellings.now h) [])) ≤ most_sels }
    ensures plain { params ≡ 0 → result ≡ totals }
    ensures sorts { 0 < params → result.sorts ≡ totals.sorts + 1 }
    ensures ctors { 0 < params → result.ctors ≡ totals.ctors + length (unwrap_or (slice_get spellings.now h) []) }
    ensures sels { 0 < params → result.sels ≡ totals.sels + length (flat_map (λ c. c.fields) (unwrap_or (slice_get spellings.now h) [])) }
{
    if params == 0 {
        return totals;
    }
    with_generic(totals, spellings, h)
}

// With one generic more.
fn with_generic(totals: Room, spellings: &[Items<Spelling>], h: usize) -> Room
    requires few { totals.sorts < most_sorts }
    requires ctors_few { totals.ctors + length (unwrap_or (slice_get spellings.now h) []) ≤ most_ctors }
    requires sels_few { totals.sels + length (flat_map (λ c. c.fields) (unwrap_or (slice_get spellings.now h) [])) ≤ most_sels }
    ensures sorts { result.sorts ≡ totals.sorts + 1 }
    ensures ctors { result.ctors ≡ totals.ctors + length (unwrap_or (slice_get spellings.now h) []) }
    ensures sels { result.sels ≡ totals.sels + length (flat_map (λ c. c.fields) (unwrap_or (slice_get spellings.now h) [])) }
{
    let sorts = totals.sorts + 1;
    match item_at(spellings, h) {
        None => Room {
            sorts,
            ctors: totals.ctors,
            sels: totals.sels,
        },
        Some(ctors) => Room {
            sorts,
            ctors: totals.ctors + ctors.len() as u64,
            sels: totals.sels + field_count(ctors.as_slice()),
        },
    }
}

// How many fields these constructors have.
fn field_count(ctors: &[Spelling]) -> u64
    requires few { length (flat_map (λ c. c.fields) ctors.now) ≤ most_sels }
    ensures count { result ≡ length (flat_map (λ c. c.fields) ctors.now) }
{
    let mut count = 0u64;
    for ctor in ctors {
        count += ctor.fields.len() as u64;
    }
    count
}

/// What is left of the room after the sorts and generics of a block, if they fit.
pub(crate) fn room_after(room: Room, block: &[SortDecl]) -> Option<Room>
    ensures left { IfSome result (λ left. IsLeft room left (length block.now) (length (block_ctors block.now)) (length (decl_fields (block_ctors block.now)))) }
    ensures none { IfNone result (DoesNotFit room (length block.now) (length (block_ctors block.now)) (length (decl_fields (block_ctors block.now)))) }
{
    let mut left = room;
    for decl in block {
        match room_after_decl(left, decl) {
            Some(rest) => left = rest,
            None => return None,
        }
    }
    Some(left)
}

// What is left after one of them.
fn room_after_decl(room: Room, decl: &SortDecl) -> Option<Room>
    ensures left { IfSome result (λ left. IsLeft room left 1 (length decl.now.ctors) (length (decl_fields decl.now.ctors))) }
    ensures none { IfNone result (DoesNotFit room 1 (length decl.now.ctors) (length (decl_fields decl.now.ctors))) }
{
    let ctors = decl.ctors.len() as u64;
    if room.sorts < 1 || room.ctors < ctors {
        return None;
    }
    match room_after_fields(room.sels, decl.ctors.as_slice()) {
        None => None,
        Some(sels) => Some(Room {
            sorts: room.sorts - 1,
            ctors: room.ctors - ctors,
            sels,
        }),
    }
}

// What is left for selectors after those of these constructors.
fn room_after_fields(room: u64, ctors: &[CtorDecl]) -> Option<u64>
    ensures left { IfSome result (λ left. left + length (decl_fields ctors.now) ≡ room) }
    ensures none { IfNone result (room < length (decl_fields ctors.now)) }
{
    let mut left = room;
    for ctor in ctors {
        let count = ctor.fields.len() as u64;
        if count > left {
            return None;
        }
        left -= count;
    }
    Some(left)
}
