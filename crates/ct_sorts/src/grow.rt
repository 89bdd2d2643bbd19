//! Appends sorts with their constructors and selectors.
ghost use Rattle.std.specs.Prelude.{◌≡◌, ℕ, ◌+◌, ◌<◌, ◌≤◌, ◌⊎◌, ◌^◌, ◌++◌, List, [], ◌∷◌, length, map, drop, take, sum, All, if◌then◌else◌, ◌==◌, Some, None, slice_get, IfOk, IfErr, OnOk};
ghost use Rattle.std.specs.List.{AllZip, range_with_len};
ghost use Rattle.ct_generics.specs.declared.nodes.ExprId.{ExprId};
ghost use Rattle.ct_generics.specs.declared.nodes.HeadId.{HeadId};
ghost use Rattle.ct_generics.specs.Expression.{Expression, head_of, args_of};
ghost use Rattle.ct_generics.specs.Declarations.{Head};
ghost use Rattle.ct_generics.specs.Denoted.{declared_of, sorts_of};
ghost use Rattle.ct_generics.specs.Nodes.{StandFor};
ghost use Rattle.ct_generics.specs.Reach.{AreDifferent};
ghost use Rattle.ct_generics.specs.SortTable.{AreCounted};
ghost use Rattle.ct_sorts.specs.Availability.{IsListed};
ghost use Rattle.ct_sorts.specs.declared.entries.SelEntry.{SelEntry};
ghost use Rattle.ct_sorts.specs.declared.entries.SortEntry.{SortEntry};
ghost use Rattle.ct_sorts.specs.declared.spelling.Spelling.{Spelling};
ghost use Rattle.ct_sorts.specs.Declarations.{ctor_ids, sel_ids, most_ctors, most_sels};
ghost use Rattle.ct_sorts.specs.Grown.{Begins};
ghost use Rattle.ct_sorts.specs.Growing.{AreNumbered, IsStanding, IsGrownBy, HaveGrown, AreReady, AreWithin};
ghost use Rattle.ct_sorts.specs.Heads.{NamesEach};
ghost use Rattle.ct_sorts.specs.Kinds.{kind_of};
ghost use Rattle.ct_sorts.specs.Lookup.{names_of};
ghost use Rattle.ct_sorts.specs.Made.{ctors_of_sort, sels_of_ctor, new_sels};
ghost use Rattle.ct_sorts.specs.Same.{sort_among};
ghost use Rattle.ct_sorts.specs.Shapes.{ctor_shapes, field_shapes};
ghost use Rattle.ct_sorts.specs.SortText.{sort_name, sort_text};
ghost use Rattle.ct_sorts.specs.Stored.{ctor_of, sel_of, sort_of_entry, spelling_at};
ghost use Rattle.ct_sorts.specs.Tabled.{AreAtHome, IsEntryOf};

use crate::entries::{CtorEntry, SelEntry, SortEntry};
use crate::error::{SigError, sig_error};
use crate::facts::facts;
use crate::ids::{CtorId, SelId, SortId};
use crate::item::push_item;
use crate::kinds::kind_of;
use crate::spelling::Home;
use crate::tables::Tables;
use crate::text::sort_text;
use ct_generics::{ExprId, ExprIds, HeadId, Items, Name, Spine, field_rows, head_and_args};
use std::alloc::Global;

// So many constructors in a row.
fn ctor_ids(alloc: Global, first: usize, count: usize) -> Result<Items<CtorId>, SigError>
    requires few { first + count ≤ most_ctors }
    ensures ok { IfOk result (λ ids. ids ≡ ctor_ids first count) }
    ensures err { IfErr result (λ e. e ≡ SigError.NoMemory) }
{
    let mut ids = Vec::new(alloc);
    for step in 0..count {
        ids.push(CtorId((first + step) as u32))?;
    }
    Ok(Items::new(ids))
}

// So many selectors in a row.
fn sel_ids(alloc: Global, first: usize, count: usize) -> Result<Items<SelId>, SigError>
    requires few { first + count ≤ most_sels }
    ensures ok { IfOk result (λ ids. ids ≡ sel_ids first count) }
    ensures err { IfErr result (λ e. e ≡ SigError.NoMemory) }
{
    let mut ids = Vec::new(alloc);
    for step in 0..count {
        ids.push(SelId((first + step) as u32))?;
    }
    Ok(Items::new(ids))
}

/// The entries of the sorts from this one on. The only error is `NoMemory`.
pub(crate) fn push_sorts(alloc: Global, tables: &mut Tables, first: usize) -> Result<(), SigError>
    requires ready { AreReady tables.old }
    requires first { first ≡ length tables.old.sorts }
    requires within { first ≤ length tables.old.table.sorts }
    requires few { AreWithin tables.old (drop first (sorts_of tables.old.table)) }
    ensures ok { OnOk result (IsGrownBy tables.old tables.new (drop first (sorts_of tables.old.table))) }
    ensures grown { HaveGrown tables.old tables.new }
    ensures standing { IsStanding tables.new }
    ensures counted { AreCounted tables.old.generics tables.old.table → AreCounted tables.new.generics tables.new.table }
    ensures err { IfErr result (λ e. e ≡ SigError.NoMemory) }
{
    for i in first..tables.table.sorts.len() {
        push_sort(alloc, tables, i)?;
    }
    Ok(())
}

// The entries of a sort.
fn push_sort(alloc: Global, tables: &mut Tables, i: usize) -> Result<(), SigError>
    requires ready { AreReady tables.old }
    requires next { i ≡ length tables.old.sorts }
    requires within { i < length tables.old.table.sorts }
    requires few { (e : Expression) → slice_get (sorts_of tables.old.table) i ≡ Some e → AreWithin tables.old (e ∷ []) }
    ensures ok { OnOk result ((e : Expression) → slice_get (sorts_of tables.old.table) i ≡ Some e → IsGrownBy tables.old tables.new (e ∷ [])) }
    ensures grown { HaveGrown tables.old tables.new }
    ensures standing { IsStanding tables.new }
    ensures counted { AreCounted tables.old.generics tables.old.table → AreCounted tables.new.generics tables.new.table }
    ensures err { IfErr result (λ e. e ≡ SigError.NoMemory) }
{
    facts();
    let id = tables.table.sorts.get(i);
    prove!(tables.table.expressions.len() >= 0);
    let spine = match head_and_args(alloc, &tables.table.expressions, id) {
        Ok(spine) => spine,
        Err(error) => return Err(sig_error(error)),
    };
    let rows = match field_rows(alloc, &tables.generics, &mut tables.table.expressions, id) {
        Ok(rows) => rows,
        Err(error) => return Err(sig_error(error)),
    };
    prove!(tables.table.expressions.len() >= 0);
    let head = head_of(&spine);
    let first_ctor = tables.ctors.len();
    push_ctors(alloc, tables, SortId(i as u32), head, rows.as_slice())?;
    let ctors = ctor_ids(alloc, first_ctor, rows.len())?;
    push_entry(alloc, tables, head, &spine, ctors)
}

// The sort or generic of a sort.
fn head_of(spine: &Spine) -> HeadId
    ensures head { (h : HeadId) → spine.now.head ≡ Some h → result ≡ h }
{
    match spine.head {
        Some(head) => head,
        None => HeadId(0),
    }
}

// The entry of a sort of this sort or generic, with these arguments and constructors.
fn push_entry(
    alloc: Global,
    tables: &mut Tables,
    head: HeadId,
    spine: &Spine,
    ctors: Items<CtorId>,
) -> Result<(), SigError>
    requires standing { IsStanding tables.old }
    requires few { length tables.old.table.sorts < 2 ^ 32 }
    requires head { head.0 < length (declared_of tables.old.generics).heads }
    requires different { AreDifferent (sorts_of tables.old.table) }
    requires args { All (λ id. (i : ℕ) × (i < length tables.old.sorts) × (slice_get tables.old.table.sorts i ≡ Some id)) spine.now.args }
    requires texts { names_of tables.old.sorts ≡ take (length tables.old.sorts) (map (sort_text (declared_of tables.old.generics).heads) (sorts_of tables.old.table)) }
    requires fresh { (e : Expression) × StandFor tables.old.table.expressions spine.now.args (args_of e) × (head_of e ≡ Some head.0) × (IsListed (names_of tables.old.sorts) (sort_text (declared_of tables.old.generics).heads e) → ⊥) }
    ensures ok { OnOk result ((e : Expression) (known : Head) → StandFor tables.old.table.expressions spine.now.args (args_of e) → head_of e ≡ Some head.0 → slice_get (declared_of tables.old.generics).heads head.0 ≡ Some known
        → (entry : SortEntry) × (tables.new.sorts ≡ tables.old.sorts ++ (sort_text (declared_of tables.old.generics).heads e, entry) ∷ [])
        × (sort_of_entry (sort_text (declared_of tables.old.generics).heads e, entry) ≡ record { name = sort_name (declared_of tables.old.generics).heads e; kind = kind_of known.kind; ctors = ctors })
        × IsEntryOf (sorts_of tables.old.table) entry e) }
    ensures others { tables.new ≡ record tables.old { sorts = tables.new.sorts } }
    ensures grown { Begins tables.old.sorts tables.new.sorts }
    ensures err { IfErr result (λ e. e ≡ SigError.NoMemory) }
{
    let args = numbers(alloc, &tables.table.sorts, spine.args.as_slice())?;
    let name = tables.generics.head_name(head);
    let text = sort_text(alloc, &tables.sorts, name, args.as_slice())?;
    let plain = plain_name(alloc, name, args.as_slice())?;
    let entry = SortEntry {
        name: plain,
        head: head.0,
        args,
        kind: kind_of(tables.generics.head_kind(head)),
        ctors,
    };
    tables.sorts.push(Name::new(text), entry)
}

// The name of a sort without arguments.
fn plain_name(alloc: Global, name: &[u8], args: &[SortId]) -> Result<Option<Name>, SigError>
    ensures ok { IfOk result (λ plain. plain ≡ (if length args.now == 0 then Some name.now else None)) }
    ensures err { IfErr result (λ e. e ≡ SigError.NoMemory) }
{
    if args.is_empty() {
        return Ok(Some(Name::from_slice(alloc, name)?));
    }
    Ok(None)
}

// The numbers of sorts that are there.
fn numbers(alloc: Global, sorts: &ExprIds, ids: &[ExprId]) -> Result<Items<SortId>, SigError>
    requires few { length sorts.now < 2 ^ 32 }
    requires there { All (λ id. (i : ℕ) × (slice_get sorts.now i ≡ Some id)) ids.now }
    ensures ok { IfOk result (λ numbers. AllZip (λ s id. slice_get sorts.now s.0 ≡ Some id) numbers ids.now) }
    ensures err { IfErr result (λ e. e ≡ SigError.NoMemory) }
{
    let mut numbers = Vec::with_capacity(alloc, ids.len())?;
    for id in ids {
        numbers.push(number(sorts, *id))?;
    }
    Ok(Items::new(numbers))
}

// The number of a sort that is there.
fn number(sorts: &ExprIds, id: ExprId) -> SortId
    requires few { length sorts.now < 2 ^ 32 }
    requires there { (i : ℕ) × (slice_get sorts.now i ≡ Some id) }
    ensures at { slice_get sorts.now result.0 ≡ Some id }
{
    match sorts.index_of(id) {
        Some(index) => SortId(index as u32),
        None => SortId(0),
    }
}

// The constructors of a sort, with these field sorts, and their selectors.
fn push_ctors(
    alloc: Global,
    tables: &mut Tables,
    sort: SortId,
    head: HeadId,
    rows: &[Items<ExprId>],
) -> Result<(), SigError>
    requires sorts_few { length tables.old.table.sorts < 2 ^ 32 }
    requires ctors_few { length tables.old.ctors + length rows.now ≤ most_ctors }
    requires sels_few { length tables.old.sels + sum (map length rows.now) ≤ most_sels }
    requires there { All (All (λ id. (i : ℕ) × (slice_get tables.old.table.sorts i ≡ Some id))) rows.now }
    ensures ok { OnOk result ((spellings : List Spelling) (fields : List (List Expression)) → slice_get tables.old.spellings head.0 ≡ Some spellings
        → AllZip (λ row es. AreNumbered tables.old.table.sorts row (sorts_of tables.old.table) es) rows.now fields → AllZip NamesEach spellings fields
        → (map (ctor_of tables.old.spellings) tables.new.ctors ≡ map (ctor_of tables.old.spellings) tables.old.ctors ++ ctors_of_sort sort.0 (length tables.old.sels) (ctor_shapes spellings fields))
        × (map (sel_of tables.old.spellings) tables.new.sels ≡ map (sel_of tables.old.spellings) tables.old.sels ++ new_sels (sort_among (sorts_of tables.old.table)) (length tables.old.ctors) (ctor_shapes spellings fields))) }
    ensures homes { OnOk result (map (λ e. e.home) tables.new.ctors ≡ map (λ e. e.home) tables.old.ctors ++ map (λ i. record { head = head.0; ctor = i }) (range_with_len 0 (length rows.now))) }
    ensures sel_homes { OnOk result (AreAtHome tables.old.ctors tables.old.sels → AreAtHome tables.new.ctors tables.new.sels) }
    ensures others { tables.new ≡ record tables.old { ctors = tables.new.ctors; sels = tables.new.sels } }
    ensures grown { Begins tables.old.ctors tables.new.ctors × Begins tables.old.sels tables.new.sels }
    ensures err { IfErr result (λ e. e ≡ SigError.NoMemory) }
{
    let mut index = 0u64;
    for row in rows {
        let home = Home {
            head: head.0,
            ctor: index,
        };
        push_ctor(alloc, tables, sort, home, row.as_slice())?;
        index += 1;
    }
    Ok(())
}

// A constructor of a sort, with these field sorts, and its selectors.
fn push_ctor(
    alloc: Global,
    tables: &mut Tables,
    sort: SortId,
    home: Home,
    row: &[ExprId],
) -> Result<(), SigError>
    requires sorts_few { length tables.old.table.sorts < 2 ^ 32 }
    requires ctors_few { length tables.old.ctors < most_ctors }
    requires sels_few { length tables.old.sels + length row.now ≤ most_sels }
    requires there { All (λ id. (i : ℕ) × (slice_get tables.old.table.sorts i ≡ Some id)) row.now }
    ensures ok { OnOk result ((names : Spelling) (es : List Expression) → spelling_at tables.old.spellings home ≡ Some names
        → AreNumbered tables.old.table.sorts row.now (sorts_of tables.old.table) es → NamesEach names es
        → (map (ctor_of tables.old.spellings) tables.new.ctors ≡ map (ctor_of tables.old.spellings) tables.old.ctors ++ ctors_of_sort sort.0 (length tables.old.sels) (record { name = names.name; fields = field_shapes names.fields es } ∷ []))
        × (map (sel_of tables.old.spellings) tables.new.sels ≡ map (sel_of tables.old.spellings) tables.old.sels ++ sels_of_ctor (sort_among (sorts_of tables.old.table)) (length tables.old.ctors) 0 (field_shapes names.fields es))) }
    ensures homes { OnOk result (map (λ e. e.home) tables.new.ctors ≡ map (λ e. e.home) tables.old.ctors ++ home ∷ []) }
    ensures long { OnOk result (length tables.new.sels ≡ length tables.old.sels + length row.now) }
    ensures sel_homes { OnOk result (AreAtHome tables.old.ctors tables.old.sels → AreAtHome tables.new.ctors tables.new.sels) }
    ensures others { tables.new ≡ record tables.old { ctors = tables.new.ctors; sels = tables.new.sels } }
    ensures grown { Begins tables.old.ctors tables.new.ctors × Begins tables.old.sels tables.new.sels }
    ensures err { IfErr result (λ e. e ≡ SigError.NoMemory) }
{
    let ctor = CtorId(tables.ctors.len() as u32);
    let sels = sel_ids(alloc, tables.sels.len(), row.len())?;
    push_item(&mut tables.ctors, CtorEntry { home, sort, sels })?;
    push_sels(&tables.table.sorts, &mut tables.sels, home, ctor, row)
}

// The selectors of a constructor with these field sorts.
fn push_sels(
    sorts: &ExprIds,
    sels: &mut Items<SelEntry>,
    home: Home,
    ctor: CtorId,
    row: &[ExprId],
) -> Result<(), SigError>
    requires few { length sorts.now < 2 ^ 32 }
    requires fields_few { length row.now ≤ most_sels }
    requires there { All (λ id. (i : ℕ) × (slice_get sorts.now i ≡ Some id)) row.now }
    ensures ok { OnOk result ((spellings : List (List Spelling)) (origins es : List Expression) (ctors : List Spelling) (names : Spelling)
        → AreNumbered sorts.now row.now origins es → slice_get spellings home.head ≡ Some ctors → slice_get ctors home.ctor ≡ Some names → NamesEach names es
        → map (sel_of spellings) sels.new ≡ map (sel_of spellings) sels.old ++ sels_of_ctor (sort_among origins) ctor.0 0 (field_shapes names.fields es)) }
    ensures long { OnOk result (length sels.new ≡ length sels.old + length row.now) }
    ensures homes { (s : ℕ) (entry : SelEntry) → slice_get sels.new s ≡ Some entry → (slice_get sels.old s ≡ Some entry) ⊎ ((entry.home ≡ home) × (entry.ctor ≡ ctor)) }
    ensures grown { Begins sels.old sels.new }
    ensures err { IfErr result (λ e. e ≡ SigError.NoMemory) }
{
    let mut place = 0u32;
    for field in row {
        let sort = number(sorts, *field);
        let entry = SelEntry {
            home,
            ctor,
            place,
            sort,
        };
        push_item(sels, entry)?;
        place += 1;
    }
    Ok(())
}
