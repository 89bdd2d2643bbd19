//! Blocks: the sorts and generics that are declared together, with the names of their constructors and fields, and the sorts
//! that come with them.
ghost use Rattle.std.specs.Prelude.{◌≡◌, ℕ, ◌+◌, ◌<◌, ◌≤◌, ◌⊎◌, ◌++◌, List, [], ◌∷◌, length, map, take, drop, if◌then◌else◌, ◌==◌, Some, slice_get, IfOk, IfErr, IsErrOf, OnOk, OnErr, true};
ghost use Rattle.std.specs.List.{flat_map};
ghost use Rattle.ct_generics.specs.declared.decl.Field.{Field};
ghost use Rattle.ct_generics.specs.declared.nodes.ExprId.{ExprId};
ghost use Rattle.ct_generics.specs.Add.{IsAdded, field_sorts};
ghost use Rattle.ct_generics.specs.Block.{heads_in, with_heads, IsBlockRefusal as IsRefusalOfHeads};
ghost use Rattle.ct_generics.specs.Declarations.{Head};
ghost use Rattle.ct_generics.specs.Denoted.{declared_of, sorts_of};
ghost use Rattle.ct_generics.specs.Expression.{Expression, named};
ghost use Rattle.ct_generics.specs.Nodes.{Stands, StandFor, Stay};
ghost use Rattle.ct_generics.specs.SortTable.{AreCounted, AreSorts};
ghost use Rattle.ct_generics.specs.Stored.{AreDeclared, AreFree};
ghost use Rattle.ct_sorts.specs.Block.{HasNameTaken, IsLaterRefusal, IsWithBlock, block_ctors, block_names, block_spellings, ctor_symbols, given_from, has_no_constructor, params_of, plain_from, spelling};
ghost use Rattle.ct_sorts.specs.Consistent.{IsConsistent};
ghost use Rattle.ct_sorts.specs.Declarations.{Function, most_sorts, most_ctors, most_sels};
ghost use Rattle.ct_sorts.specs.Determined.{AreMarked};
ghost use Rattle.ct_sorts.specs.Grown.{Begins};
ghost use Rattle.ct_sorts.specs.Growing.{HaveGrown, IsStanding};
ghost use Rattle.ct_sorts.specs.Kinds.{head_kind};
ghost use Rattle.ct_sorts.specs.Lookup.{AreDistinct, names_of};
ghost use Rattle.ct_sorts.specs.Marks.{lengths};
ghost use Rattle.ct_sorts.specs.Refusals.{too_many};
ghost use Rattle.ct_sorts.specs.Room.{decl_fields};
ghost use Rattle.ct_sorts.specs.Symbols.{block_symbols, generic_sel_symbols, generic_symbols, numbered_sels, numbered_symbols};
ghost use Rattle.ct_sorts.specs.Tabled.{of_tables, IsTabled};
ghost use Rattle.ct_sorts.specs.Written.{AreBlockParametersBelow};

use crate::error::{SigError, sig_error};
use crate::facts::facts;
use crate::grow::push_sorts;
use crate::ids::{CtorId, Declared, GenId, Kind, SelId, SortId, Symbol};
use crate::item::push_item;
use crate::kinds::head_kind;
use crate::limits::{room_after, room_in};
use crate::mark::Mark;
use crate::numbered::Numbered;
use crate::refusals::TOO_MANY;
use crate::spelling::Spelling;
use crate::tables::{Tables, cut_tables};
use ct_generics::{
    CtorDecl, ExprId, Expressions, Field, Generics, HeadId, Items, Name, Room, SortDecl, SortTable,
    add_sorts, field_rows,
};
use std::alloc::Global;

/// Declares a block whose names may be declared and whose sorts and generics have constructors. A refusal changes nothing.
pub(crate) fn declare_block(
    alloc: Global,
    tables: &mut Tables,
    mark: &Mark,
    kind: Kind,
    block: &[SortDecl],
) -> Result<Vec<Declared>, SigError>
    requires tabled { IsTabled tables.old }
    requires free { (fs ds : List Function) × IsConsistent (of_tables tables.old fs ds) × (HasNameTaken (of_tables tables.old fs ds) block.now → ⊥) }
    requires kind { (kind ≡ Kind.Data) ⊎ (kind ≡ Kind.Codata) }
    requires parameters { AreBlockParametersBelow block.now }
    requires built { has_no_constructor block.now ≡ true → ⊥ }
    requires mark { (fs ds : List Function) × (mark.now ≡ lengths (of_tables tables.old fs ds)) }
    ensures ok { IfOk result (λ given. (fs ds : List Function) → IsWithBlock (of_tables tables.old fs ds) kind block.now given.items (of_tables tables.new fs ds)) }
    ensures accepted { OnOk result ((n : ℕ) (fs ds : List Function) → IsLaterRefusal (of_tables tables.old fs ds) kind block.now n → ⊥) }
    ensures refused { (n : ℕ) (fs ds : List Function) → IsErrOf result (SigError.Refused n) → IsLaterRefusal (of_tables tables.old fs ds) kind block.now n }
    ensures unchanged { OnErr result ((fs ds : List Function) → of_tables tables.new fs ds ≡ of_tables tables.old fs ds) }
    ensures tabled { IsTabled tables.new }
    ensures consistent { (fs ds : List Function) → IsConsistent (of_tables tables.old fs ds) → (HasNameTaken (of_tables tables.old fs ds) block.now → ⊥) → IsConsistent (of_tables tables.new fs ds) }
{
    match try_block(alloc, tables, kind, block) {
        Ok(given) => Ok(given),
        Err(error) => {
            cut_tables(tables, mark);
            Err(error)
        }
    }
}

// The same, but what is declared may stay where the block is refused.
fn try_block(
    alloc: Global,
    tables: &mut Tables,
    kind: Kind,
    block: &[SortDecl],
) -> Result<Vec<Declared>, SigError>
    requires tabled { IsTabled tables.old }
    requires free { (fs ds : List Function) × IsConsistent (of_tables tables.old fs ds) × (HasNameTaken (of_tables tables.old fs ds) block.now → ⊥) }
    requires kind { (kind ≡ Kind.Data) ⊎ (kind ≡ Kind.Codata) }
    requires parameters { AreBlockParametersBelow block.now }
    requires built { has_no_constructor block.now ≡ true → ⊥ }
    ensures ok { IfOk result (λ given. (fs ds : List Function) → IsWithBlock (of_tables tables.old fs ds) kind block.now given.items (of_tables tables.new fs ds)) }
    ensures accepted { OnOk result ((n : ℕ) (fs ds : List Function) → IsLaterRefusal (of_tables tables.old fs ds) kind block.now n → ⊥) }
    ensures refused { (n : ℕ) (fs ds : List Function) → IsErrOf result (SigError.Refused n) → IsLaterRefusal (of_tables tables.old fs ds) kind block.now n }
    ensures grown { HaveGrown tables.old tables.new }
    ensures standing { IsStanding tables.new }
    ensures tabled { OnOk result (IsTabled tables.new) }
    ensures consistent { OnOk result ((fs ds : List Function) → IsConsistent (of_tables tables.old fs ds) → (HasNameTaken (of_tables tables.old fs ds) block.now → ⊥) → IsConsistent (of_tables tables.new fs ds)) }
{
    facts();
    let room = room_in(tables);
    let first_head = tables.generics.head_count();
    let first_sort = tables.table.sorts.len();
    declare_heads(alloc, tables, kind, block)?;
    let Some(left) = room_after(room, block) else {
        return Err(SigError::Refused(TOO_MANY));
    };
    declare_symbols(alloc, tables, first_head, block)?;
    let given = add_own(alloc, tables, first_head, block, left)?;
    push_sorts(alloc, tables, first_sort)?;
    Ok(given)
}

// Declares the sorts and generics of a block whose names are free. A refusal changes nothing.
fn declare_heads(
    alloc: Global,
    tables: &mut Tables,
    kind: Kind,
    block: &[SortDecl],
) -> Result<(), SigError>
    requires standing { IsStanding tables.old }
    requires free { AreFree (map (λ (h : Head). h.name) (declared_of tables.old.generics).heads) (block_names block.now) }
    ensures ok { OnOk result ((own : List Head) × (heads_in (declared_of tables.old.generics) (head_kind kind) block.now ≡ Ok own)
        × (declared_of tables.new.generics ≡ with_heads (declared_of tables.old.generics) own)) }
    ensures accepted { OnOk result ((n : ℕ) → IsRefusalOfHeads (declared_of tables.old.generics) (head_kind kind) block.now n → ⊥) }
    ensures refused { (n : ℕ) → IsErrOf result (SigError.Refused n) → IsRefusalOfHeads (declared_of tables.old.generics) (head_kind kind) block.now n }
    ensures others { tables.new ≡ record tables.old { generics = tables.new.generics } }
    ensures grown { HaveGrown tables.old tables.new }
    ensures standing { IsStanding tables.new }
{
    facts();
    match ct_generics::add_block(alloc, &mut tables.generics, head_kind(kind), block) {
        Ok(()) => Ok(()),
        Err(error) => Err(sig_error(error)),
    }
}

// Puts the names of the constructors and fields of a block that is declared, those of its sorts and generics from this one on,
// after those that are there, with what they stand for.
fn declare_symbols(
    alloc: Global,
    tables: &mut Tables,
    first_head: usize,
    block: &[SortDecl],
) -> Result<(), SigError>
    requires standing { IsStanding tables.old }
    requires first { first_head ≡ length tables.old.determined }
    requires within { first_head ≤ length (declared_of tables.old.generics).heads }
    requires marked { AreMarked (take first_head (declared_of tables.old.generics).heads) tables.old.determined }
    requires heads_few { first_head + length block.now ≤ most_sorts }
    requires ctors_few { length tables.old.ctors + length (block_ctors block.now) ≤ most_ctors }
    requires sels_few { length tables.old.sels + length (decl_fields (block_ctors block.now)) ≤ most_sels }
    requires fresh { AreDistinct (names_of tables.old.symbols ++ ctor_symbols (block_ctors block.now)) }
    ensures spellings { OnOk result (tables.new.spellings ≡ tables.old.spellings ++ block_spellings block.now) }
    ensures determined { OnOk result (AreMarked (declared_of tables.old.generics).heads tables.new.determined) }
    ensures symbols { OnOk result (tables.new.symbols ≡ tables.old.symbols ++ block_symbols first_head (length tables.old.ctors) (length tables.old.sels) (params_of block.now) (block_spellings block.now)) }
    ensures others { tables.new ≡ record tables.old { spellings = tables.new.spellings; determined = tables.new.determined; symbols = tables.new.symbols } }
    ensures grown { HaveGrown tables.old tables.new }
    ensures standing { IsStanding tables.new }
    ensures err { IfErr result (λ e. e ≡ SigError.NoMemory) }
{
    let next = Next {
        ctor: tables.ctors.len() as u32,
        sel: tables.sels.len() as u32,
    };
    push_spellings(alloc, &mut tables.spellings, block)?;
    push_determined(alloc, &tables.generics, &mut tables.determined, first_head)?;
    push_symbols(alloc, &mut tables.symbols, first_head, next, block)
}

// The sorts without parameters of a block that is declared, those of its sorts and generics from this one on, come into the
// list of sorts, and then the sorts of their fields with all that come with these, where there is so much room.
fn add_own(
    alloc: Global,
    tables: &mut Tables,
    first_head: usize,
    block: &[SortDecl],
    left: Room,
) -> Result<Vec<Declared>, SigError>
    requires standing { IsStanding tables.old }
    requires fresh { (s h : ℕ) → slice_get (sorts_of tables.old.table) s ≡ Some (named h) → h < first_head }
    requires sorts_few { length tables.old.table.sorts + length block.now ≤ most_sorts }
    requires heads_few { first_head + length block.now ≤ most_sorts }
    ensures given { IfOk result (λ given. given.items ≡ given_from (length tables.old.table.sorts) first_head (params_of block.now)) }
    ensures ok { OnOk result ((added : List Expression) × (sorts_of tables.new.table ≡ (sorts_of tables.old.table ++ plain_from first_head (params_of block.now)) ++ added)
        × IsAdded (declared_of tables.old.generics).heads left (flat_map (field_sorts (declared_of tables.old.generics).heads) (plain_from first_head (params_of block.now)))
        (sorts_of tables.old.table ++ plain_from first_head (params_of block.now)) added) }
    ensures refused { (n : ℕ) → IsErrOf result (SigError.Refused n) → (n ≡ too_many) × ((added : List Expression)
        → IsAdded (declared_of tables.old.generics).heads left (flat_map (field_sorts (declared_of tables.old.generics).heads) (plain_from first_head (params_of block.now)))
        (sorts_of tables.old.table ++ plain_from first_head (params_of block.now)) added → ⊥) }
    ensures others { tables.new ≡ record tables.old { table = tables.new.table } }
    ensures grown { HaveGrown tables.old tables.new }
    ensures standing { IsStanding tables.new }
    ensures counted { OnOk result (AreCounted tables.new.generics tables.new.table) }
{
    facts();
    let first_sort = tables.table.sorts.len();
    let given = push_own(alloc, &mut tables.table, first_head, block)?;
    let fields = fields_from(alloc, &tables.generics, &mut tables.table, first_sort)?;
    tables.table.forget_counts();
    match add_sorts(
        alloc,
        &tables.generics,
        &mut tables.table,
        fields.as_slice(),
        left,
    ) {
        Ok(()) => Ok(given),
        Err(error) => Err(sig_error(error)),
    }
}

// The names of the constructors of the block's sorts and generics.
fn push_spellings(
    alloc: Global,
    spellings: &mut Items<Items<Spelling>>,
    block: &[SortDecl],
) -> Result<(), SigError>
    ensures ok { OnOk result (spellings.new ≡ spellings.old ++ block_spellings block.now) }
    ensures grown { Begins spellings.old spellings.new }
    ensures err { IfErr result (λ e. e ≡ SigError.NoMemory) }
{
    for decl in block {
        let ctors = spellings_of(alloc, decl.ctors.as_slice())?;
        push_item(spellings, Items::new(ctors))?;
    }
    Ok(())
}

// The names of constructors and their fields.
fn spellings_of(alloc: Global, ctors: &[CtorDecl]) -> Result<Vec<Spelling>, SigError>
    ensures ok { IfOk result (λ spellings. spellings.items ≡ map spelling ctors.now) }
    ensures err { IfErr result (λ e. e ≡ SigError.NoMemory) }
{
    let mut spellings = Vec::with_capacity(alloc, ctors.len())?;
    for ctor in ctors {
        let name = Name::from_slice(alloc, ctor.name.as_slice())?;
        let fields = field_names(alloc, ctor)?;
        spellings.push(Spelling { name, fields })?;
    }
    Ok(spellings)
}

// The names of a constructor's fields.
fn field_names(alloc: Global, ctor: &CtorDecl) -> Result<Items<Name>, SigError>
    ensures ok { IfOk result (λ names. names ≡ map (λ (f : Field). f.name) ctor.now.fields) }
    ensures err { IfErr result (λ e. e ≡ SigError.NoMemory) }
{
    let mut names = Vec::with_capacity(alloc, ctor.fields.len())?;
    for field in ctor.fields.as_slice() {
        names.push(Name::from_slice(alloc, field.name.as_slice())?)?;
    }
    Ok(Items::new(names))
}

// Marks for the constructors of each sort and generic from this one on whether their fields determine the arguments.
fn push_determined(
    alloc: Global,
    generics: &Generics,
    determined: &mut Items<Items<bool>>,
    first: usize,
) -> Result<(), SigError>
    requires declared { AreDeclared generics.now (declared_of generics.now) }
    requires first { first ≡ length determined.old }
    requires within { first ≤ length (declared_of generics.now).heads }
    requires marked { AreMarked (take first (declared_of generics.now).heads) determined.old }
    ensures ok { OnOk result (AreMarked (declared_of generics.now).heads determined.new) }
    ensures grown { Begins determined.old determined.new }
    ensures err { IfErr result (λ e. e ≡ SigError.NoMemory) }
{
    for h in first..generics.head_count() {
        let marks = match ct_generics::determined(alloc, generics, HeadId(h as u64)) {
            Ok(marks) => marks,
            Err(error) => return Err(sig_error(error)),
        };
        push_item(determined, Items::new(marks))?;
    }
    Ok(())
}

// What the names of the block's constructors and fields stand for. The sorts without parameters come first among the new
// ones in the list, in order, so that their constructors and selectors have the next numbers.
fn push_symbols(
    alloc: Global,
    symbols: &mut Numbered<Symbol>,
    first_head: usize,
    first: Next,
    block: &[SortDecl],
) -> Result<(), SigError>
    requires heads_few { first_head + length block.now ≤ most_sorts }
    requires ctors_few { first.ctor + length (block_ctors block.now) ≤ most_ctors }
    requires sels_few { first.sel + length (decl_fields (block_ctors block.now)) ≤ most_sels }
    requires fresh { AreDistinct (names_of symbols.old ++ ctor_symbols (block_ctors block.now)) }
    ensures ok { OnOk result (symbols.new ≡ symbols.old ++ block_symbols first_head first.ctor first.sel (params_of block.now) (block_spellings block.now)) }
    ensures grown { Begins symbols.old symbols.new }
    ensures err { IfErr result (λ e. e ≡ SigError.NoMemory) }
{
    let mut head = first_head;
    let mut next = first;
    for decl in block {
        next = push_decl(alloc, symbols, head, next, decl)?;
        head += 1;
    }
    Ok(())
}

// The constructors and selectors of a sort or generic: those of a sort without parameters have the numbers from these on.
fn push_decl(
    alloc: Global,
    symbols: &mut Numbered<Symbol>,
    head: usize,
    first: Next,
    decl: &SortDecl,
) -> Result<Next, SigError>
    requires heads_few { head < most_sorts }
    requires ctors_few { first.ctor + length decl.now.ctors ≤ most_ctors }
    requires sels_few { first.sel + length (decl_fields decl.now.ctors) ≤ most_sels }
    requires fresh { AreDistinct (names_of symbols.old ++ ctor_symbols decl.now.ctors) }
    ensures ok { OnOk result (symbols.new ≡ symbols.old ++ (if decl.now.params == 0 then numbered_symbols first.ctor first.sel (map spelling decl.now.ctors) else generic_symbols (record { 0 = head }) 0 (map spelling decl.now.ctors))) }
    ensures ctor { IfOk result (λ next. next.ctor ≡ (if decl.now.params == 0 then first.ctor + length decl.now.ctors else first.ctor)) }
    ensures sel { IfOk result (λ next. next.sel ≡ (if decl.now.params == 0 then first.sel + length (decl_fields decl.now.ctors) else first.sel)) }
    ensures grown { Begins symbols.old symbols.new }
    ensures err { IfErr result (λ e. e ≡ SigError.NoMemory) }
{
    let ctors = decl.ctors.as_slice();
    if decl.params == 0 {
        return push_plain(alloc, symbols, first, ctors);
    }
    push_generic(alloc, symbols, GenId(head as u32), ctors)?;
    Ok(first)
}

// The numbers of the next constructor and the next selector.
#[derive(Clone, Copy, Debug)]
struct Next {
    ctor: u32,
    sel: u32,
}

// The constructors and selectors of a sort without parameters, which have the numbers from these on.
fn push_plain(
    alloc: Global,
    symbols: &mut Numbered<Symbol>,
    first: Next,
    ctors: &[CtorDecl],
) -> Result<Next, SigError>
    requires ctors_few { first.ctor + length ctors.now ≤ most_ctors }
    requires sels_few { first.sel + length (decl_fields ctors.now) ≤ most_sels }
    requires fresh { AreDistinct (names_of symbols.old ++ ctor_symbols ctors.now) }
    ensures ok { OnOk result (symbols.new ≡ symbols.old ++ numbered_symbols first.ctor first.sel (map spelling ctors.now)) }
    ensures next { IfOk result (λ next. (next.ctor ≡ first.ctor + length ctors.now) × (next.sel ≡ first.sel + length (decl_fields ctors.now))) }
    ensures grown { Begins symbols.old symbols.new }
    ensures err { IfErr result (λ e. e ≡ SigError.NoMemory) }
{
    let mut next = first;
    for ctor in ctors {
        let name = Name::from_slice(alloc, ctor.name.as_slice())?;
        symbols.push(name, Symbol::Ctor(CtorId(next.ctor)))?;
        let sel = push_plain_fields(alloc, symbols, next.sel, ctor.fields.as_slice())?;
        next = Next {
            ctor: next.ctor + 1,
            sel,
        };
    }
    Ok(next)
}

// The selectors of a constructor, which have the numbers from this on.
fn push_plain_fields(
    alloc: Global,
    symbols: &mut Numbered<Symbol>,
    first: u32,
    fields: &[Field],
) -> Result<u32, SigError>
    requires few { first + length fields.now ≤ most_sels }
    requires fresh { AreDistinct (names_of symbols.old ++ map (λ (f : Field). f.name) fields.now) }
    ensures ok { OnOk result (symbols.new ≡ symbols.old ++ numbered_sels first (map (λ (f : Field). f.name) fields.now)) }
    ensures next { IfOk result (λ next. next ≡ first + length fields.now) }
    ensures grown { Begins symbols.old symbols.new }
    ensures err { IfErr result (λ e. e ≡ SigError.NoMemory) }
{
    let mut sel = first;
    for field in fields {
        let name = Name::from_slice(alloc, field.name.as_slice())?;
        symbols.push(name, Symbol::Sel(SelId(sel)))?;
        sel += 1;
    }
    Ok(sel)
}

// The constructors and selectors of a generic.
fn push_generic(
    alloc: Global,
    symbols: &mut Numbered<Symbol>,
    g: GenId,
    ctors: &[CtorDecl],
) -> Result<(), SigError>
    requires ctors_few { length ctors.now ≤ most_ctors }
    requires sels_few { length (decl_fields ctors.now) ≤ most_sels }
    requires fresh { AreDistinct (names_of symbols.old ++ ctor_symbols ctors.now) }
    ensures ok { OnOk result (symbols.new ≡ symbols.old ++ generic_symbols g 0 (map spelling ctors.now)) }
    ensures grown { Begins symbols.old symbols.new }
    ensures err { IfErr result (λ e. e ≡ SigError.NoMemory) }
{
    let mut index = 0u32;
    for ctor in ctors {
        let name = Name::from_slice(alloc, ctor.name.as_slice())?;
        symbols.push(name, Symbol::GenCtor(g, index))?;
        push_generic_fields(alloc, symbols, g, index, ctor.fields.as_slice())?;
        index += 1;
    }
    Ok(())
}

// The selectors of a constructor of a generic.
fn push_generic_fields(
    alloc: Global,
    symbols: &mut Numbered<Symbol>,
    g: GenId,
    index: u32,
    fields: &[Field],
) -> Result<(), SigError>
    requires few { length fields.now ≤ most_sels }
    requires fresh { AreDistinct (names_of symbols.old ++ map (λ (f : Field). f.name) fields.now) }
    ensures ok { OnOk result (symbols.new ≡ symbols.old ++ generic_sel_symbols g index 0 (map (λ (f : Field). f.name) fields.now)) }
    ensures grown { Begins symbols.old symbols.new }
    ensures err { IfErr result (λ e. e ≡ SigError.NoMemory) }
{
    let mut place = 0u32;
    for field in fields {
        let name = Name::from_slice(alloc, field.name.as_slice())?;
        symbols.push(name, Symbol::GenSel(g, index, place))?;
        place += 1;
    }
    Ok(())
}

// The block's sorts without parameters come next in the list of sorts. The numbers of the sorts and generics.
fn push_own(
    alloc: Global,
    table: &mut SortTable,
    first_head: usize,
    block: &[SortDecl],
) -> Result<Vec<Declared>, SigError>
    requires fresh { (sorts : List Expression) × AreSorts table.old sorts × ((s h : ℕ) → slice_get sorts s ≡ Some (named h) → h < first_head) }
    requires sorts_few { length table.old.sorts + length block.now ≤ most_sorts }
    requires heads_few { first_head + length block.now ≤ most_sorts }
    ensures given { IfOk result (λ given. given.items ≡ given_from (length table.old.sorts) first_head (params_of block.now)) }
    ensures sorts { OnOk result ((sorts : List Expression) → AreSorts table.old sorts → AreSorts table.new (sorts ++ plain_from first_head (params_of block.now))) }
    ensures begun { (sorts : List Expression) → AreSorts table.old sorts → (more : List Expression) × AreSorts table.new (sorts ++ more) }
    ensures stay { Stay table.old.expressions table.new.expressions }
    ensures counts { table.new.counts ≡ table.old.counts }
    ensures err { IfErr result (λ e. e ≡ SigError.NoMemory) }
{
    let mut given = Vec::with_capacity(alloc, block.len())?;
    let mut head = first_head;
    for decl in block {
        let number = push_head(table, head, decl.params)?;
        given.push(number)?;
        head += 1;
    }
    Ok(given)
}

/// The number of a sort or generic: a sort without parameters comes next in the list. The only error is `NoMemory`.
pub(crate) fn push_head(
    table: &mut SortTable,
    head: usize,
    params: u64,
) -> Result<Declared, SigError>
    requires fresh { (sorts : List Expression) × AreSorts table.old sorts × ((s : ℕ) → slice_get sorts s ≡ Some (named head) → ⊥) }
    requires sorts_few { length table.old.sorts < most_sorts }
    requires heads_few { head < most_sorts }
    ensures given { IfOk result (λ given. given ∷ [] ≡ given_from (length table.old.sorts) head (params ∷ [])) }
    ensures sorts { OnOk result ((sorts : List Expression) → AreSorts table.old sorts → AreSorts table.new (sorts ++ plain_from head (params ∷ []))) }
    ensures begun { (sorts : List Expression) → AreSorts table.old sorts → (more : List Expression) × AreSorts table.new (sorts ++ more) }
    ensures stay { Stay table.old.expressions table.new.expressions }
    ensures counts { table.new.counts ≡ table.old.counts }
    ensures err { IfErr result (λ e. e ≡ SigError.NoMemory) }
{
    if params > 0 {
        return Ok(Declared::Generic(GenId(head as u32)));
    }
    let count = table.sorts.len();
    match push_plain_sort(table, head) {
        Ok(()) => Ok(Declared::Sort(SortId(count as u32))),
        Err(error) => Err(error),
    }
}

// A sort without parameters, by its number among the sorts and generics, comes next in the list.
fn push_plain_sort(table: &mut SortTable, head: usize) -> Result<(), SigError>
    requires fresh { (sorts : List Expression) × AreSorts table.old sorts × ((s : ℕ) → slice_get sorts s ≡ Some (named head) → ⊥) }
    ensures sorts { OnOk result ((sorts : List Expression) → AreSorts table.old sorts → AreSorts table.new (sorts ++ named head ∷ [])) }
    ensures begun { (sorts : List Expression) → AreSorts table.old sorts → (more : List Expression) × AreSorts table.new (sorts ++ more) }
    ensures stay { Stay table.old.expressions table.new.expressions }
    ensures counts { table.new.counts ≡ table.old.counts }
    ensures err { IfErr result (λ e. e ≡ SigError.NoMemory) }
{
    let id = match table.expressions.head(HeadId(head as u64)) {
        Ok(id) => id,
        Err(error) => return Err(sig_error(error)),
    };
    match table.sorts.push(id) {
        Ok(()) => Ok(()),
        Err(error) => Err(sig_error(error)),
    }
}

// The sorts of the fields of the sorts from this one on.
fn fields_from(
    alloc: Global,
    generics: &Generics,
    table: &mut SortTable,
    first: usize,
) -> Result<Vec<ExprId>, SigError>
    requires declared { AreDeclared generics.now (declared_of generics.now) }
    requires stand { (sorts : List Expression) × AreSorts table.old sorts }
    requires within { first ≤ length table.old.sorts }
    ensures ok { IfOk result (λ fields. (sorts : List Expression) → AreSorts table.old sorts → StandFor table.new.expressions fields.items (flat_map (field_sorts (declared_of generics.now).heads) (drop first sorts))) }
    ensures sorts { table.new.sorts ≡ table.old.sorts }
    ensures counts { table.new.counts ≡ table.old.counts }
    ensures stay { Stay table.old.expressions table.new.expressions }
    ensures err { IfErr result (λ e. e ≡ SigError.NoMemory) }
{
    let mut fields = Vec::new(alloc);
    for i in first..table.sorts.len() {
        let id = table.sorts.get(i);
        push_rows(alloc, generics, &mut table.expressions, id, &mut fields)?;
    }
    Ok(fields)
}

// The sorts of a sort's fields.
fn push_rows(
    alloc: Global,
    generics: &Generics,
    expressions: &mut Expressions,
    id: ExprId,
    fields: &mut Vec<ExprId>,
) -> Result<(), SigError>
    requires declared { AreDeclared generics.now (declared_of generics.now) }
    requires within { id.0 < length expressions.old }
    ensures ok { OnOk result ((e : Expression) → Stands expressions.old id.0 e
        → (more : List ExprId) × (fields.new.items ≡ fields.old.items ++ more) × StandFor expressions.new more (field_sorts (declared_of generics.now).heads e)) }
    ensures stay { Stay expressions.old expressions.new }
    ensures err { IfErr result (λ e. e ≡ SigError.NoMemory) }
{
    match field_rows(alloc, generics, expressions, id) {
        Err(error) => Err(sig_error(error)),
        Ok(rows) => {
            for row in rows.as_slice() {
                fields.extend_from_slice(row.as_slice())?;
            }
            Ok(())
        }
    }
}
