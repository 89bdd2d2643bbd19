//! What every signature begins with.
ghost use Rattle.std.specs.Prelude.{◌≡◌, true, [], ◌∷◌, map, codes, IfOk, IfErr, OnOk};
ghost use Rattle.std.specs.List.{AllZip};
ghost use Rattle.ct_generics.specs.declared.generics.Generics.{Generics};
ghost use Rattle.ct_generics.specs.SortTable.{AreCounted, AreSorts};
ghost use Rattle.ct_generics.specs.Stored.{AreDeclared};
ghost use Rattle.ct_sorts.specs.Declarations.{start};
ghost use Rattle.ct_sorts.specs.Lookup.{names_of};
ghost use Rattle.ct_sorts.specs.Stored.{sort_of_entry, ctor_of};
ghost use Rattle.ct_sorts.specs.Symbols.{all_symbols};
ghost use Rattle.ct_sorts.specs.Tabled.{of_tables, IsEntryOf, IsTabled};

use crate::entries::{CtorEntry, SortEntry};
use crate::error::{SigError, sig_error};
use crate::facts::facts;
use crate::ids::{CtorId, Kind, SortId, Symbol};
use crate::numbered::Numbered;
use crate::spelling::{Home, Spelling};
use crate::tables::{Tables, no_tables};
use crate::unavailable::{FALSE, TRUE};
use ct_generics::{GenericError, Generics, HeadId, Items, Name, SortTable, add_named};
use std::alloc::Global;

/// The name of the first sort.
const BOOL: &[u8] = b"Bool";

/// The sort Bool, with its constructors.
pub(crate) fn start_tables(alloc: Global) -> Result<Tables, SigError>
    ensures tabled { IfOk result IsTabled }
    ensures start { IfOk result (λ tables. of_tables tables [] [] ≡ start) }
    ensures err { IfErr result (λ e. e ≡ SigError.NoMemory) }
{
    let mut tables = no_tables(alloc);
    match start_in(alloc, &mut tables) {
        Ok(()) => Ok(tables),
        Err(error) => {
            drop(tables);
            Err(error)
        }
    }
}

// Puts the sort Bool, with its constructors, in place of what the tables keep.
fn start_in(alloc: Global, tables: &mut Tables) -> Result<(), SigError>
    ensures tabled { OnOk result (IsTabled tables.new) }
    ensures start { OnOk result (of_tables tables.new [] [] ≡ start) }
    ensures err { IfErr result (λ e. e ≡ SigError.NoMemory) }
{
    facts();
    start_heads(alloc, tables)?;
    start_list(alloc, tables)
}

// What is declared.
fn start_heads(alloc: Global, tables: &mut Tables) -> Result<(), SigError>
    ensures declared { OnOk result (AreDeclared tables.new.generics start.declared) }
    ensures spellings { OnOk result (tables.new.spellings ≡ start.spellings) }
    ensures determined { OnOk result (tables.new.determined ≡ (true ∷ (true ∷ [])) ∷ []) }
    ensures symbols { OnOk result (tables.new.symbols ≡ all_symbols start) }
    ensures err { IfErr result (λ e. e ≡ SigError.NoMemory) }
{
    tables.generics = first_generics(alloc)?;
    tables.spellings = start_spellings(alloc)?;
    tables.determined = start_determined(alloc)?;
    tables.symbols = start_symbols(alloc)?;
    Ok(())
}

// The sort in the list, with its constructors.
fn start_list(alloc: Global, tables: &mut Tables) -> Result<(), SigError>
    ensures stand { OnOk result (AreSorts tables.new.table start.origins) }
    ensures counted { OnOk result ((g : Generics) → AreCounted g tables.new.table) }
    ensures sorts { OnOk result (map sort_of_entry tables.new.sorts ≡ start.sorts) }
    ensures texts { OnOk result (names_of tables.new.sorts ≡ codes "Bool" ∷ []) }
    ensures entries { OnOk result (AllZip (IsEntryOf start.origins) (map (λ e. e.1) tables.new.sorts) start.origins) }
    ensures ctors { OnOk result (map (ctor_of start.spellings) tables.new.ctors ≡ start.ctors) }
    ensures homes { OnOk result (map (λ e. e.home) tables.new.ctors ≡ record { head = 0; ctor = 0 } ∷ (record { head = 0; ctor = 1 } ∷ [])) }
    ensures sels { OnOk result (tables.new.sels ≡ []) }
    ensures others { tables.new ≡ record tables.old { table = tables.new.table; sorts = tables.new.sorts; ctors = tables.new.ctors; sels = tables.new.sels } }
    ensures err { IfErr result (λ e. e ≡ SigError.NoMemory) }
{
    tables.table = first_table(alloc)?;
    tables.sorts = start_sorts(alloc)?;
    tables.ctors = start_ctors(alloc)?;
    tables.sels = Items::new(Vec::new(alloc));
    Ok(())
}

// The first declared sort.
fn first_generics(alloc: Global) -> Result<Generics, SigError>
    ensures declared { IfOk result (λ generics. AreDeclared generics start.declared) }
    ensures err { IfErr result (λ e. e ≡ SigError.NoMemory) }
{
    match start_generics(alloc) {
        Ok(generics) => Ok(generics),
        Err(error) => Err(sig_error(error)),
    }
}

// The same, with the error of a crate below.
fn start_generics(alloc: Global) -> Result<Generics, GenericError>
    ensures declared { IfOk result (λ generics. AreDeclared generics start.declared) }
    ensures err { IfErr result (λ e. e ≡ GenericError.NoMemory) }
{
    let mut generics = Generics::new(alloc);
    let name = Name::from_slice(alloc, BOOL)?;
    add_named(alloc, &mut generics, ct_generics::Kind::Bool, &name, 0)?;
    Ok(generics)
}

// The first sort in the list.
fn first_table(alloc: Global) -> Result<SortTable, SigError>
    ensures sorts { IfOk result (λ table. AreSorts table start.origins) }
    ensures counted { IfOk result (λ table. (g : Generics) → AreCounted g table) }
    ensures err { IfErr result (λ e. e ≡ SigError.NoMemory) }
{
    match start_table(alloc) {
        Ok(table) => Ok(table),
        Err(error) => Err(sig_error(error)),
    }
}

// The same, with the error of a crate below.
fn start_table(alloc: Global) -> Result<SortTable, GenericError>
    ensures sorts { IfOk result (λ table. AreSorts table start.origins) }
    ensures counted { IfOk result (λ table. (g : Generics) → AreCounted g table) }
    ensures err { IfErr result (λ e. e ≡ GenericError.NoMemory) }
{
    let mut table = SortTable::new(alloc);
    let _ordered = table.expressions.len();
    let bool_sort = table.expressions.head(HeadId(0))?;
    table.sorts.push(bool_sort)?;
    Ok(table)
}

// The names of its constructors.
fn start_spellings(alloc: Global) -> Result<Items<Items<Spelling>>, SigError>
    ensures ok { IfOk result (λ spellings. spellings ≡ start.spellings) }
    ensures err { IfErr result (λ e. e ≡ SigError.NoMemory) }
{
    let ctors = bool_spellings(alloc)?;
    Ok(Items::new(vec![in alloc; ctors]?))
}

// That their fields determine the arguments.
fn start_determined(alloc: Global) -> Result<Items<Items<bool>>, SigError>
    ensures ok { IfOk result (λ determined. determined ≡ (true ∷ (true ∷ [])) ∷ []) }
    ensures err { IfErr result (λ e. e ≡ SigError.NoMemory) }
{
    let marks = Items::new(vec![in alloc; true, true]?);
    Ok(Items::new(vec![in alloc; marks]?))
}

// The names `true` and `false`.
fn bool_spellings(alloc: Global) -> Result<Items<Spelling>, SigError>
    ensures ok { IfOk result (λ ctors. ctors ∷ [] ≡ start.spellings) }
    ensures err { IfErr result (λ e. e ≡ SigError.NoMemory) }
{
    let first = bare_ctor(alloc, TRUE)?;
    let second = bare_ctor(alloc, FALSE)?;
    Ok(Items::new(vec![in alloc; first, second]?))
}

// The name of a constructor without fields.
fn bare_ctor(alloc: Global, name: &[u8]) -> Result<Spelling, SigError>
    ensures ok { IfOk result (λ ctor. ctor ≡ record { name = name.now; fields = [] }) }
    ensures err { IfErr result (λ e. e ≡ SigError.NoMemory) }
{
    let name = Name::from_slice(alloc, name)?;
    let fields = Items::new(Vec::new(alloc));
    Ok(Spelling { name, fields })
}

// What these names stand for.
fn start_symbols(alloc: Global) -> Result<Numbered<Symbol>, SigError>
    ensures ok { IfOk result (λ symbols. symbols ≡ all_symbols start) }
    ensures err { IfErr result (λ e. e ≡ SigError.NoMemory) }
{
    let mut symbols = Numbered::new(alloc);
    symbols.push(Name::from_slice(alloc, TRUE)?, Symbol::Ctor(CtorId(0)))?;
    symbols.push(Name::from_slice(alloc, FALSE)?, Symbol::Ctor(CtorId(1)))?;
    Ok(symbols)
}

// The sort under its text.
fn start_sorts(alloc: Global) -> Result<Numbered<SortEntry>, SigError>
    ensures ok { IfOk result (λ sorts. map sort_of_entry sorts ≡ start.sorts) }
    ensures texts { IfOk result (λ sorts. names_of sorts ≡ codes "Bool" ∷ []) }
    ensures entries { IfOk result (λ sorts. AllZip (IsEntryOf start.origins) (map (λ e. e.1) sorts) start.origins) }
    ensures err { IfErr result (λ e. e ≡ SigError.NoMemory) }
{
    let mut sorts = Numbered::new(alloc);
    let ctors = Items::new(vec![in alloc; CtorId(0), CtorId(1)]?);
    let entry = SortEntry {
        name: None,
        head: 0,
        args: Items::new(Vec::new(alloc)),
        kind: Kind::Bool,
        ctors,
    };
    sorts.push(Name::from_slice(alloc, BOOL)?, entry)?;
    Ok(sorts)
}

// Its constructors.
fn start_ctors(alloc: Global) -> Result<Items<CtorEntry>, SigError>
    ensures ok { IfOk result (λ ctors. map (ctor_of start.spellings) ctors ≡ start.ctors) }
    ensures homes { IfOk result (λ ctors. map (λ e. e.home) ctors ≡ record { head = 0; ctor = 0 } ∷ (record { head = 0; ctor = 1 } ∷ [])) }
    ensures err { IfErr result (λ e. e ≡ SigError.NoMemory) }
{
    let first = bool_ctor(alloc, 0);
    let second = bool_ctor(alloc, 1);
    Ok(Items::new(vec![in alloc; first, second]?))
}

// The constructor of Bool with this index.
fn bool_ctor(alloc: Global, ctor: u64) -> CtorEntry
    ensures value { result ≡ record { home = record { head = 0; ctor = ctor }; sort = record { 0 = 0 }; sels = [] } }
{
    CtorEntry {
        home: Home { head: 0, ctor },
        sort: SortId(0),
        sels: Items::new(Vec::new(alloc)),
    }
}
