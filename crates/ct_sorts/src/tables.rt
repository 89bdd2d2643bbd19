//! What is stored of sorts and generics.
ghost use Rattle.std.specs.Prelude.{◌≡◌, IfOk, IfErr, OnOk};
ghost use Rattle.ct_generics.specs.SortTable.{AreCounted};
ghost use Rattle.ct_sorts.specs.Growing.{IsCutTo, IsStanding};

use crate::duplicate::Duplicate;
use crate::entries::{CtorEntry, SelEntry, SortEntry};
use crate::error::{SigError, sig_error};
use crate::ids::Symbol;
use crate::mark::Mark;
use crate::numbered::Numbered;
use crate::spelling::Spelling;
use ct_generics::{Generics, Items, SortTable, denotations};
use std::alloc::{AllocError, Global};

/// The sorts without parameters, the generics and the synonyms, and all sorts with their constructors and selectors.
#[derive(Drop)]
pub(crate) struct Tables {
    /// The sorts without parameters, the generics and the synonyms.
    pub(crate) generics: Generics,
    /// For each of these sorts and generics the names of its constructors and their fields.
    pub(crate) spellings: Items<Items<Spelling>>,
    /// For each of these constructors whether its fields determine the arguments.
    pub(crate) determined: Items<Items<bool>>,
    /// What stands under each of these names.
    pub(crate) symbols: Numbered<Symbol>,
    /// What each sort is.
    pub(crate) table: SortTable,
    /// The sorts under their texts.
    pub(crate) sorts: Numbered<SortEntry>,
    /// Their constructors.
    pub(crate) ctors: Items<CtorEntry>,
    /// The selectors of these.
    pub(crate) sels: Items<SelEntry>,
}

/// Takes back what was declared after the mark.
pub(crate) fn cut_tables(tables: &mut Tables, mark: &Mark)
    requires standing { IsStanding tables.old }
    ensures standing { IsStanding tables.new }
    ensures counted { AreCounted tables.new.generics tables.new.table }
    ensures first { IsCutTo mark.now tables.old tables.new }
{
    denotations();
    tables
        .generics
        .cut_to(mark.heads as usize, mark.synonyms as usize);
    tables.spellings.truncate(mark.heads as usize);
    tables.determined.truncate(mark.heads as usize);
    tables.symbols.truncate(mark.symbols as usize);
    tables.table.sorts.truncate(mark.sorts as usize);
    tables.table.forget_counts();
    tables.sorts.truncate(mark.sorts as usize);
    tables.ctors.truncate(mark.ctors as usize);
    tables.sels.truncate(mark.sels as usize);
}

/// Equal tables. The only error is `NoMemory`.
pub(crate) fn copy_tables(alloc: Global, tables: &Tables) -> Result<Tables, SigError>
    ensures ok { IfOk result (λ copied. copied ≡ tables.now) }
    ensures err { IfErr result (λ e. e ≡ SigError.NoMemory) }
{
    let mut copied = no_tables(alloc);
    match copy_into(alloc, tables, &mut copied) {
        Ok(()) => Ok(copied),
        Err(error) => {
            drop(copied);
            Err(error)
        }
    }
}

/// Tables that keep nothing.
pub(crate) fn no_tables(alloc: Global) -> Tables {
    Tables {
        generics: Generics::new(alloc),
        spellings: Items::new(Vec::new(alloc)),
        determined: Items::new(Vec::new(alloc)),
        symbols: Numbered::new(alloc),
        table: SortTable::new(alloc),
        sorts: Numbered::new(alloc),
        ctors: Items::new(Vec::new(alloc)),
        sels: Items::new(Vec::new(alloc)),
    }
}

// Makes the second tables equal to the first.
fn copy_into(alloc: Global, tables: &Tables, copied: &mut Tables) -> Result<(), SigError>
    ensures ok { OnOk result (copied.new ≡ tables.now) }
    ensures err { IfErr result (λ e. e ≡ SigError.NoMemory) }
{
    copy_heads(alloc, tables, copied)?;
    copy_sorts(alloc, tables, copied)
}

// Makes what is declared equal.
fn copy_heads(alloc: Global, tables: &Tables, copied: &mut Tables) -> Result<(), SigError>
    ensures ok { OnOk result (copied.new ≡ record copied.old { generics = tables.now.generics; spellings = tables.now.spellings; determined = tables.now.determined; symbols = tables.now.symbols }) }
    ensures err { IfErr result (λ e. e ≡ SigError.NoMemory) }
{
    copied.generics = copy_generics(alloc, &tables.generics)?;
    copied.spellings = copy_spellings(alloc, tables.spellings.as_slice())?;
    copied.determined = copy_determined(alloc, tables.determined.as_slice())?;
    copied.symbols = tables.symbols.copy(alloc)?;
    Ok(())
}

// Makes the sorts with their constructors and selectors equal.
fn copy_sorts(alloc: Global, tables: &Tables, copied: &mut Tables) -> Result<(), SigError>
    ensures ok { OnOk result (copied.new ≡ record copied.old { table = tables.now.table; sorts = tables.now.sorts; ctors = tables.now.ctors; sels = tables.now.sels }) }
    ensures err { IfErr result (λ e. e ≡ SigError.NoMemory) }
{
    copied.table = copy_table(alloc, &tables.table)?;
    copied.sorts = tables.sorts.copy(alloc)?;
    copied.ctors = copy_items(alloc, tables.ctors.as_slice())?;
    copied.sels = copy_items(alloc, tables.sels.as_slice())?;
    Ok(())
}

// Equal declarations.
fn copy_generics(alloc: Global, generics: &Generics) -> Result<Generics, SigError>
    ensures ok { IfOk result (λ copied. copied ≡ generics.now) }
    ensures err { IfErr result (λ e. e ≡ SigError.NoMemory) }
{
    match generics.copy(alloc) {
        Ok(copied) => Ok(copied),
        Err(error) => Err(sig_error(error)),
    }
}

// An equal table of sorts.
fn copy_table(alloc: Global, table: &SortTable) -> Result<SortTable, SigError>
    ensures ok { IfOk result (λ copied. copied ≡ table.now) }
    ensures err { IfErr result (λ e. e ≡ SigError.NoMemory) }
{
    match table.copy(alloc) {
        Ok(copied) => Ok(copied),
        Err(error) => Err(sig_error(error)),
    }
}

// Equal items.
fn copy_items<T: Duplicate + Drop>(alloc: Global, items: &[T]) -> Result<Items<T>, AllocError>
    ensures equal { IfOk result (λ copied. copied ≡ items.now) }
{
    let mut copied = Vec::new(alloc);
    for item in items {
        copied.push(item.duplicate(alloc)?)?;
    }
    Ok(Items::new(copied))
}

// Equal names of the constructors of each sort and generic.
fn copy_spellings(
    alloc: Global,
    spellings: &[Items<Spelling>],
) -> Result<Items<Items<Spelling>>, AllocError>
    ensures equal { IfOk result (λ copied. copied ≡ spellings.now) }
{
    let mut copied = Vec::new(alloc);
    for ctors in spellings {
        copied.push(copy_items(alloc, ctors.as_slice())?)?;
    }
    Ok(Items::new(copied))
}

// Equal marks of constructors.
fn copy_determined(alloc: Global, marks: &[Items<bool>]) -> Result<Items<Items<bool>>, AllocError>
    ensures equal { IfOk result (λ copied. copied ≡ marks.now) }
{
    let mut copied = Vec::new(alloc);
    for ctors in marks {
        copied.push(Items::new(Vec::from_slice(alloc, ctors.as_slice())?))?;
    }
    Ok(Items::new(copied))
}
