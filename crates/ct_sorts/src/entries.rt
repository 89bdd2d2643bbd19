//! What a signature stores of each declaration besides its name.
ghost use Rattle.std.specs.Prelude.{◌≡◌, IfOk};

use crate::duplicate::Duplicate;
use crate::ids::{CtorId, Kind, SelId, SortId, Symbol};
use crate::spelling::{Home, Spelling};
use ct_generics::{Items, Name};
use std::alloc::{AllocError, Global};

/// What is stored of a sort beside its text.
#[derive(Drop)]
pub(crate) struct SortEntry {
    /// The name, where it may be another than the text.
    pub(crate) name: Option<Name>,
    /// The number of the sort without parameters or the generic.
    pub(crate) head: u64,
    /// The arguments.
    pub(crate) args: Items<SortId>,
    pub(crate) kind: Kind,
    pub(crate) ctors: Items<CtorId>,
}

/// What is stored of a constructor.
#[derive(Drop)]
pub(crate) struct CtorEntry {
    pub(crate) home: Home,
    pub(crate) sort: SortId,
    pub(crate) sels: Items<SelId>,
}

/// What is stored of a selector.
#[derive(Clone, Copy)]
pub(crate) struct SelEntry {
    pub(crate) home: Home,
    pub(crate) ctor: CtorId,
    pub(crate) place: u32,
    pub(crate) sort: SortId,
}

/// What is stored of a function or a definition.
#[derive(Drop)]
pub(crate) struct FunctionEntry {
    pub(crate) args: Items<SortId>,
    pub(crate) result: SortId,
}

// A copy of the items.
fn copy_of<T: Copy>(alloc: Global, items: &Items<T>) -> Result<Items<T>, AllocError>
    ensures equal { IfOk result (λ copied. copied ≡ items.now) }
{
    Ok(Items::new(Vec::from_slice(alloc, items.as_slice())?))
}

// An equal name, where there is one.
fn name_of(alloc: Global, name: &Option<Name>) -> Result<Option<Name>, AllocError>
    ensures equal { IfOk result (λ copied. copied ≡ name.now) }
{
    match name {
        None => Ok(None),
        Some(name) => Ok(Some(Name::from_slice(alloc, name.as_slice())?)),
    }
}

impl Duplicate for SortEntry {
    fn duplicate(&self, alloc: Global) -> Result<SortEntry, AllocError> {
        Ok(SortEntry {
            name: name_of(alloc, &self.name)?,
            head: self.head,
            args: copy_of(alloc, &self.args)?,
            kind: self.kind,
            ctors: copy_of(alloc, &self.ctors)?,
        })
    }
}

impl Duplicate for CtorEntry {
    fn duplicate(&self, alloc: Global) -> Result<CtorEntry, AllocError> {
        Ok(CtorEntry {
            home: self.home,
            sort: self.sort,
            sels: copy_of(alloc, &self.sels)?,
        })
    }
}

impl Duplicate for SelEntry {
    fn duplicate(&self, _alloc: Global) -> Result<SelEntry, AllocError> {
        Ok(*self)
    }
}

impl Duplicate for Symbol {
    fn duplicate(&self, _alloc: Global) -> Result<Symbol, AllocError> {
        Ok(*self)
    }
}

impl Duplicate for Spelling {
    fn duplicate(&self, alloc: Global) -> Result<Spelling, AllocError> {
        Ok(Spelling {
            name: Name::from_slice(alloc, self.name.as_slice())?,
            fields: copies_of_names(alloc, &self.fields)?,
        })
    }
}

// Equal names.
fn copies_of_names(alloc: Global, names: &Items<Name>) -> Result<Items<Name>, AllocError>
    ensures equal { IfOk result (λ copied. copied ≡ names.now) }
{
    let mut copied = Vec::new(alloc);
    for name in names.as_slice() {
        copied.push(Name::from_slice(alloc, name.as_slice())?)?;
    }
    Ok(Items::new(copied))
}

impl Duplicate for FunctionEntry {
    fn duplicate(&self, alloc: Global) -> Result<FunctionEntry, AllocError> {
        Ok(FunctionEntry {
            args: copy_of(alloc, &self.args)?,
            result: self.result,
        })
    }
}
