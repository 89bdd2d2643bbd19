//! Names, each with its index among them.
ghost use Rattle.std.specs.Prelude.{◌≡◌, ◌<◌, ◌^◌, [], ◌∷◌, ◌++◌, length, take, position, Some, slice_get, IfSome, IfErr, OnOk, OnErr, MatchOption};
ghost use Rattle.std.specs.Str.{bytes_eq};
ghost use Rattle.ct_generics.specs.Names.{AreDistinct, IsListed};

use crate::error::GenericError;
use crate::name::Name;
use indexmap::IndexMap;
use std::alloc::Global;
use std::marker::Model;

/// Different names in order. Clauses see the list.
#[derive(Drop)]
pub struct Names {
    entries: IndexMap<Vec<u8>, ()>,
}

impl Model for Names {
    ghost use Rattle.std.specs.Prelude.{List, ℕ, map};
    ghost use Rattle.ct_generics.specs.Names.{AreDistinct};

    ghost Value = { List (List ℕ) };

    ghost view = { λ stored. map (λ e. e.0.items) stored.entries.entries };

    ghost invariant = { λ stored. AreDistinct (map (λ e. e.0.items) stored.entries.entries) };
}

impl Names {
    /// No names.
    pub fn new(alloc: Global) -> Names
        ensures empty { result ≡ [] }
    {
        Names {
            entries: IndexMap::new(alloc),
        }
    }

    /// How many names there are.
    pub fn len(&self) -> usize
        ensures len { result ≡ length self.now }
        ensures small { result < 2 ^ 63 }
        ensures distinct { AreDistinct self.now }
    {
        self.entries.len()
    }

    /// The index of a name.
    pub fn find(&self, name: &[u8]) -> Option<usize>
        ensures place { result ≡ position (bytes_eq name.now) self.now }
    {
        self.entries.get_index_of(name)
    }

    /// The name at an index.
    pub fn name(&self, i: usize) -> &[u8]
        requires within { i < length self.now }
        ensures value { slice_get self.now i ≡ Some result.now }
    {
        let (name, _) = self.entries.get_index(i).unwrap();
        name.as_slice()
    }

    /// Appends a name that is not in the list yet. The only error is `NoMemory`.
    pub fn push(&mut self, name: Name) -> Result<(), GenericError>
        requires fresh { IsListed self.old name → ⊥ }
        ensures ok { OnOk result (self.new ≡ self.old ++ name ∷ []) }
        ensures unchanged { OnErr result (self.new ≡ self.old) }
        ensures err { IfErr result (λ e. e ≡ GenericError.NoMemory) }
    {
        self.entries.insert(name.into_vec(), ())?;
        Ok(())
    }

    /// Keeps the first names.
    pub fn truncate(&mut self, len: usize)
        ensures first { self.new ≡ take len self.old }
    {
        self.entries.truncate(len);
    }
}
