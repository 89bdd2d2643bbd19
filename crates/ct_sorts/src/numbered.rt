//! A map from names to what is declared under them, with indices as numbers.
ghost use Rattle.std.specs.Prelude.{◌≡◌, ℕ, ◌+◌, ◌<◌, ◌^◌, [], ◌∷◌, ◌++◌, List, length, take, Some, option_map, slice_get, IfSome, MatchOption, OnOk, OnErr, IfErr, IfOk, IsTrue, ◌↔◌};
ghost use Rattle.ct_sorts.specs.Availability.{IsListed};
ghost use Rattle.ct_sorts.specs.Lookup.{AreDistinct, names_of, index_of};

use crate::duplicate::Duplicate;
use crate::error::SigError;
use ct_generics::Name;
use indexmap::IndexMap;
use std::alloc::{AllocError, Global};
use std::marker::Model;

/// What is declared under each name, in the order of declaration. Clauses see the list of pairs.
#[derive(Drop)]
pub(crate) struct Numbered<T> {
    entries: IndexMap<Vec<u8>, T>,
}

impl<T> Model for Numbered<T> {
    ghost use Rattle.std.specs.Prelude.{List, ℕ, map};
    ghost use Rattle.ct_sorts.specs.Lookup.{AreDistinct};

    ghost Value = { List (List ℕ × T) };

    ghost view = { λ stored. map (λ e. (e.0.items, e.1)) stored.entries.entries };

    ghost invariant = { λ stored. AreDistinct (map (λ e. e.0.items) stored.entries.entries) };
}

impl<T> Numbered<T> {
    /// Nothing yet.
    pub(crate) fn new(alloc: Global) -> Numbered<T>
        ensures empty { result ≡ [] }
    {
        Numbered {
            entries: IndexMap::new(alloc),
        }
    }

    /// How many entries there are.
    pub(crate) fn len(&self) -> usize
        ensures len { result ≡ length self.now }
        ensures small { result < 2 ^ 63 }
        ensures distinct { AreDistinct (names_of self.now) }
    {
        self.entries.len()
    }

    /// The index of the name.
    pub(crate) fn index_of(&self, name: &[u8]) -> Option<usize>
        ensures index { result ≡ index_of (names_of self.now) name.now }
        ensures listed { MatchOption result (IsListed (names_of self.now) name.now → ⊥)
            (λ index. slice_get (names_of self.now) index ≡ Some name.now) }
        ensures below { IfSome result (λ index. index < length self.now) }
    {
        self.entries.get_index_of(name)
    }

    /// Whether there is an entry of this name.
    pub(crate) fn has(&self, name: &[u8]) -> bool
        ensures listed { IsTrue result ↔ IsListed (names_of self.now) name.now }
    {
        self.index_of(name).is_some()
    }

    /// The name at an index.
    pub(crate) fn name(&self, index: usize) -> &[u8]
        requires inside { index < length self.now }
        ensures name { option_map (λ e. e.0) (slice_get self.now index) ≡ Some result.now }
    {
        let (name, _) = self.entries.get_index(index).unwrap();
        name.as_slice()
    }

    /// What is declared at an index.
    pub(crate) fn get(&self, index: usize) -> &T
        requires inside { index < length self.now }
        ensures value { option_map (λ e. e.1) (slice_get self.now index) ≡ Some result.now }
    {
        let (_, value) = self.entries.get_index(index).unwrap();
        value
    }

    /// One more entry at the end.
    pub(crate) fn push(&mut self, name: Name, value: T) -> Result<(), SigError>
    where
        T: Drop,
        requires fresh { IsListed (names_of self.old) name → ⊥ }
        ensures ok { OnOk result (self.new ≡ self.old ++ (name, value) ∷ []) }
        ensures err { IfErr result (λ e. e ≡ SigError.NoMemory) }
        ensures unchanged { OnErr result (self.new ≡ self.old) }
    {
        self.entries.insert(name.into_vec(), value)?;
        Ok(())
    }

    /// Keeps the first entries.
    pub(crate) fn truncate(&mut self, len: usize)
    where
        T: Drop,
        ensures first { self.new ≡ take len self.old }
    {
        self.entries.truncate(len);
    }
}

impl<T: Duplicate + Drop> Numbered<T> {
    /// An equal value.
    pub(crate) fn copy(&self, alloc: Global) -> Result<Numbered<T>, SigError>
        ensures ok { IfOk result (λ copied. copied ≡ self.now) }
        ensures err { IfErr result (λ e. e ≡ SigError.NoMemory) }
    {
        let mut copied = Numbered::new(alloc);
        for index in 0..self.len() {
            let name = Name::from_slice(alloc, self.name(index))?;
            copied.push(name, self.get(index).duplicate(alloc)?)?;
        }
        Ok(copied)
    }
}
