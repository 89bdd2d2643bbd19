//! A list of items that contracts see as a list.

ghost use Rattle.std.specs.Prelude.{◌≡◌, [], ◌∷◌, ◌++◌, length, take, IfErr, OnErr, OnOk};

use crate::error::GenericError;
use std::marker::Model;

/// A vector that clauses see as the list of its items.
#[derive(Debug, Drop)]
pub struct Items<T> {
    items: Vec<T>,
}

impl<T> Model for Items<T> {
    ghost use Rattle.std.specs.Prelude.{List};

    ghost Value = { List T };

    ghost view = { λ stored. stored.items.items };
}

impl<T> Items<T> {
    /// The items of this vector. Takes no memory.
    pub fn new(items: Vec<T>) -> Items<T>
        ensures value { result ≡ items.items }
    {
        Items { items }
    }

    /// The items.
    pub fn as_slice(&self) -> &[T]
        ensures value { result.now ≡ self.now }
    {
        self.items.as_slice()
    }

    /// How many items there are.
    pub fn len(&self) -> usize
        ensures len { result ≡ length self.now }
    {
        self.items.len()
    }

    /// The vector that the items were made from. Takes no memory.
    pub fn into_vec(self) -> Vec<T>
        ensures value { result.items ≡ self }
    {
        self.items
    }

    /// Appends an item. The only error is `NoMemory`.
    pub fn push(&mut self, item: T) -> Result<(), GenericError>
    where
        T: Drop,
        ensures ok { OnOk result (self.new ≡ self.old ++ item ∷ []) }
        ensures unchanged { OnErr result (self.new ≡ self.old) }
        ensures err { IfErr result (λ e. e ≡ GenericError.NoMemory) }
    {
        self.items.push(item)?;
        Ok(())
    }

    /// These items at the end. The only error is `NoMemory`.
    pub fn append(&mut self, items: Vec<T>) -> Result<(), GenericError>
    where
        T: Drop,
        ensures ok { OnOk result (self.new ≡ self.old ++ items.items) }
        ensures unchanged { OnErr result (self.new ≡ self.old) }
        ensures err { IfErr result (λ e. e ≡ GenericError.NoMemory) }
    {
        let mut more = items;
        self.items.append(&mut more)?;
        Ok(())
    }

    /// Keeps the first items.
    pub fn truncate(&mut self, len: usize)
    where
        T: Drop,
        ensures first { self.new ≡ take len self.old }
    {
        self.items.truncate(len);
    }
}
