//! Different numbers of expressions, in the order in which they came.
ghost use Rattle.std.specs.Prelude.{◌≡◌, ◌↔◌, ◌⊎◌, ◌<◌, ◌^◌, ℕ, [], ◌∷◌, ◌++◌, length, take, Some, slice_get, IfOk, IfErr, IfSome, IfNone, IsTrue, OnOk, OnErr};
ghost use Rattle.ct_generics.specs.declared.nodes.ExprId.{ExprId};
ghost use Rattle.ct_generics.specs.Nodes.{Stay, AreUnlike};

use crate::error::GenericError;
use crate::nodes::ExprId;
use indexmap::IndexSet;
use std::alloc::Global;
use std::marker::Model;

/// Different numbers of expressions. Clauses see a list.
#[derive(Drop)]
pub struct ExprIds {
    ids: IndexSet<ExprId>,
}

impl Model for ExprIds {
    ghost use Rattle.std.specs.Prelude.{List};
    ghost use Rattle.ct_generics.specs.declared.nodes.ExprId.{ExprId};
    ghost use Rattle.ct_generics.specs.Nodes.{AreUnlike};

    ghost Value = { List ExprId };

    ghost view = { λ stored. stored.ids.keys };

    ghost invariant = { λ stored. AreUnlike stored.ids.keys };
}

impl ExprIds {
    /// No numbers.
    pub fn new(alloc: Global) -> ExprIds
        ensures empty { length result ≡ 0 }
    {
        ExprIds {
            ids: IndexSet::new(alloc),
        }
    }

    /// How many there are.
    pub fn len(&self) -> usize
        ensures len { result ≡ length self.now }
        ensures small { result < 2 ^ 63 }
        ensures different { AreUnlike self.now }
    {
        self.ids.len()
    }

    /// The number at an index.
    pub fn get(&self, i: usize) -> ExprId
        requires within { i < length self.now }
        ensures value { slice_get self.now i ≡ Some result }
    {
        *self.ids.get_index(i).unwrap()
    }

    /// The index of a number, if it is among them.
    pub fn index_of(&self, id: ExprId) -> Option<usize>
        ensures found { IfSome result (λ i. slice_get self.now i ≡ Some id) }
        ensures none { IfNone result ((i : ℕ) → slice_get self.now i ≡ Some id → ⊥) }
    {
        self.ids.get_index_of(&id)
    }

    /// Whether a number is among them.
    pub fn contains(&self, id: ExprId) -> bool
        ensures among { IsTrue result ↔ ((i : ℕ) × (slice_get self.now i ≡ Some id)) }
    {
        self.index_of(id).is_some()
    }

    /// Appends a number that is not in the list yet. The only error is `NoMemory`.
    pub fn push(&mut self, id: ExprId) -> Result<(), GenericError>
        requires fresh { (i : ℕ) → slice_get self.old i ≡ Some id → ⊥ }
        ensures ok { OnOk result (self.new ≡ self.old ++ id ∷ []) }
        ensures unchanged { OnErr result (self.new ≡ self.old) }
        ensures err { IfErr result (λ e. e ≡ GenericError.NoMemory) }
    {
        self.ids.insert(id)?;
        Ok(())
    }

    /// Keeps the first numbers.
    pub fn truncate(&mut self, len: usize)
        ensures first { self.new ≡ take len self.old }
    {
        self.ids.truncate(len);
    }

    /// The index of a number, which is appended if it has none yet. The only error is `NoMemory`.
    pub fn insert(&mut self, id: ExprId) -> Result<usize, GenericError>
        ensures at { IfOk result (λ i. slice_get self.new i ≡ Some id) }
        ensures stay { Stay self.old self.new }
        ensures only { (i : ℕ) (other : ExprId) → slice_get self.new i ≡ Some other → (slice_get self.old i ≡ Some other) ⊎ (other ≡ id) }
        ensures err { IfErr result (λ e. e ≡ GenericError.NoMemory) }
    {
        let (index, _) = self.ids.insert_full(id)?;
        Ok(index)
    }
}
