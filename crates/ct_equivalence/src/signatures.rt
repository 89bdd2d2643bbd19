//! A table of terms by their signatures that grows at its end and is cut back.
ghost use Rattle.std.specs.Prelude.{◌≡◌, ◌≤◌, ◌↔◌, [], ◌∷◌, ◌++◌, length, take, Some, OnOk, OnErr};
ghost use Rattle.ct_terms.specs.declared.ids.TermId.{TermId};
ghost use Rattle.ct_equivalence.specs.Signatures.{IsUnder, IsFree, AreDifferent};

use crate::error::EquivalenceError;
use ct_terms::{Core, TermId};
use indexmap::IndexMap;
use std::alloc::Global;
use std::marker::Model;

/// Terms by their signatures, in the order in which they came. Clauses see the list of both.
#[derive(Drop)]
pub struct SignatureTable {
    entries: IndexMap<Core, TermId>,
}

impl Model for SignatureTable {
    ghost use Rattle.indexmap.specs.IndexMap.{IsUnique};
    ghost use Rattle.ct_equivalence.specs.Signatures.{Signatures, same_core};

    ghost Value = { Signatures };

    ghost view = { λ t. t.entries.entries };

    ghost invariant = { λ t. IsUnique same_core t.entries };
}

impl SignatureTable {
    /// A table of nothing. Takes no memory.
    pub fn new(alloc: Global) -> SignatureTable
        ensures empty { result ≡ [] }
    {
        SignatureTable {
            entries: IndexMap::new(alloc),
        }
    }

    /// The number of terms in the table. No signature stands twice.
    pub fn len(&self) -> usize
        ensures value { result ≡ length self.now }
        ensures different { AreDifferent self.now }
    {
        self.entries.len()
    }

    /// The term under the signature; none exactly if there is none.
    pub fn find(&self, key: &Core) -> Option<TermId>
        ensures value { (t : TermId) → (result ≡ Some t) ↔ IsUnder self.now key.now t }
    {
        self.entries.get(key).copied()
    }

    /// Stores the term under a signature that has none yet. An error changes nothing.
    pub fn push(&mut self, key: Core, term: TermId) -> Result<(), EquivalenceError>
        requires free { IsFree self.old key }
        ensures pushed { OnOk result (self.new ≡ self.old ++ (key, term) ∷ []) }
        ensures unchanged { OnErr result (self.new ≡ self.old) }
    {
        self.entries.insert(key, term)?;
        Ok(())
    }

    /// Keeps the first `len` terms. Takes no memory.
    pub fn cut(&mut self, len: usize)
        ensures first { self.new ≡ take len self.old }
    {
        self.entries.truncate(len);
    }
}
