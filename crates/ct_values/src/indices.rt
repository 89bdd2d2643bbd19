//! Lists of numbers, which contracts see as lists.

ghost use Rattle.std.specs.Prelude.{◌≡◌};
ghost use Rattle.std.specs.Cmp.{partial_equiv_from_equiv};
ghost use Rattle.ct_values.specs.Indices.{same_indices, same_indices_equiv, hashed_indices, hashed_indices_alike};

use std::hash::{Hash, Hasher};
use std::marker::Model;

/// Indices in a list, in order. Clauses see a list.
#[derive(Debug, Drop)]
pub(crate) struct Indices {
    indices: Vec<usize>,
}

impl Model for Indices {
    ghost use Rattle.std.specs.Prelude.{List, ℕ};

    ghost Value = { List ℕ };

    ghost view = { λ stored. stored.indices.items };
}

impl Indices {
    /// These indices. Takes no memory.
    pub(crate) fn new(indices: Vec<usize>) -> Indices
        ensures value { result ≡ indices.items }
    {
        Indices { indices }
    }

    /// The indices.
    pub(crate) fn as_slice(&self) -> &[usize]
        ensures value { result.now ≡ self.now }
    {
        self.indices.as_slice()
    }
}

impl PartialEq for Indices {
    ghost eq = { same_indices };

    ghost laws = { partial_equiv_from_equiv same_indices_equiv };

    fn eq(&self, other: &Indices) -> bool {
        self.as_slice() == other.as_slice()
    }
}

impl Eq for Indices {
    ghost laws = { same_indices_equiv };
}

impl Hash for Indices {
    ghost hash_input = { hashed_indices };

    ghost respects_eq = { hashed_indices_alike };

    fn hash<H: Hasher>(&self, state: &mut H) {
        self.as_slice().hash(state);
    }
}
