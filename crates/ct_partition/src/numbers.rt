//! Lists of numbers of points or of blocks, which clauses see as lists.
ghost use Rattle.std.specs.Prelude.{◌≡◌, [], ◌∷◌, ◌++◌, length, OnOk};
ghost use Rattle.std.specs.Cmp.{partial_equiv_from_equiv};
ghost use Rattle.ct_partition.specs.NumberTest.{same_numbers, same_numbers_equiv, hashed_numbers, hashed_numbers_alike};

use crate::error::OutOfMemory;
use std::hash::{Hash, Hasher};
use std::marker::Model;

/// Numbers in order.
#[derive(Debug, Drop)]
pub(crate) struct Numbers {
    numbers: Vec<usize>,
}

impl Model for Numbers {
    ghost use Rattle.std.specs.Prelude.{List, ℕ};

    ghost Value = { List ℕ };

    ghost view = { λ list. list.numbers.items };
}

impl Numbers {
    /// These numbers. Takes no memory.
    pub(crate) fn new(numbers: Vec<usize>) -> Numbers
        ensures value { result ≡ numbers.items }
    {
        Numbers { numbers }
    }

    /// The numbers.
    pub(crate) fn as_slice(&self) -> &[usize]
        ensures value { result.now ≡ self.now }
    {
        self.numbers.as_slice()
    }

    /// How many there are.
    pub(crate) fn len(&self) -> usize
        ensures value { result ≡ length self.now }
    {
        self.numbers.len()
    }

    /// Puts one more at the end.
    pub(crate) fn push(&mut self, number: usize) -> Result<(), OutOfMemory>
        ensures value { OnOk result (self.new ≡ self.old ++ number ∷ []) }
    {
        self.numbers.push(number)?;
        Ok(())
    }
}

impl PartialEq for Numbers {
    ghost eq = { same_numbers };

    ghost laws = { partial_equiv_from_equiv same_numbers_equiv };

    fn eq(&self, other: &Numbers) -> bool {
        self.as_slice() == other.as_slice()
    }
}

impl Eq for Numbers {
    ghost laws = { same_numbers_equiv };
}

impl Hash for Numbers {
    ghost hash_input = { hashed_numbers };

    ghost respects_eq = { hashed_numbers_alike };

    fn hash<H: Hasher>(&self, state: &mut H) {
        self.as_slice().hash(state);
    }
}
