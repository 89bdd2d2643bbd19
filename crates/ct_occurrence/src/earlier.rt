//! The constructors of the cases before a case of a `match`.
ghost use Rattle.std.specs.Prelude.{◌≡◌, [], ◌∷◌, ◌++◌, OnOk, OnErr};
ghost use Rattle.ct_formulas.specs.Compiled.{is_among};
ghost use Rattle.ct_occurrence.specs.Earlier.{distinct_ctors};

use ct_sorts::CtorId;
use indexmap::IndexSet;
use std::alloc::{AllocError, Global};
use std::marker::Model;

/// The constructors of the cases so far, in order. Clauses see a list.
///
/// One more case, a look-up and a count take about constant time each, however many cases there are.
#[derive(Drop)]
pub struct Earlier {
    // One a case, in order: what clauses see.
    ctors: Vec<CtorId>,
    // Each of them once.
    distinct: IndexSet<CtorId>,
}

impl Model for Earlier {
    ghost use Rattle.std.specs.Prelude.{List};
    ghost use Rattle.ct_sorts.specs.declared.ids.CtorId.{CtorId};

    ghost Value = { List CtorId };

    ghost use Rattle.ct_occurrence.specs.Earlier.{IsSetOf};

    ghost view = { λ earlier. earlier.ctors.items };

    ghost invariant = { λ earlier. IsSetOf earlier.ctors.items earlier.distinct };
}

impl Earlier {
    /// No cases. Takes no memory.
    pub fn new(alloc: Global) -> Earlier
        ensures empty { result ≡ [] }
    {
        Earlier {
            ctors: Vec::new(alloc),
            distinct: IndexSet::new(alloc),
        }
    }

    /// Adds a case with this constructor. An error changes nothing.
    pub fn push(&mut self, c: CtorId) -> Result<(), AllocError>
        ensures pushed { OnOk result (self.new ≡ self.old ++ c ∷ []) }
        ensures unchanged { OnErr result (self.new ≡ self.old) }
    {
        self.ctors.reserve(1)?;
        self.distinct.insert(c)?;
        self.ctors.push(c).unwrap();
        Ok(())
    }

    /// Whether a case is of this constructor.
    pub fn has(&self, c: CtorId) -> bool
        ensures value { result ≡ is_among self.now c }
    {
        self.distinct.contains(&c)
    }

    /// How many constructors have a case, once this one has.
    pub(crate) fn distinct_with(&self, c: CtorId) -> usize
        ensures count { result ≡ distinct_ctors (c ∷ self.now) }
    {
        if self.has(c) {
            return self.distinct.len();
        }
        self.distinct.len() + 1
    }
}
