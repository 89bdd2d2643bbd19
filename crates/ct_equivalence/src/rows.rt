//! A row of terms for each term.
ghost use Rattle.std.specs.Prelude.{◌≡◌, ◌<◌, [], ◌∷◌, ◌++◌, length, set, replicate, IfOk, OnOk, OnErr};
ghost use Rattle.ct_equivalence.specs.Undoing.{row_of, cut_row};

use crate::error::EquivalenceError;
use ct_terms::TermId;
use std::alloc::Global;
use std::marker::Model;
use std::mem;

/// A row of terms for each term. Clauses see a list of lists.
#[derive(Drop)]
pub(crate) struct Rows {
    alloc: Global,
    rows: Vec<Vec<TermId>>,
}

impl Model for Rows {
    ghost use Rattle.std.specs.Prelude.{List, map};
    ghost use Rattle.ct_terms.specs.declared.ids.TermId.{TermId};

    ghost Value = { List (List TermId) };

    ghost view = { λ r. map (λ row. row.items) r.rows.items };
}

impl Rows {
    /// No rows.
    pub(crate) fn new(alloc: Global) -> Rows
        ensures empty { result ≡ [] }
    {
        Rows {
            alloc,
            rows: Vec::new(alloc),
        }
    }

    /// One more row, which is empty. An error changes nothing.
    pub(crate) fn add_row(&mut self) -> Result<(), EquivalenceError>
        ensures added { OnOk result (self.new ≡ self.old ++ [] ∷ []) }
        ensures unchanged { OnErr result (self.new ≡ self.old) }
    {
        self.rows.push(Vec::new(self.alloc))?;
        Ok(())
    }

    /// The row of the term.
    pub(crate) fn row(&self, t: TermId) -> &[TermId]
        requires inside { t.0 < length self.now }
        ensures value { result.now ≡ row_of self.now t }
    {
        self.rows[t.0 as usize].as_slice()
    }

    /// One more term at the end of the term's row. An error changes nothing.
    pub(crate) fn push(&mut self, t: TermId, p: TermId) -> Result<(), EquivalenceError>
        requires inside { t.0 < length self.old }
        ensures pushed { OnOk result (self.new ≡ set self.old t.0 (row_of self.old t ++ p ∷ [])) }
        ensures unchanged { OnErr result (self.new ≡ self.old) }
    {
        self.rows[t.0 as usize].push(p)?;
        Ok(())
    }

    /// Puts the second row to the end of the first. An error changes nothing.
    pub(crate) fn append(&mut self, into: TermId, from: TermId) -> Result<(), EquivalenceError>
        requires into { into.0 < length self.old }
        requires from { from.0 < length self.old }
        requires apart { into ≡ from → ⊥ }
        ensures appended { OnOk result (self.new ≡ set self.old into.0 (row_of self.old into ++ row_of self.old from)) }
        ensures unchanged { OnErr result (self.new ≡ self.old) }
    {
        let moved = mem::replace(&mut self.rows[from.0 as usize], Vec::new(self.alloc));
        let done = self.rows[into.0 as usize].extend_from_slice(&moved);
        self.rows[from.0 as usize] = moved;
        done?;
        Ok(())
    }

    /// Keeps so many terms at the beginning of the term's row. Takes no memory.
    pub(crate) fn cut(&mut self, t: TermId, len: usize)
        requires inside { t.0 < length self.old }
        ensures first { self.new ≡ cut_row self.old t len }
    {
        self.rows[t.0 as usize].truncate(len);
    }
}
