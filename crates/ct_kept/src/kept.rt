//! The store of theory lemmas.
ghost use Rattle.std.specs.Prelude.{◌≡◌, ◌<◌, ◌≤◌, [], All, length, drop, IfOk, OnOk, OnErr};
ghost use Rattle.ct_sorts.specs.Declarations.{Declarations, start};
ghost use Rattle.ct_sorts.specs.Grown.{Extends};
ghost use Rattle.ct_sorts.specs.Marks.{CanCut, cut};
ghost use Rattle.ct_terms.specs.declared.ids.TermId.{TermId};
ghost use Rattle.ct_terms.specs.Terms.{AreSorted, truth_terms};
ghost use Rattle.ct_terms.specs.CoreTree.{term_at};
ghost use Rattle.ct_kept.specs.Lemmas.{theory_lemmas};
ghost use Rattle.ct_kept.specs.Kept.{IsOver, Takes, most_lemmas};
ghost use Rattle.ct_kept.specs.Names.{NamesBelow, AreNamed};

use crate::error::KeptError;
use crate::lemma::Lemma;
use crate::taking::take_after;
use crate::within::within;
use ct_log::Derivation;
use ct_sorts::{Mark, Signature};
use ct_terms::TermTable;
use std::alloc::Global;
use std::marker::Model;

/// Clauses that the theory gave, at most 4,096, with their explanations, over the terms of a table of their own.
#[derive(Drop)]
pub struct Kept {
    table: TermTable,
    lemmas: Vec<Lemma>,
}

impl Model for Kept {
    ghost use Rattle.ct_kept.specs.Kept.{Stored, IsStore};

    ghost Value = { Stored };

    ghost view = { λ k. record { table = k.table; lemmas = k.lemmas.items } };

    ghost invariant = { λ k. IsStore (record { table = k.table; lemmas = k.lemmas.items }) };
}

impl Kept {
    /// A store without clauses, whose table holds `true` and `false`.
    pub fn new(alloc: Global) -> Result<Kept, KeptError>
        ensures empty { IfOk result (λ kept. kept ≡ record { table = truth_terms; lemmas = [] }) }
        ensures sorted { IfOk result (λ kept. (d : Declarations) → Extends d start → AreSorted d kept.table) }
    {
        let table = TermTable::new(alloc)?;
        Ok(Kept {
            table,
            lemmas: Vec::new(alloc),
        })
    }

    /// The terms of the clauses.
    pub fn table(&self) -> &TermTable
        ensures value { result.now ≡ self.now.table }
    {
        &self.table
    }

    /// The clauses, in the order in which they were taken.
    pub fn lemmas(&self) -> &[Lemma]
        ensures value { result.now ≡ self.now.lemmas }
        ensures few { length self.now.lemmas ≤ most_lemmas }
        ensures over { All (IsOver self.now.table) self.now.lemmas }
    {
        &self.lemmas
    }

    /// The clauses, in order, whose terms name only constructors, selectors and functions below the mark, moved into a table all
    /// of whose terms name only such. So it is well sorted over the declarations that are left where these are cut to the mark.
    pub fn within(&self, alloc: Global, sig: &Signature, mark: &Mark) -> Result<Kept, KeptError>
        requires sorted { AreSorted sig.now self.now.table }
        requires can_cut { CanCut sig.now mark.now }
        ensures named { IfOk result (AreNamed mark.now self.now) }
        ensures only { IfOk result (λ kept. (t : TermId) → t.0 < length kept.table → NamesBelow mark.now (term_at kept.table t)) }
        ensures sorted { IfOk result (λ kept. AreSorted (cut sig.now mark.now) kept.table) }
    {
        let (table, lemmas) = within(alloc, sig, &self.table, &self.lemmas, mark)?;
        Ok(Kept { table, lemmas })
    }

    /// Takes the theory lemmas after the first `first` lines of the derivation, in order, up to the first one for which
    /// the store has 4,096 already, or its table has no room for the terms; nothing of that one stays. Where memory
    /// runs out nothing has changed.
    pub fn take(
        &mut self,
        alloc: Global,
        sig: &Signature,
        derivation: &Derivation,
        first: usize,
    ) -> Result<(), KeptError>
        requires sorted { AreSorted sig.now self.old.table }
        requires declarations { derivation.now.declarations ≡ sig.now }
        requires within { first ≤ length derivation.now.rec.lines }
        ensures taken { OnOk result (Takes self.old derivation.now.rec.terms (theory_lemmas (drop first derivation.now.rec.lines)) self.new) }
        ensures sorted { AreSorted sig.now self.new.table }
        ensures refused { OnErr result (self.new ≡ self.old) }
    {
        let before = self.table.len();
        let count = self.lemmas.len();
        match take_after(
            alloc,
            sig,
            derivation,
            first,
            &mut self.table,
            &mut self.lemmas,
        ) {
            Ok(()) => Ok(()),
            Err(error) => {
                self.table.cut_to(before);
                self.lemmas.truncate(count);
                Err(error)
            }
        }
    }
}
