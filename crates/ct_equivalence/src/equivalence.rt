//! A union-find over the terms of a table that is undone union by union.
ghost use Rattle.std.specs.Prelude.{◌≡◌, ◌<◌, [], ◌∷◌, List, length, IfOk, OnOk, OnErr, Some, slice_get};
ghost use Rattle.ct_terms.specs.declared.ids.TermId.{TermId};
ghost use Rattle.ct_terms.specs.Terms.{Terms};
ghost use Rattle.ct_equivalence.specs.Partition.{AreAlone, IsClass};
ghost use Rattle.ct_equivalence.specs.Grouping.{Grouping, AreGroupings};
ghost use Rattle.ct_equivalence.specs.Over.{IsConOf, AreUsesOf, IsGroupingOf, AreLone, AreGroupingsOf};
ghost use Rattle.ct_equivalence.specs.Union.{IsUnited, IsTaken};

use crate::digests::wide_digests;
use crate::error::EquivalenceError;
use crate::grouped::Grouped;
use crate::places::{Places, list_places};
use crate::step::Step;
use crate::union::Union;
use ct_terms::{TermId, TermTable};
use std::alloc::Global;
use std::marker::Model;

/// An equivalence of the terms of a table, by the classes of terms. Clauses see the classes now and before each
/// union that stands, as `Groupings`.
#[derive(Drop)]
pub struct Equivalence {
    grouped: Grouped,
    // What undoes each union, and nothing where the two terms were of one class.
    log: Vec<Option<Step>>,
    // Whether each term is marked as lone.
    lone: Vec<bool>,
    // The digest of each wide term over the representatives.
    digests: Vec<u64>,
    // The places at which each term stands in wide terms.
    places: Places,
}

impl Model for Equivalence {
    ghost use Rattle.std.specs.Prelude.{reverse};
    ghost use Rattle.ct_equivalence.specs.Grouping.{Groupings};
    ghost use Rattle.ct_equivalence.specs.Undoing.{befores, AreNoted};

    ghost Value = { Groupings };

    ghost view = { λ e. record { now = e.grouped; past = befores e.grouped (reverse e.log.items); lone = e.lone.items; digests = e.digests.items; places = e.places } };

    ghost invariant = { λ e. AreNoted e.grouped (reverse e.log.items) };
}

impl Equivalence {
    /// Each term of the table alone in its class, in linear time. The terms themselves are not stored. Terms that are
    /// marked have a head and a number of arguments that no other term has.
    pub fn new(
        alloc: Global,
        table: &TermTable,
        lone: Vec<bool>,
    ) -> Result<Equivalence, EquivalenceError>
        requires lone { AreLone table.now lone.items }
        ensures of { IfOk result (AreGroupingsOf table.now) }
        ensures alone { IfOk result (λ e. AreAlone (length table.now) e.now.reps) }
        ensures past { IfOk result (λ e. e.past ≡ []) }
    {
        let grouped = Grouped::new(alloc, table)?;
        let log = Vec::new(alloc);
        let digests = wide_digests(alloc, table, grouped.reps())?;
        let places = list_places(alloc, table)?;
        Ok(Equivalence {
            grouped,
            log,
            lone,
            digests,
            places,
        })
    }

    /// Whether each term is marked as lone.
    pub fn lone(&self) -> &[bool]
        ensures value { result.now ≡ self.now.lone }
    {
        self.lone.as_slice()
    }

    /// The digest of each wide term over the representatives.
    pub fn digests(&self) -> &[u64]
        ensures value { result.now ≡ self.now.digests }
    {
        self.digests.as_slice()
    }

    /// The representative of each term.
    pub fn reps(&self) -> &[TermId]
        ensures value { result.now ≡ self.now.now.reps }
        ensures whole { AreGroupings self.now }
    {
        self.grouped.reps()
    }

    /// For each representative a constructor term of its class, if there is any.
    pub fn cons(&self) -> &[Option<TermId>]
        ensures value { result.now ≡ self.now.now.cons }
    {
        self.grouped.cons()
    }

    /// The number of unions that are not undone, those within one class included.
    pub fn unions(&self) -> usize
        ensures value { result ≡ length self.now.past }
        ensures whole { AreGroupings self.now }
    {
        self.log.len()
    }

    /// The representative of the term's class, which is of the class itself.
    pub fn rep(&self, t: TermId) -> TermId
        requires inside { t.0 < length self.now.now.reps }
        ensures value { slice_get self.now.now.reps t.0 ≡ Some result }
        ensures own { slice_get self.now.now.reps result.0 ≡ Some result }
    {
        self.grouped.rep(t)
    }

    /// The members of the term's class, each once.
    pub fn class(&self, t: TermId) -> &[TermId]
        requires inside { t.0 < length self.now.now.reps }
        ensures value { (r : TermId) → slice_get self.now.now.reps t.0 ≡ Some r → slice_get self.now.now.members r.0 ≡ Some result.now }
        ensures members { (r : TermId) → slice_get self.now.now.reps t.0 ≡ Some r → IsClass self.now.now.reps r result.now }
    {
        self.grouped.members(self.grouped.rep(t))
    }

    /// A constructor term of the term's class; none exactly if there is none.
    pub fn con_of(&self, t: TermId) -> Option<TermId>
        requires inside { t.0 < length self.now.now.reps }
        ensures value { (r : TermId) → slice_get self.now.now.reps t.0 ≡ Some r → slice_get self.now.now.cons r.0 ≡ Some result }
        ensures stored { (terms : Terms) (r : TermId) → IsGroupingOf terms self.now.now → slice_get self.now.now.reps t.0 ≡ Some r → IsConOf terms self.now.now.reps r result }
    {
        self.grouped.con(self.grouped.rep(t))
    }

    /// The terms right above a member of the term's class, maybe several times.
    pub fn uses(&self, t: TermId) -> &[TermId]
        requires inside { t.0 < length self.now.now.reps }
        ensures value { (r : TermId) → slice_get self.now.now.reps t.0 ≡ Some r → slice_get self.now.now.uses r.0 ≡ Some result.now }
        ensures uses { (terms : Terms) (r : TermId) → IsGroupingOf terms self.now.now → slice_get self.now.now.reps t.0 ≡ Some r → AreUsesOf terms self.now.now.reps r result.now }
    {
        self.grouped.uses(self.grouped.rep(t))
    }

    /// Makes one class of the classes of the two terms. The answer is the representative that the class has, and
    /// the one that is one no more; none where the two were of one class. The class with fewer members and uses
    /// goes to the other, so that a term changes its representative about log n times at most. An error changes
    /// nothing.
    pub fn unite(&mut self, left: TermId, right: TermId) -> Result<Option<Union>, EquivalenceError>
        requires left { left.0 < length self.old.now.reps }
        requires right { right.0 < length self.old.now.reps }
        ensures united { IfOk result (IsUnited self.old.now self.new.now left right) }
        ensures past { OnOk result (self.new.past ≡ self.old.now ∷ self.old.past) }
        ensures of { OnOk result ((terms : Terms) → AreGroupingsOf terms self.old → AreGroupingsOf terms self.new) }
        ensures unchanged { OnErr result (self.new ≡ self.old) }
    {
        let first = self.grouped.rep(left);
        let second = self.grouped.rep(right);
        self.log.reserve(1)?;
        if first == second {
            self.log.push(None).unwrap();
            return Ok(None);
        }
        let (winner, loser) = self.grouped.by_weight(first, second);
        let step = self
            .grouped
            .join(winner, loser, &mut self.digests, &self.places)?;
        self.log.push(Some(step)).unwrap();
        Ok(Some(Union { winner, loser }))
    }

    /// The members of the class that the last union took, by the representative that it had.
    pub fn taken_class(&self, loser: TermId) -> &[TermId]
        requires inside { loser.0 < length self.now.now.reps }
        ensures value { slice_get self.now.now.members loser.0 ≡ Some result.now }
        ensures members { (was : Grouping) (earlier : List Grouping) → self.now.past ≡ was ∷ earlier → IsTaken was self.now.now loser → IsClass was.reps loser result.now }
    {
        self.grouped.members(loser)
    }

    /// The terms right above a member of the class that the last union took, maybe several times.
    pub fn taken_uses(&self, loser: TermId) -> &[TermId]
        requires inside { loser.0 < length self.now.now.reps }
        ensures value { slice_get self.now.now.uses loser.0 ≡ Some result.now }
        ensures uses { (was : Grouping) (earlier : List Grouping) (terms : Terms) → self.now.past ≡ was ∷ earlier → IsTaken was self.now.now loser → IsGroupingOf terms was → AreUsesOf terms was.reps loser result.now }
    {
        self.grouped.uses(loser)
    }

    /// The constructor term of the class that the last union took.
    pub fn taken_con(&self, loser: TermId) -> Option<TermId>
        requires inside { loser.0 < length self.now.now.reps }
        ensures value { slice_get self.now.now.cons loser.0 ≡ Some result }
        ensures con { (was : Grouping) (earlier : List Grouping) → self.now.past ≡ was ∷ earlier → IsTaken was self.now.now loser → slice_get was.cons loser.0 ≡ Some result }
    {
        self.grouped.con(loser)
    }

    /// Undoes the last union. Takes no memory.
    pub fn back(&mut self)
        requires some { 0 < length self.old.past }
        ensures before { (self.new.now ∷ self.new.past) ≡ self.old.past }
        ensures of { (terms : Terms) → AreGroupingsOf terms self.old → AreGroupingsOf terms self.new }
    {
        let Some(last) = self.log.pop() else {
            return;
        };
        self.grouped
            .take_back(last, &mut self.digests, &self.places);
    }
}
