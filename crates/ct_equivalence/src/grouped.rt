//! Classes of terms at one point in time: a representative for each term, and what is stored for each representative.
//!
//! Two classes are joined by giving the members of one the representative of the other. Its rows of members and of uses stay
//! as they were beside those of the joined class, so that the union can be undone without memory.
ghost use Rattle.std.specs.Prelude.{◌≡◌, ◌<◌, ◌⊎◌, length, IfOk, OnOk, OnErr, Some, None, slice_get};
ghost use Rattle.ct_terms.specs.declared.ids.TermId.{TermId};
ghost use Rattle.ct_equivalence.specs.Partition.{AreAlone};
ghost use Rattle.ct_equivalence.specs.Grouping.{IsGrouping};
ghost use Rattle.ct_equivalence.specs.Over.{IsGroupingOf};
ghost use Rattle.ct_equivalence.specs.Union.{IsJoin};
ghost use Rattle.ct_equivalence.specs.Undoing.{before, before_join, IsNoted};
ghost use Rattle.ct_equivalence.specs.Digests.{AreDigests, ArePlaces};
ghost use Rattle.ct_terms.specs.Terms.{Terms};

use crate::alone::{own_constructors, own_representatives, own_rows};
use crate::error::EquivalenceError;
use crate::joining::{gain, join_rows, lose, relabel};
use crate::parents::parents;
use crate::places::Places;
use crate::rows::Rows;
use crate::step::Step;
use ct_terms::{TermId, TermTable};
use std::alloc::Global;
use std::marker::Model;

/// Classes of terms. Clauses see a `Grouping`.
#[derive(Drop)]
pub(crate) struct Grouped {
    // The representative of each term.
    reps: Vec<TermId>,
    // For each representative a constructor term of its class.
    cons: Vec<Option<TermId>>,
    // For each representative the members of its class.
    members: Rows,
    // For each representative the terms right above its class.
    uses: Rows,
}

impl Model for Grouped {
    ghost use Rattle.ct_equivalence.specs.Grouping.{Grouping, IsGrouping};

    ghost Value = { Grouping };

    ghost view = { λ g. record { reps = g.reps.items; cons = g.cons.items; members = g.members; uses = g.uses } };

    ghost invariant = { λ g. IsGrouping (record { reps = g.reps.items; cons = g.cons.items; members = g.members; uses = g.uses }) };
}

impl Grouped {
    /// Each term of the table alone in its class.
    pub(crate) fn new(alloc: Global, table: &TermTable) -> Result<Grouped, EquivalenceError>
        ensures of { IfOk result (IsGroupingOf table.now) }
        ensures whole { IfOk result IsGrouping }
        ensures alone { IfOk result (λ g. AreAlone (length table.now) g.reps) }
    {
        let count = table.len();
        let reps = own_representatives(alloc, count)?;
        let cons = own_constructors(alloc, table)?;
        let members = own_rows(alloc, count)?;
        let uses = parents(alloc, table)?;
        Ok(Grouped {
            reps,
            cons,
            members,
            uses,
        })
    }

    /// The representative of each term.
    pub(crate) fn reps(&self) -> &[TermId]
        ensures value { result.now ≡ self.now.reps }
        ensures whole { IsGrouping self.now }
    {
        self.reps.as_slice()
    }

    /// The constructor term that is stored for each term.
    pub(crate) fn cons(&self) -> &[Option<TermId>]
        ensures value { result.now ≡ self.now.cons }
    {
        self.cons.as_slice()
    }

    /// The representative of the term's class.
    pub(crate) fn rep(&self, t: TermId) -> TermId
        requires inside { t.0 < length self.now.reps }
        ensures value { slice_get self.now.reps t.0 ≡ Some result }
        ensures own { slice_get self.now.reps result.0 ≡ Some result }
    {
        self.reps[t.0 as usize]
    }

    /// The row of members of the term.
    pub(crate) fn members(&self, t: TermId) -> &[TermId]
        requires inside { t.0 < length self.now.reps }
        ensures value { slice_get self.now.members t.0 ≡ Some result.now }
    {
        self.members.row(t)
    }

    /// The row of uses of the term.
    pub(crate) fn uses(&self, t: TermId) -> &[TermId]
        requires inside { t.0 < length self.now.reps }
        ensures value { slice_get self.now.uses t.0 ≡ Some result.now }
    {
        self.uses.row(t)
    }

    /// The constructor term that is stored for the term.
    pub(crate) fn con(&self, t: TermId) -> Option<TermId>
        requires inside { t.0 < length self.now.reps }
        ensures value { slice_get self.now.cons t.0 ≡ Some result }
    {
        self.cons[t.0 as usize]
    }

    // How many members and uses are stored for the term.
    fn weight(&self, t: TermId) -> usize
        requires inside { t.0 < length self.now.reps }
    {
        self.members(t).len() + self.uses(t).len()
    }

    /// Of two representatives the one whose class has more members and uses, and the other one.
    pub(crate) fn by_weight(&self, left: TermId, right: TermId) -> (TermId, TermId)
        requires left { left.0 < length self.now.reps }
        requires right { right.0 < length self.now.reps }
        ensures sides { ((result.0 ≡ left) × (result.1 ≡ right)) ⊎ ((result.0 ≡ right) × (result.1 ≡ left)) }
    {
        if self.weight(left) <= self.weight(right) {
            (right, left)
        } else {
            (left, right)
        }
    }

    /// Puts the class of the second representative to that of the first. The answer is what undoes it.
    /// An error changes nothing.
    pub(crate) fn join(
        &mut self,
        winner: TermId,
        loser: TermId,
        digests: &mut Vec<u64>,
        places: &Places,
    ) -> Result<Step, EquivalenceError>
        requires winner { slice_get self.old.reps winner.0 ≡ Some winner }
        requires loser { slice_get self.old.reps loser.0 ≡ Some loser }
        requires apart { winner ≡ loser → ⊥ }
        ensures joined { OnOk result (IsJoin self.old self.new winner loser) }
        ensures sides { IfOk result (λ step. (step.winner ≡ winner) × (step.loser ≡ loser)) }
        ensures undone { IfOk result (λ step. before_join self.new step ≡ self.old) }
        ensures unchanged { OnErr result (self.new ≡ self.old) }
        ensures digests { (table : Terms) → ArePlaces table places.now
            → AreDigests table self.old.reps digests.old.items
            → AreDigests table self.new.reps digests.new.items }
        ensures same { OnErr result (digests.new.items ≡ digests.old.items) }
    {
        let (members, uses) = join_rows(&mut self.members, &mut self.uses, winner, loser)?;
        relabel(
            &mut self.reps,
            digests,
            places,
            self.members.row(loser),
            winner,
        );
        let gained = gain(&mut self.cons, winner, loser);
        Ok(Step {
            winner,
            loser,
            members,
            uses,
            gained,
        })
    }

    /// Takes the two classes of the last union apart again, where it joined two. Takes no memory.
    pub(crate) fn take_back(&mut self, last: Option<Step>, digests: &mut Vec<u64>, places: &Places)
        requires noted { IsNoted self.old last }
        requires whole { IsGrouping (before self.old last) }
        ensures before { self.new ≡ before self.old last }
        ensures digests { (table : Terms) → ArePlaces table places.now
            → AreDigests table self.old.reps digests.old.items
            → AreDigests table self.new.reps digests.new.items }
    {
        if let Some(step) = last {
            self.undo(step, digests, places);
        }
    }

    // Takes the two classes apart again.
    fn undo(&mut self, step: Step, digests: &mut Vec<u64>, places: &Places)
        requires joined { IsJoin (before_join self.old step) self.old step.winner step.loser }
        requires whole { IsGrouping (before_join self.old step) }
        ensures before { self.new ≡ before_join self.old step }
        ensures digests { (table : Terms) → ArePlaces table places.now
            → AreDigests table self.old.reps digests.old.items
            → AreDigests table self.new.reps digests.new.items }
    {
        relabel(
            &mut self.reps,
            digests,
            places,
            self.members.row(step.loser),
            step.loser,
        );
        self.members.cut(step.winner, step.members);
        self.uses.cut(step.winner, step.uses);
        lose(&mut self.cons, step.winner, step.gained);
    }
}
