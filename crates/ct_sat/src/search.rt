//! The search: clauses, trail and decisions.
ghost use Rattle.std.specs.Prelude.{◌≡◌, ℕ, ◌↔◌, [], ◌∷◌, ◌++◌, ◌<◌, length, take, true, false, vec_capacity, All, Some, None, slice_get, Contains, MatchBool, OnOk, IfOk, IfSome, MatchOption};
ghost use Rattle.ct_sat.specs.declared.progress.Saved.{Saved};
ghost use Rattle.ct_sat.specs.Watching.{IsGoneBack, HasNoTwo, IsPairOf, AreWellWatched};
ghost use Rattle.ct_terms.specs.declared.ids.TermId.{TermId};
ghost use Rattle.ct_sat.specs.State.{begun, AreVariables, AreOver, IsFresh, IsSound, IsConflict, IsQuiet, HaveValues, LacksValue};
ghost use Rattle.ct_sat.specs.State.{FollowsByUnits, AppendsTo};
ghost use Rattle.ct_sat.specs.Up.{IsAssigned};
ghost use Rattle.ct_terms.specs.Literal.{IsStripped};
ghost use Rattle.ct_sat.specs.declared.clause.StepClause.{StepClause};
ghost use Rattle.ct_sat.specs.Decision.{Leaves, Restarts, with_decision};
ghost use Rattle.ct_sat.specs.Learning.{Learns};

use crate::analysis::{analyse, refute};
use crate::choose::is_one;
use crate::clause::StepClause;
use crate::decision::{Decision, lowest};
use crate::error::SatError;
use crate::learned::Learned;
use crate::progress::{Progress, Saved};
use crate::propagate::propagate_all;
use crate::store::{make_room, put};
use crate::trail::Trail;
use crate::watches::{Watches, no_watches};
use ct_sorts::{Items, SortId};
use ct_terms::{Core, Lit, TermId, TermTable};
use std::alloc::{AllocError, Global};
use std::marker::Model;

/// A search for truth values of variables that make all clauses true. Each clause has the number of the step of a
/// derivation that gave it.
#[derive(Drop)]
pub struct Search {
    alloc: Global,
    variables: Vec<TermId>,
    clauses: Vec<StepClause>,
    trail: Trail,
    count: u64,
    budget: u64,
    watches: Watches,
    // The indices of the clauses that have fewer than two different literals.
    short: Vec<usize>,
    progress: Progress,
    // With each decision, how far propagation had come.
    saved: Vec<Saved>,
    // How many variables, the lowest ones, are known to have a value.
    cursor: usize,
    // The index of the clause that propagation found false last.
    conflict: usize,
    // Whether the last propagation found no conflict, and nothing was added or decided since.
    propagated: bool,
}

impl Model for Search {
    ghost use Rattle.ct_sat.specs.State.{SearchState};
    ghost use Rattle.std.specs.Prelude.{◌≡◌, ◌≤◌, true, vec_capacity};
    ghost use Rattle.ct_sat.specs.Stored.{IsSearch, IsCursor};
    ghost use Rattle.ct_sat.specs.Watching.{AreWatching, IsAtRest};

    ghost Value = { SearchState };

    ghost view = { λ s. record { variables = s.variables.items; clauses = s.clauses.items; trail = s.trail.literals; decided = s.trail.decided; count = s.count; budget = s.budget; propagated = s.propagated } };

    ghost invariant = { λ s. IsSearch s.variables.items s.clauses.items s.trail s.count s.budget
        × AreWatching s.clauses.items s.trail s.watches.of_clauses.items s.watches.lists.items s.short.items s.saved.items s.progress
        × (s.trail.room ≤ vec_capacity s.saved)
        × (s.propagated ≡ true → IsAtRest s.clauses.items s.trail s.short.items s.progress)
        × IsCursor s.variables.items s.trail s.saved.items s.cursor };
}

impl Search {
    /// A search without clauses over the Boolean terms of the table that are no negations, with an empty trail. It may
    /// make as many decisions as the budget says. Its only error is out of memory.
    pub fn new(alloc: Global, table: &TermTable, budget: u64) -> Result<Search, SatError>
        ensures begun { IfOk result (λ s. s ≡ begun s.variables budget) }
        ensures variables { IfOk result (λ s. AreVariables table.now s.variables) }
    {
        let terms = table.len();
        let trail = Trail::new(alloc, terms)?;
        Ok(Search {
            alloc,
            variables: variables_of(alloc, table)?,
            clauses: Vec::new(alloc),
            trail,
            count: 0,
            budget,
            watches: no_watches(alloc, terms)?,
            short: Vec::new(alloc),
            progress: Progress {
                linked: 0,
                settled: 0,
                head: 0,
                low: usize::MAX,
            },
            saved: Vec::with_capacity(alloc, terms as usize)?,
            cursor: 0,
            conflict: 0,
            propagated: false,
        })
    }

    /// Adds a clause, which the step with this number gives. It may be empty, and literals may be repeated. Its only
    /// error is out of memory, after which the search is to be dropped.
    pub fn add_clause(&mut self, lits: &[Lit], step: u64) -> Result<(), SatError>
        requires over { AreOver self.old.variables lits.now }
        requires fresh { IsFresh self.old.clauses step }
        ensures added { OnOk result (self.new ≡ record self.old { clauses = self.old.clauses ++ record { step = step; literals = lits.now } ∷ []; propagated = false }) }
    {
        let literals = Items::new(Vec::from_slice(self.alloc, lits)?);
        make_room(
            &mut self.clauses,
            &mut self.watches.of_clauses,
            &mut self.short,
        )?;
        put(
            &mut self.clauses,
            &mut self.watches.of_clauses,
            &mut self.short,
            StepClause { step, literals },
        );
        self.propagated = false;
        Ok(())
    }

    /// Appends all literals to the trail that follow by units from the clauses and the decisions. Answers the step of a
    /// clause that is false then, or none where no clause is false and nothing more follows. Takes no memory.
    pub fn propagate(&mut self) -> Option<u64>
        ensures appends { AppendsTo self.old self.new }
        ensures sound { IsSound self.new }
        ensures quiet { MatchOption result (IsQuiet self.new) (IsConflict self.new) }
        ensures marked { (self.new.propagated ≡ true) ↔ (result ≡ None) }
    {
        let conflict = propagate_all(
            &mut self.trail,
            self.clauses.as_slice(),
            &mut self.watches,
            self.short.as_slice(),
            &mut self.progress,
        );
        match conflict {
            None => {
                self.propagated = true;
                None
            }
            Some(index) => {
                self.propagated = false;
                self.conflict = index;
                Some(self.clauses[index].step)
            }
        }
    }

    /// Makes the lowest variable without a value false, if the budget of decisions is not spent. Takes no memory.
    pub fn decide(&mut self) -> Decision
        requires quiet { IsQuiet self.old }
        ensures all { (result ≡ Decision.All) ↔ HaveValues self.old }
        ensures spent { (result ≡ Decision.Spent) ↔ (LacksValue self.old × (self.old.count ≡ self.old.budget)) }
        ensures leaves { Leaves self.old self.new result }
    {
        let mut cursor = self.cursor;
        match lowest(&self.trail, self.variables.as_slice(), &mut cursor) {
            None => Decision::All,
            Some(term) => {
                if self.count == self.budget {
                    return Decision::Spent;
                }
                let literal = Lit {
                    term,
                    positive: false,
                };
                self.trail.decide(literal);
                let _count = self.trail.len();
                self.saved.push_reserved(Saved {
                    head: self.progress.head,
                    settled: self.progress.settled,
                    cursor,
                });
                self.cursor = cursor;
                self.propagated = false;
                self.count += 1;
                Decision::Took(literal)
            }
        }
    }

    /// Makes this literal true, if the budget of decisions is not spent; its variable has no value. Takes no memory.
    pub fn decide_on(&mut self, literal: Lit)
        requires variable { Contains self.old.variables literal.term }
        requires unset { IsAssigned (Contains self.old.trail) literal.term → ⊥ }
        requires left { self.old.count < self.old.budget }
        ensures decided { self.new ≡ with_decision self.old literal }
    {
        self.trail.decide(literal);
        let _count = self.trail.len();
        self.saved.push_reserved(Saved {
            head: self.progress.head,
            settled: self.progress.settled,
            cursor: self.cursor,
        });
        self.propagated = false;
        self.count += 1;
    }

    /// Undoes all decisions. Whether there were any: else nothing changes. Takes no memory.
    pub fn restart(&mut self) -> bool
        ensures restarted { MatchBool result (Restarts self.old self.new) ((self.old.decided ≡ []) × (self.new ≡ self.old)) }
    {
        if self.trail.decided().len() == 0 {
            return false;
        }
        self.trail.cut_to(0);
        self.cursor = self.saved[0].cursor;
        go_back(&mut self.progress, &mut self.saved, 0, self.trail.len());
        self.propagated = false;
        true
    }

    /// Learns from the clause of the step `conflict`, which is false in the trail. Answers a clause with the hints by which
    /// it follows, adds it under the number `step`, and keeps so many decisions that all its literals but one are false and
    /// that one has no value; or, exactly where no decision stands, the hints by which the empty clause follows. Its only
    /// error is out of memory, after which the search is to be dropped.
    pub fn learn(&mut self, conflict: u64, step: u64) -> Result<Learned, SatError>
        requires conflict { IsConflict self.old conflict }
        requires fresh { IsFresh self.old.clauses step }
        ensures learned { IfOk result (Learns self.old self.new step) }
    {
        let index = match find(self.clauses.as_slice(), conflict, self.conflict) {
            Some(index) => index,
            None => unreachable!(),
        };
        if self.trail.decided().is_empty() {
            let hints = refute(self.alloc, &self.trail, self.clauses.as_slice(), index)?;
            return Ok(Learned::Empty {
                hints: Items::new(hints),
            });
        }
        let found = analyse(self.alloc, &self.trail, self.clauses.as_slice(), index)?;
        let literals = Items::new(Vec::from_slice(self.alloc, found.lits.as_slice())?);
        make_room(
            &mut self.clauses,
            &mut self.watches.of_clauses,
            &mut self.short,
        )?;
        put(
            &mut self.clauses,
            &mut self.watches.of_clauses,
            &mut self.short,
            StepClause { step, literals },
        );
        self.trail.cut_to(found.keep);
        self.cursor = self.saved[found.keep].cursor;
        go_back(
            &mut self.progress,
            &mut self.saved,
            found.keep,
            self.trail.len(),
        );
        self.propagated = false;
        Ok(Learned::Clause {
            lits: Items::new(found.lits),
            hints: Items::new(found.hints),
            keep: found.keep as u32,
        })
    }

    /// The two watched literals of the clause of this step, which differ. None exactly where there is no such clause or it
    /// has no two different literals. Once `propagate` has answered none, and until something is added or decided, neither
    /// of the two is false, or one is true. Takes no memory.
    pub fn watches(&self, step: u64) -> Option<(Lit, Lit)>
        ensures watched { MatchOption result (HasNoTwo self.now.clauses step) (λ r. IsPairOf self.now.clauses step r.0 r.1) }
        ensures well { self.now.propagated ≡ true → IfSome result (λ r. AreWellWatched self.now.trail r.0 r.1) }
    {
        match find(self.clauses.as_slice(), step, 0) {
            None => None,
            Some(index) => {
                let watch = self.watches.of_clauses[index];
                if is_one(watch.one, watch.other) {
                    return None;
                }
                Some((watch.one, watch.other))
            }
        }
    }

    /// How many decisions were made in all.
    pub fn decisions(&self) -> u64
        ensures value { result ≡ self.now.count }
    {
        self.count
    }

    /// Whether all decisions that are allowed were made.
    pub fn is_spent(&self) -> bool
        ensures spent { MatchBool result (self.now.count ≡ self.now.budget) (self.now.count < self.now.budget) }
    {
        self.count == self.budget
    }

    /// The variables, in the order of their numbers.
    pub fn variables(&self) -> &[TermId]
        ensures value { result.now ≡ self.now.variables }
    {
        self.variables.as_slice()
    }

    /// The variable at this index among them, if it has no value.
    pub fn unset_variable(&self, place: usize) -> Option<TermId>
        ensures unset { MatchOption result ((t : TermId) → slice_get self.now.variables place ≡ Some t → IsAssigned (Contains self.now.trail) t)
            (λ t. (slice_get self.now.variables place ≡ Some t) × (IsAssigned (Contains self.now.trail) t → ⊥)) }
    {
        if place >= self.variables.len() {
            return None;
        }
        let variable = self.variables[place];
        match self.trail.index(variable) {
            Some(_) => None,
            None => Some(variable),
        }
    }

    /// The literals made true, in order: each was decided, or follows by units from the clauses and the decisions before.
    pub fn trail(&self) -> &[Lit]
        ensures value { result.now ≡ self.now.trail }
        ensures sound { IsSound self.now }
        ensures follows { All (FollowsByUnits self.now) self.now.trail }
    {
        self.trail.literals()
    }
}

// The Boolean terms of the table that are no negations.
fn variables_of(alloc: Global, table: &TermTable) -> Result<Vec<TermId>, AllocError>
    ensures variables { IfOk result (λ v. AreVariables table.now v.items) }
{
    let mut variables = Vec::new(alloc);
    for number in 0..table.len() {
        if is_variable(table, TermId(number)) {
            variables.push(TermId(number))?;
        }
    }
    Ok(variables)
}

// Whether the term is Boolean and no negation.
fn is_variable(table: &TermTable, t: TermId) -> bool
    requires within { t.0 < length table.now }
    ensures value { MatchBool result (IsStripped table.now t) (IsStripped table.now t → ⊥) }
{
    if table.sort(t).0 != 0 {
        return false;
    }
    match table.core(t) {
        Core::Not(_) => false,
        _ => true,
    }
}

// The index of the clause with this number, looked for at the guess and then from the last one on; none where there is no
// such clause.
fn find(clauses: &[StepClause], step: u64, guess: usize) -> Option<usize>
    ensures found { MatchOption result (IsFresh clauses.now step) (λ i. (c : StepClause) × (slice_get clauses.now i ≡ Some c) × (c.step ≡ step)) }
{
    if guess < clauses.len() && clauses[guess].step == step {
        return Some(guess);
    }
    let mut index = clauses.len();
    'clauses: while index > 0 {
        index -= 1;
        if clauses[index].step == step {
            return Some(index);
        }
    }
    None
}

// Goes back to how far propagation had come when the first decision was made that is not kept, which stood at the index.
fn go_back(progress: &mut Progress, saved: &mut Vec<Saved>, keep: usize, index: usize)
    requires fits { keep < length saved.old.items }
    ensures saved { saved.new.items ≡ take keep saved.old.items }
    ensures capacity { vec_capacity saved.new ≡ vec_capacity saved.old }
    ensures back { (s : Saved) → slice_get saved.old.items keep ≡ Some s → IsGoneBack progress.old s index progress.new }
{
    let Saved { head, settled, .. } = saved[keep];
    let low = progress.low;
    progress.settled = settled;
    progress.head = if head < low { head } else { low };
    if index <= low {
        progress.low = usize::MAX;
    }
    saved.truncate(keep);
}
