//! Unit propagation by watched literals.
ghost use Rattle.std.specs.Prelude.{◌≡◌, ℕ, ◌<◌, ◌≤◌, length, All, List, MatchOption};
ghost use Rattle.ct_sat.specs.declared.progress.Saved.{Saved};
ghost use Rattle.ct_sat.specs.Trail.{IsWhole};
ghost use Rattle.ct_sat.specs.Status.{IsFalseAt};
ghost use Rattle.ct_sat.specs.Watching.{AreWatching, AreLinked, ArePlaces, IsAtRest, WorksThrough, Settles, Advances};

use crate::attach::attach_all;
use crate::clause::StepClause;
use crate::progress::Progress;
use crate::status::examine;
use crate::trail::Trail;
use crate::visit::visit;
use crate::watches::Watches;

/// Puts all literals that follow by units into the trail, or answers the index of a clause that is false.
pub(crate) fn propagate_all(
    trail: &mut Trail,
    clauses: &[StepClause],
    watches: &mut Watches,
    short: &[usize],
    progress: &mut Progress,
) -> Option<usize>
    requires within { All (λ c. All (λ l. l.term.0 < trail.old.room) c.literals) clauses.now }
    requires watching { (saved : List Saved) × AreWatching clauses.now trail.old watches.old.of_clauses.items watches.old.lists.items short.now saved progress.old }
    ensures advances { Advances clauses.now trail.old trail.new watches.old.of_clauses.items watches.old.lists.items watches.new.of_clauses.items watches.new.lists.items short.now progress.old progress.new }
    ensures outcome { MatchOption result (IsAtRest clauses.now trail.new short.now progress.new) (IsFalseAt clauses.now trail.new.literals) }
    ensures whole { IsWhole trail.new }
{
    let settled = settle(trail, clauses, short, progress);
    if settled.is_some() {
        let _count = trail.len();
        return settled;
    }
    let attached = attach_all(trail, clauses, watches, progress);
    if attached.is_some() {
        let _count = trail.len();
        return attached;
    }
    work_through(trail, clauses, watches, progress)
}

// Makes the literals of the short clauses true.
fn settle(
    trail: &mut Trail,
    clauses: &[StepClause],
    short: &[usize],
    progress: &mut Progress,
) -> Option<usize>
    requires within { All (λ c. All (λ l. l.term.0 < trail.old.room) c.literals) clauses.now }
    requires short { ArePlaces clauses.now short.now }
    requires fits { progress.old.settled ≤ length short.now }
    ensures settles { Settles clauses.now trail.old trail.new short.now progress.old progress.new }
    ensures outcome { MatchOption result (progress.new.settled ≡ length short.now) (IsFalseAt clauses.now trail.new.literals) }
{
    'short: while progress.settled < short.len() {
        let clause = short[progress.settled];
        if examine(trail, clauses[clause].literals.as_slice(), clause) {
            return Some(clause);
        }
        progress.settled += 1;
    }
    None
}

// Works through the literals of the trail that are left.
fn work_through(
    trail: &mut Trail,
    clauses: &[StepClause],
    watches: &mut Watches,
    progress: &mut Progress,
) -> Option<usize>
    requires within { All (λ c. All (λ l. l.term.0 < trail.old.room) c.literals) clauses.now }
    requires linked { AreLinked clauses.now trail.old.room watches.old.of_clauses.items watches.old.lists.items (length clauses.now) }
    requires head { progress.old.head ≤ length trail.old.literals }
    ensures works { WorksThrough clauses.now trail.old trail.new watches.old.of_clauses.items watches.new.of_clauses.items progress.old progress.new }
    ensures linked { AreLinked clauses.now trail.new.room watches.new.of_clauses.items watches.new.lists.items (length clauses.now) }
    ensures outcome { MatchOption result (progress.new.head ≡ length trail.new.literals) (IsFalseAt clauses.now trail.new.literals) }
    ensures whole { IsWhole trail.new }
{
    'literals: while progress.head < trail.len() {
        let conflict = visit(trail, clauses, watches, progress.head);
        if conflict.is_some() {
            let _count = trail.len();
            return conflict;
        }
        progress.head += 1;
    }
    let _count = trail.len();
    None
}
