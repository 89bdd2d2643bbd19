//! Visits the clauses that watch a literal once it is false.
ghost use Rattle.std.specs.Prelude.{◌≡◌, ℕ, ◌+◌, ◌<◌, ◌≤◌, length, List, Some, slice_get, All, Contains, MatchOption};
ghost use Rattle.std.specs.Bool.{OnTrue};
ghost use Rattle.ct_terms.specs.declared.ids.Lit.{Lit};
ghost use Rattle.ct_terms.specs.Propagation.{IsFalseIn};
ghost use Rattle.ct_sat.specs.declared.clause.StepClause.{StepClause};
ghost use Rattle.ct_sat.specs.declared.watch.Watch.{Watch};
ghost use Rattle.ct_sat.specs.declared.watch.WatchList.{WatchList};
ghost use Rattle.ct_sat.specs.declared.progress.Saved.{Saved};
ghost use Rattle.ct_sat.specs.Up.{IsForced};
ghost use Rattle.ct_sat.specs.Trail.{IsWhole};
ghost use Rattle.ct_sat.specs.Status.{Propagated, IsFalseAt};
ghost use Rattle.ct_sat.specs.Watches.{code_of, IsWatch};
ghost use Rattle.ct_sat.specs.Watching.{AreLinked, AreHeld, KeepsShort, LooksAt, IsForcedBy, IsWorkedThrough};

use crate::analysis::opposite;
use crate::choose::replacement;
use crate::clause::StepClause;
use crate::trail::Trail;
use crate::value::Value;
use crate::watch::{WatchList, beside};
use crate::watches::{Watches, link, take_list};
use ct_terms::Lit;

/// Looks at each clause that watches the opposite of the literal at this index: another literal of it is watched, or it
/// stays and its other watched literal is true, or made true. Answers the index of a clause that is false.
pub(crate) fn visit(
    trail: &mut Trail,
    clauses: &[StepClause],
    watches: &mut Watches,
    index: usize,
) -> Option<usize>
    requires within { All (λ c. All (λ l. l.term.0 < trail.old.room) c.literals) clauses.now }
    requires linked { AreLinked clauses.now trail.old.room watches.old.of_clauses.items watches.old.lists.items (length clauses.now) }
    requires fits { index < length trail.old.literals }
    ensures propagated { Propagated clauses.now trail.old trail.new }
    ensures linked { AreLinked clauses.now trail.new.room watches.new.of_clauses.items watches.new.lists.items (length clauses.now) }
    ensures short { KeepsShort watches.old.of_clauses.items watches.new.of_clauses.items }
    ensures held { (saved : List Saved) (low : ℕ)
        → AreHeld watches.old.of_clauses.items (length clauses.now) trail.old.literals saved trail.old.decided low index
        → AreHeld watches.new.of_clauses.items (length clauses.now) trail.new.literals saved trail.new.decided low index }
    ensures worked { MatchOption result (IsWorkedThrough watches.new.of_clauses.items trail.new.literals index) (IsFalseAt clauses.now trail.new.literals) }
{
    let gone = opposite(trail, index);
    let mut rest = take_list(watches, gone);
    let mut conflict: Option<usize> = None;
    'listed: while rest.count > 0 {
        let _count = trail.len();
        let clause = rest.first;
        let (other, next) = beside(watches.of_clauses[clause], gone);
        rest = WatchList {
            first: next,
            count: rest.count - 1,
        };
        conflict = look_at(trail, clauses, watches, gone, other, clause, conflict);
    }
    conflict
}

// Puts a clause back into a list, with what follows from it where no clause is false so far.
fn look_at(
    trail: &mut Trail,
    clauses: &[StepClause],
    watches: &mut Watches,
    l: Lit,
    other: Lit,
    clause: usize,
    conflict: Option<usize>,
) -> Option<usize>
    requires within { All (λ c. All (λ l. l.term.0 < trail.old.room) c.literals) clauses.now }
    requires literals { (l.term.0 < trail.old.room) }
    requires clause { (k : StepClause) × (slice_get clauses.now clause ≡ Some k) × Contains k.literals other }
    requires lists { length watches.old.lists.items ≡ trail.old.room + trail.old.room }
    requires watched { (w : Watch) × (n : ℕ) × (slice_get watches.old.of_clauses.items clause ≡ Some w) × IsWatch w l other n }
    requires few { (k : Lit) (listed : WatchList) → k.term.0 < trail.old.room → slice_get watches.old.lists.items (code_of k) ≡ Some listed → listed.count ≤ length watches.old.of_clauses.items }
    requires conflict { MatchOption conflict (Unit {0}) (IsFalseAt clauses.now trail.old.literals) }
    requires is_false { IsFalseIn trail.old.literals l }
    ensures looks { LooksAt clauses.now trail.old trail.new watches.old.of_clauses.items watches.old.lists.items clause l other watches.new.of_clauses.items watches.new.lists.items conflict result }
{
    if conflict.is_some() {
        link(watches, clause, l, l);
        return conflict;
    }
    if is_true(trail, other) {
        link(watches, clause, l, l);
        return None;
    }
    match replacement(trail, clauses[clause].literals.as_slice(), other) {
        Some(to) => {
            link(watches, clause, l, to);
            None
        }
        None => {
            link(watches, clause, l, l);
            force(trail, other, clause)
        }
    }
}

// Whether the literal is true.
fn is_true(trail: &Trail, l: Lit) -> bool
    requires within { l.term.0 < trail.now.room }
    ensures value { OnTrue result (Contains trail.now.literals l) }
{
    match trail.value(l) {
        Value::True => true,
        Value::False => false,
        Value::Unset => false,
    }
}

/// Makes the literal true that the clause forces. Answers the clause where the literal is false.
pub(crate) fn force(trail: &mut Trail, l: Lit, clause: usize) -> Option<usize>
    requires within { l.term.0 < trail.old.room }
    ensures forced { (clauses : List StepClause) (k : StepClause) → slice_get clauses clause ≡ Some k → IsForced trail.old.literals k.literals l
        → IsForcedBy clauses trail.old trail.new l result }
{
    match trail.value(l) {
        Value::True => None,
        Value::Unset => {
            trail.imply(l, clause);
            None
        }
        Value::False => Some(clause),
    }
}
