//! The clauses added since the last propagation: what they watch, and what follows from them.
ghost use Rattle.std.specs.Prelude.{◌≡◌, ℕ, ◌+◌, ◌<◌, ◌≤◌, ◌⊎◌, length, List, Some, slice_get, set, All, Contains, MatchOption, MatchBool};
ghost use Rattle.ct_terms.specs.declared.ids.Lit.{Lit};
ghost use Rattle.ct_terms.specs.Propagation.{IsFalseIn, AreFalseIn};
ghost use Rattle.ct_sat.specs.declared.clause.StepClause.{StepClause};
ghost use Rattle.ct_sat.specs.declared.watch.Watch.{Watch};
ghost use Rattle.ct_sat.specs.declared.watch.WatchList.{WatchList};
ghost use Rattle.ct_sat.specs.Status.{IsFalseAt};
ghost use Rattle.ct_sat.specs.Watches.{code_of};
ghost use Rattle.ct_sat.specs.Watching.{AreLinked, AreTwoOf, IsReplacement, Puts, Attaches, IsLowered};
ghost use Rattle.ct_sat.specs.declared.decided.Decided.{Decided};

use crate::choose::{is_one, latest, replacement};
use crate::clause::StepClause;
use crate::progress::Progress;
use crate::trail::Trail;
use crate::value::Value;
use crate::visit::force;
use crate::watch::Watch;
use crate::watches::{Watches, link};
use ct_terms::Lit;

/// Puts each clause that is in no list yet into those of its watched literals. Answers the index of a clause that is false.
pub(crate) fn attach_all(
    trail: &mut Trail,
    clauses: &[StepClause],
    watches: &mut Watches,
    progress: &mut Progress,
) -> Option<usize>
    requires within { All (λ c. All (λ l. l.term.0 < trail.old.room) c.literals) clauses.now }
    requires linked { AreLinked clauses.now trail.old.room watches.old.of_clauses.items watches.old.lists.items progress.old.linked }
    requires head { progress.old.head ≤ length trail.old.literals }
    ensures linked { AreLinked clauses.now trail.new.room watches.new.of_clauses.items watches.new.lists.items progress.new.linked }
    ensures attaches { Attaches clauses.now trail.old trail.new watches.old.of_clauses.items watches.new.of_clauses.items progress.old progress.new }
    ensures outcome { MatchOption result (progress.new.linked ≡ length clauses.now) (IsFalseAt clauses.now trail.new.literals) }
{
    'added: while progress.linked < clauses.len() {
        let clause = progress.linked;
        if attach(trail, clauses, watches, progress) {
            return Some(clause);
        }
    }
    None
}

// Chooses the watched literals of the next clause, and puts it into their lists. Whether it is false.
fn attach(
    trail: &mut Trail,
    clauses: &[StepClause],
    watches: &mut Watches,
    progress: &mut Progress,
) -> bool
    requires within { All (λ c. All (λ l. l.term.0 < trail.old.room) c.literals) clauses.now }
    requires linked { AreLinked clauses.now trail.old.room watches.old.of_clauses.items watches.old.lists.items progress.old.linked }
    requires head { progress.old.head ≤ length trail.old.literals }
    requires more { progress.old.linked < length clauses.now }
    ensures linked { AreLinked clauses.now trail.new.room watches.new.of_clauses.items watches.new.lists.items progress.new.linked }
    ensures attaches { Attaches clauses.now trail.old trail.new watches.old.of_clauses.items watches.new.of_clauses.items progress.old progress.new }
    ensures outcome { MatchBool result (IsFalseAt clauses.now trail.new.literals progress.old.linked) (progress.new.linked ≡ progress.old.linked + 1) }
{
    let watch = watches.of_clauses[progress.linked];
    if is_one(watch.one, watch.other) {
        progress.linked += 1;
        return false;
    }
    let clause = clauses[progress.linked].literals.as_slice();
    match not_false(trail, clause, watch.one) {
        None => true,
        Some(one) => {
            let given = other_than(watch, one);
            attach_beside(trail, clauses, watches, progress, one, given);
            false
        }
    }
}

// The watched literal that is not this one.
fn other_than(watch: Watch, l: Lit) -> Lit
    requires differ { watch.one ≡ watch.other → ⊥ }
    ensures differs { (result ≡ l → ⊥) × ((result ≡ watch.one) ⊎ (result ≡ watch.other)) }
{
    if is_one(watch.one, l) {
        watch.other
    } else {
        watch.one
    }
}

// A literal of the clause that is not false, given one of the clause.
fn not_false(trail: &Trail, clause: &[Lit], l: Lit) -> Option<Lit>
    requires within { All (λ l. l.term.0 < trail.now.room) clause.now }
    requires listed { Contains clause.now l }
    ensures found { MatchOption result (AreFalseIn trail.now.literals clause.now) (λ k. Contains clause.now k × (IsFalseIn trail.now.literals k → ⊥)) }
{
    match trail.value(l) {
        Value::False => replacement(trail, clause, l),
        Value::True => Some(l),
        Value::Unset => Some(l),
    }
}

// Puts the next clause into the lists of a literal that is not false and of another one. Where all others are false, that is
// the one that became false last, and the literal is made true.
fn attach_beside(
    trail: &mut Trail,
    clauses: &[StepClause],
    watches: &mut Watches,
    progress: &mut Progress,
    one: Lit,
    given: Lit,
)
    requires within { All (λ c. All (λ l. l.term.0 < trail.old.room) c.literals) clauses.now }
    requires linked { AreLinked clauses.now trail.old.room watches.old.of_clauses.items watches.old.lists.items progress.old.linked }
    requires head { progress.old.head ≤ length trail.old.literals }
    requires clause { (k : StepClause) × (slice_get clauses.now progress.old.linked ≡ Some k) × Contains k.literals one × Contains k.literals given }
    requires differ { given ≡ one → ⊥ }
    requires not_false { IsFalseIn trail.old.literals one → ⊥ }
    ensures linked { AreLinked clauses.now trail.new.room watches.new.of_clauses.items watches.new.lists.items progress.new.linked }
    ensures attaches { Attaches clauses.now trail.old trail.new watches.old.of_clauses.items watches.new.of_clauses.items progress.old progress.new }
    ensures more { progress.new.linked ≡ progress.old.linked + 1 }
{
    let index = progress.linked;
    let clause = clauses[index].literals.as_slice();
    match replacement(trail, clause, one) {
        Some(other) => {
            put_into_lists(watches, index, one, other);
            progress.linked = index + 1;
        }
        None => {
            let other = latest(trail, clause, one, given);
            put_into_lists(watches, index, one, other);
            progress.low = lowered(trail, progress.low, other);
            progress.linked = index + 1;
            let _ = force(trail, one, index);
        }
    }
}

// Puts a clause into the lists of two of its literals.
fn put_into_lists(watches: &mut Watches, clause: usize, one: Lit, other: Lit)
    requires within { clause < length watches.old.of_clauses.items }
    requires one { code_of one < length watches.old.lists.items }
    requires other { code_of other < length watches.old.lists.items }
    requires differ { one ≡ other → ⊥ }
    requires few_one { (listed : WatchList) → slice_get watches.old.lists.items (code_of one) ≡ Some listed → listed.count ≤ length watches.old.of_clauses.items }
    requires few_other { (listed : WatchList) → slice_get watches.old.lists.items (code_of other) ≡ Some listed → listed.count ≤ length watches.old.of_clauses.items }
    ensures puts { Puts watches.old.of_clauses.items watches.old.lists.items clause one other watches.new.of_clauses.items watches.new.lists.items }
{
    watches.of_clauses[clause] = Watch {
        one,
        other,
        after_one: 0,
        after_other: 0,
    };
    link(watches, clause, one, one);
    link(watches, clause, other, other);
}

// The lower of the number and the index of the literal's variable, where a decision stands after that.
fn lowered(trail: &Trail, low: usize, l: Lit) -> usize
    requires within { l.term.0 < trail.now.room }
    ensures lowered { IsLowered trail.now.literals trail.now.decided low l result }
{
    match trail.index(l.term) {
        None => low,
        Some(index) => {
            if low <= index {
                return low;
            }
            if last_index(trail) <= index {
                return low;
            }
            index
        }
    }
}

// The index of the last decision; 0 where there is none.
fn last_index(trail: &Trail) -> usize
    ensures last { (j : ℕ) (d : Decided) → slice_get trail.now.decided j ≡ Some d → d.index ≤ result }
{
    let decided = trail.decided();
    if decided.is_empty() {
        0
    } else {
        decided[decided.len() - 1].index
    }
}
