//! Which literals of a learned clause are left out (local minimisation; Sörensson and Biere 2009): those that others of it
//! imply by one reason. No clause of a contract says how short the clause is: it follows, whichever literals are left out.
ghost use Rattle.std.specs.Prelude.{◌≡◌, ◌<◌, length, All, Some, slice_get, IfSome};
ghost use Rattle.ct_sat.specs.declared.clause.StepClause.{StepClause};
ghost use Rattle.ct_sat.specs.Assigned.{HaveReasons, IsReason};

use crate::clause::StepClause;
use crate::trail::Trail;
use ct_terms::Lit;

/// The index of the reason of the literal at this index, if it is marked and each other literal of the reason is marked or
/// stands before `first`.
pub(crate) fn covering_reason(
    trail: &Trail,
    clauses: &[StepClause],
    marks: &Vec<bool>,
    index: usize,
    first: usize,
) -> Option<usize>
    requires within { All (λ c. All (λ l. l.term.0 < trail.now.room) c.literals) clauses.now }
    requires reasons { HaveReasons clauses.now trail.now.literals trail.now.reasons }
    requires long { length marks.now.items ≡ length trail.now.literals }
    requires fits { index < length trail.now.literals }
    ensures reason { IfSome result (λ r. (c : StepClause) × (slice_get clauses.now r ≡ Some c) × IsReason clauses.now trail.now.literals index c) }
{
    if !marks[index] {
        return None;
    }
    match trail.reason(index) {
        None => None,
        Some(reason) => {
            if is_covered(
                trail,
                clauses[reason].literals.as_slice(),
                marks,
                index,
                first,
            ) {
                Some(reason)
            } else {
                None
            }
        }
    }
}

// Whether each literal of the clause is at the index, marked, or before `first`.
fn is_covered(trail: &Trail, clause: &[Lit], marks: &Vec<bool>, index: usize, first: usize) -> bool
    requires within { All (λ l. l.term.0 < trail.now.room) clause.now }
    requires long { length marks.now.items ≡ length trail.now.literals }
{
    for literal in clause {
        if !covers(trail, marks, *literal, index, first) {
            return false;
        }
    }
    true
}

// Whether the literal's variable is at the index, marked, or before `first`.
fn covers(trail: &Trail, marks: &Vec<bool>, l: Lit, index: usize, first: usize) -> bool
    requires within { l.term.0 < trail.now.room }
    requires long { length marks.now.items ≡ length trail.now.literals }
{
    match trail.index(l.term) {
        None => false,
        Some(place) => place < first || place == index || marks[place],
    }
}
