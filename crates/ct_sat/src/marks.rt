//! Marks on the indices of the trail, and bounds on the indices of a clause's variables.
ghost use Rattle.std.specs.Prelude.{◌≡◌, ℕ, ◌<◌, ◌≤◌, [], ◌∷◌, length, All};
ghost use Rattle.ct_sat.specs.Analysis.{MarksClause, Lowers, Raises};

use crate::trail::Trail;
use ct_terms::Lit;

/// Marks the indices of the clause's variables.
pub(crate) fn mark(trail: &Trail, clause: &[Lit], marks: &mut Vec<bool>)
    requires within { All (λ l. l.term.0 < trail.now.room) clause.now }
    requires long { length marks.old.items ≡ length trail.now.literals }
    ensures marked { MarksClause trail.now.literals clause.now marks.old.items marks.new.items }
{
    for literal in clause {
        mark_variable(trail, *literal, marks);
    }
}

// Marks the index of the literal's variable.
fn mark_variable(trail: &Trail, l: Lit, marks: &mut Vec<bool>)
    requires within { l.term.0 < trail.now.room }
    requires long { length marks.old.items ≡ length trail.now.literals }
    ensures marked { MarksClause trail.now.literals (l ∷ []) marks.old.items marks.new.items }
{
    if let Some(position) = trail.index(l.term) {
        marks[position] = true;
    }
}

/// The lowest of this index and those of the clause's variables from `start` on.
pub(crate) fn lower(trail: &Trail, clause: &[Lit], start: usize, index: usize) -> usize
    requires within { All (λ l. l.term.0 < trail.now.room) clause.now }
    ensures lowers { Lowers trail.now.literals clause.now start index result }
{
    let mut lowest = index;
    for literal in clause {
        lowest = lower_to(trail, *literal, start, lowest);
    }
    lowest
}

// The lower of this index and that of the literal's variable, if it is not before `start`.
fn lower_to(trail: &Trail, l: Lit, start: usize, index: usize) -> usize
    requires within { l.term.0 < trail.now.room }
    ensures lowers { Lowers trail.now.literals (l ∷ []) start index result }
{
    match trail.index(l.term) {
        None => index,
        Some(position) => {
            if position < start {
                index
            } else if position < index {
                position
            } else {
                index
            }
        }
    }
}

/// One above the highest index of the clause's variables; 0 where there is none.
pub(crate) fn top(trail: &Trail, clause: &[Lit]) -> usize
    requires within { All (λ l. l.term.0 < trail.now.room) clause.now }
    ensures raises { Raises trail.now.literals clause.now 0 result }
{
    let mut highest = 0;
    for literal in clause {
        highest = raise_above(trail, *literal, highest);
    }
    highest
}

// One above the index of the literal's variable, if that is higher.
fn raise_above(trail: &Trail, l: Lit, index: usize) -> usize
    requires within { l.term.0 < trail.now.room }
    ensures raises { Raises trail.now.literals (l ∷ []) index result }
{
    match trail.index(l.term) {
        None => index,
        Some(position) => {
            if position < index {
                index
            } else {
                position + 1
            }
        }
    }
}
