//! Clauses that follow from earlier lines by unit propagation, with the lines in their order as hints.
ghost use Rattle.std.specs.Prelude.{◌≡◌, ◌↔◌, ◌<◌, ◌≤◌, ◌+◌, ◌⊎◌, List, length, All, Contains, Some, IsTrue, MatchOption};
ghost use Rattle.ct_terms.specs.declared.ids.Lit.{Lit};
ghost use Rattle.ct_terms.specs.Clause.{Clause, opposites};
ghost use Rattle.ct_terms.specs.Propagation.{Rup, IsUnit, IsNumbered, IsFalseIn, AreFalseIn};
ghost use Rattle.ct_log.specs.Acceptance.{clauses_of};
ghost use Rattle.ct_log.specs.Marks.{AreMarked};
ghost use Rattle.ct_log.specs.Propagated.{IsUnitAt, IsFalseAt, Settles};

use crate::line::Line;
use crate::look::signed;
use crate::marks::Marks;
use ct_terms::Lit;

/// Whether the clause, whose opposites are marked, follows from the lines by the hints. Marks what they propagate.
pub(crate) fn follows(lines: &[Line], hints: &[u64], marks: &mut Marks) -> bool
    requires room { length marks.old.others + length hints.now ≤ marks.old.room }
    ensures follows { (clause : Clause) → AreMarked marks.old (opposites clause)
        → IsTrue result ↔ Rup (clauses_of lines.now) hints.now clause }
    ensures stamps { length marks.new.stamps ≡ length marks.old.stamps }
    ensures room { marks.new.room ≡ marks.old.room }
{
    if hints.is_empty() {
        return false;
    }
    let last = hints.len() - 1;
    if !propagates(lines, &hints[..last], marks) {
        return false;
    }
    is_false_at(lines, hints[last], marks)
}

// Whether each hint in turn has exactly one literal that is not false. Marks these.
fn propagates(lines: &[Line], hints: &[u64], marks: &mut Marks) -> bool
    requires room { length marks.old.others + length hints.now ≤ marks.old.room }
    ensures settles { (before : List Lit) → AreMarked marks.old before → Settles (clauses_of lines.now) hints.now before marks.new result }
    ensures stamps { length marks.new.stamps ≡ length marks.old.stamps }
    ensures room { marks.new.room ≡ marks.old.room }
{
    for hint in hints {
        match unit_at(lines, *hint, marks) {
            None => return false,
            Some(l) => marks.mark(l),
        }
    }
    true
}

// The one literal that is not false of the clause of the line with this number, from 1.
fn unit_at(lines: &[Line], hint: u64, marks: &Marks) -> Option<Lit>
    ensures unit { (set : List Lit) → AreMarked marks.now set
        → (l : Lit) → IsUnitAt (clauses_of lines.now) hint set l ↔ (result ≡ Some l) }
{
    if !has_line(lines, hint) {
        return None;
    }
    unit_of(clause_at(lines, hint), marks)
}

// Whether all literals of the clause of the line with this number, from 1, are false.
fn is_false_at(lines: &[Line], hint: u64, marks: &Marks) -> bool
    ensures refuted { (set : List Lit) → AreMarked marks.now set → IsTrue result ↔ IsFalseAt (clauses_of lines.now) hint set }
{
    if !has_line(lines, hint) {
        return false;
    }
    match first_other(clause_at(lines, hint), marks) {
        None => true,
        Some(_) => false,
    }
}

// Whether there is a line with this number, from 1.
fn has_line(lines: &[Line], hint: u64) -> bool
    ensures within { IsTrue result ↔ ((0 < hint) × (hint ≤ length lines.now)) }
{
    0 < hint && hint <= lines.len() as u64
}

// The clause of the line with this number, from 1.
fn clause_at(lines: &[Line], hint: u64) -> &[Lit]
    requires above { 0 < hint }
    requires within { hint ≤ length lines.now }
    ensures numbered { IsNumbered (clauses_of lines.now) hint result.now }
{
    lines[(hint - 1) as usize].clause.as_slice()
}

// The one literal of the clause that is not false.
fn unit_of(clause: &[Lit], marks: &Marks) -> Option<Lit>
    ensures unit { (set : List Lit) → AreMarked marks.now set → (l : Lit) → IsUnit set clause.now l ↔ (result ≡ Some l) }
{
    match first_other(clause, marks) {
        None => None,
        Some(l) => {
            if !are_false_but(clause, marks, l) {
                return None;
            }
            Some(l)
        }
    }
}

// The first literal of the clause that is not false.
fn first_other(clause: &[Lit], marks: &Marks) -> Option<Lit>
    ensures other { (set : List Lit) → AreMarked marks.now set
        → MatchOption result (AreFalseIn set clause.now) (λ l. Contains clause.now l × (IsFalseIn set l → ⊥)) }
{
    for l in clause {
        if !marks.has(signed(false, *l)) {
            return Some(*l);
        }
    }
    None
}

// Whether all literals of the clause but this one are false.
fn are_false_but(clause: &[Lit], marks: &Marks, l: Lit) -> bool
    ensures others { (set : List Lit) → AreMarked marks.now set → IsTrue result ↔ All (λ k. (k ≡ l) ⊎ IsFalseIn set k) clause.now }
{
    for k in clause {
        if !is_or_is_false(marks, *k, l) {
            return false;
        }
    }
    true
}

// Whether the literal is this one, or is false.
fn is_or_is_false(marks: &Marks, k: Lit, l: Lit) -> bool
    ensures either { (set : List Lit) → AreMarked marks.now set → IsTrue result ↔ ((k ≡ l) ⊎ IsFalseIn set k) }
{
    if k == l {
        return true;
    }
    marks.has(signed(false, k))
}
