//! Conflict analysis: down the trail to the first unique implication point, and the clause that is learned.
ghost use Rattle.std.specs.Prelude.{◌≡◌, ℕ, ◌+◌, ◌-◌, ◌<◌, ◌≤◌, List, [], ◌∷◌, ◌++◌, length, reverse, All, Some, slice_get, Contains, OnOk, IfOk};
ghost use Rattle.ct_terms.specs.declared.ids.Lit.{Lit};
ghost use Rattle.ct_terms.specs.Clause.{Clause};
ghost use Rattle.ct_terms.specs.Literal.{opposite as negated};
ghost use Rattle.ct_terms.specs.Propagation.{AreFalseIn};
ghost use Rattle.ct_sat.specs.State.{IsConsistent};
ghost use Rattle.ct_sat.specs.Assigned.{HaveReasons, IsReason};
ghost use Rattle.ct_sat.specs.Trail.{IsWhole};
ghost use Rattle.ct_sat.specs.Learning.{FollowsBy};
ghost use Rattle.ct_sat.specs.Status.{IsFalseAt};
ghost use Rattle.ct_sat.specs.Analysis.{Leads, GoesDown, HasNoMark, HasNoDecision, StandBefore, Collects, IsAbove, IsStart, IsLocated, IsAnalysed};

use crate::clause::StepClause;
use crate::decided::Decided;
use crate::marks::{lower, mark, top};
use crate::minimise::covering_reason;
use crate::trail::Trail;
use ct_terms::Lit;
use std::alloc::{AllocError, Global};

/// What a conflict teaches.
#[derive(Drop)]
pub(crate) struct Analysis {
    /// The literals of the clause.
    pub(crate) lits: Vec<Lit>,
    /// The numbers of the steps by which it follows.
    pub(crate) hints: Vec<u64>,
    /// How many decisions are stored.
    pub(crate) keep: usize,
}

/// The clause that a conflict teaches while decisions stand.
pub(crate) fn analyse(
    alloc: Global,
    trail: &Trail,
    clauses: &[StepClause],
    conflict: usize,
) -> Result<Analysis, AllocError>
    requires within { All (λ c. All (λ l. l.term.0 < trail.now.room) c.literals) clauses.now }
    requires reasons { HaveReasons clauses.now trail.now.literals trail.now.reasons }
    requires conflict { IsFalseAt clauses.now trail.now.literals conflict }
    requires decided { 0 < length trail.now.decided }
    ensures analysed { IfOk result (λ a. IsAnalysed clauses.now trail.now.literals trail.now.decided a.lits.items a.hints.items a.keep) }
{
    let conflict = &clauses[conflict];
    let mut marks = vec![in alloc; false; trail.len()]?;
    let mut hints = Vec::new(alloc);
    let mut lits = Vec::new(alloc);
    let (start, unique) = locate(trail, clauses, conflict, &mut marks, &mut hints)?;
    lits.push(opposite(trail, unique))?;
    let above = collect(trail, clauses, &mut marks, &mut hints, &mut lits, start)?;
    let keep = decisions_before(trail.decided(), above);
    let first = trail.decided()[0].index;
    explain(trail, clauses, &mut marks, &mut hints, first)?;
    finish(&mut hints, conflict)?;
    Ok(Analysis { lits, hints, keep })
}

/// The hints by which the empty clause follows from a conflict while no decision stands.
pub(crate) fn refute(
    alloc: Global,
    trail: &Trail,
    clauses: &[StepClause],
    conflict: usize,
) -> Result<Vec<u64>, AllocError>
    requires within { All (λ c. All (λ l. l.term.0 < trail.now.room) c.literals) clauses.now }
    requires reasons { HaveReasons clauses.now trail.now.literals trail.now.reasons }
    requires conflict { IsFalseAt clauses.now trail.now.literals conflict }
    requires decided { trail.now.decided ≡ [] }
    ensures follows { IfOk result (λ hints. FollowsBy clauses.now hints.items []) }
{
    let conflict = &clauses[conflict];
    let mut marks = vec![in alloc; false; trail.len()]?;
    let mut hints = Vec::new(alloc);
    mark(trail, conflict.literals.as_slice(), &mut marks);
    explain(trail, clauses, &mut marks, &mut hints, trail.len())?;
    finish(&mut hints, conflict)?;
    Ok(hints)
}

// Puts the hints in the order of the trail, and the conflict last.
fn finish(hints: &mut Vec<u64>, conflict: &StepClause) -> Result<(), AllocError>
    ensures hints { OnOk result (hints.new.items ≡ reverse hints.old.items ++ conflict.now.step ∷ []) }
{
    hints.reverse();
    hints.push(conflict.step)?;
    Ok(())
}

// Goes down from the conflict to the one literal of its level that it needs. Answers where the level starts, and the
// index of that literal; where the conflict lies before the first decision, it is that decision.
fn locate(
    trail: &Trail,
    clauses: &[StepClause],
    conflict: &StepClause,
    marks: &mut Vec<bool>,
    hints: &mut Vec<u64>,
) -> Result<(usize, usize), AllocError>
    requires within { All (λ c. All (λ l. l.term.0 < trail.now.room) c.literals) clauses.now }
    requires reasons { HaveReasons clauses.now trail.now.literals trail.now.reasons }
    requires listed { Contains clauses.now conflict.now }
    requires conflict { AreFalseIn trail.now.literals conflict.now.literals }
    requires decided { 0 < length trail.now.decided }
    requires long { length marks.old.items ≡ length trail.now.literals }
    requires unmarked { HasNoMark marks.old.items 0 (length trail.now.literals) }
    requires begun { hints.old.items ≡ [] }
    ensures located { IfOk result (λ r. IsLocated clauses.now trail.now.literals trail.now.decided marks.new.items hints.new.items conflict.now.literals r.0 r.1) }
{
    let literals = conflict.literals.as_slice();
    mark(trail, literals, marks);
    let top = top(trail, literals);
    let start = start_of(trail.decided(), top);
    let bound = if top > start { top } else { start + 1 };
    let lowest = lower(trail, literals, start, bound - 1);
    let unique = walk(trail, clauses, marks, hints, start, bound, lowest)?;
    Ok((start, unique))
}

// Where the level starts that the index lies in or right after: at the last decision before it, or the first of all.
fn start_of(decided: &[Decided], index: usize) -> usize
    requires some { 0 < length decided.now }
    requires in_order { (i j : ℕ) (d e : Decided) → i < j → slice_get decided.now i ≡ Some d → slice_get decided.now j ≡ Some e → d.index < e.index }
    ensures start { IsStart decided.now result }
    ensures last { HasNoDecision decided.now (result + 1) index }
{
    let before = decisions_before(decided, index);
    if before == 0 {
        decided[0].index
    } else {
        decided[before - 1].index
    }
}

// How many decisions stand before the index.
fn decisions_before(decided: &[Decided], index: usize) -> usize
    requires in_order { (i j : ℕ) (d e : Decided) → i < j → slice_get decided.now i ≡ Some d → slice_get decided.now j ≡ Some e → d.index < e.index }
    ensures before { StandBefore decided.now index result }
{
    let mut before = 0;
    for d in decided {
        if d.index >= index {
            return before;
        }
        before += 1;
    }
    before
}

// Explains the marked literals down to the one that is left from `start` on, and answers its index.
fn walk(
    trail: &Trail,
    clauses: &[StepClause],
    marks: &mut Vec<bool>,
    hints: &mut Vec<u64>,
    start: usize,
    bound: usize,
    lowest: usize,
) -> Result<usize, AllocError>
    requires within { All (λ c. All (λ l. l.term.0 < trail.now.room) c.literals) clauses.now }
    requires reasons { HaveReasons clauses.now trail.now.literals trail.now.reasons }
    requires long { length marks.old.items ≡ length trail.now.literals }
    requires fits { bound ≤ length trail.now.literals }
    requires from { start ≤ lowest }
    requires below { lowest < bound }
    requires decisions { HasNoDecision trail.now.decided (start + 1) bound }
    requires unmarked { HasNoMark marks.old.items start lowest }
    ensures down { IfOk result (λ r. GoesDown clauses.now trail.now.literals marks.old.items hints.old.items bound marks.new.items hints.new.items (r + 1)) }
    ensures long { length marks.new.items ≡ length marks.old.items }
    ensures from { IfOk result (λ r. start ≤ r) }
    ensures below { IfOk result (λ r. r < bound) }
    ensures unmarked { IfOk result (λ r. HasNoMark marks.new.items start r) }
{
    let mut lowest = lowest;
    let mut index = bound;
    while index > lowest + 1 {
        index -= 1;
        lowest = explain_one(trail, clauses, marks, hints, index, start, lowest)?;
    }
    Ok(lowest)
}

// Explains all marked literals before an index before which no decision stands.
fn explain(
    trail: &Trail,
    clauses: &[StepClause],
    marks: &mut Vec<bool>,
    hints: &mut Vec<u64>,
    end: usize,
) -> Result<(), AllocError>
    requires within { All (λ c. All (λ l. l.term.0 < trail.now.room) c.literals) clauses.now }
    requires reasons { HaveReasons clauses.now trail.now.literals trail.now.reasons }
    requires long { length marks.old.items ≡ length trail.now.literals }
    requires fits { end ≤ length trail.now.literals }
    requires decisions { HasNoDecision trail.now.decided 0 end }
    ensures down { OnOk result (GoesDown clauses.now trail.now.literals marks.old.items hints.old.items end marks.new.items hints.new.items 0) }
{
    let mut index = end;
    while index > 0 {
        index -= 1;
        let _ = explain_one(trail, clauses, marks, hints, index, 0, 0)?;
    }
    Ok(())
}

// Explains the literal at the index, if it is marked, by its reason. Answers the lowest mark from `start` on, given that
// of before.
fn explain_one(
    trail: &Trail,
    clauses: &[StepClause],
    marks: &mut Vec<bool>,
    hints: &mut Vec<u64>,
    index: usize,
    start: usize,
    lowest: usize,
) -> Result<usize, AllocError>
    requires within { All (λ c. All (λ l. l.term.0 < trail.now.room) c.literals) clauses.now }
    requires reasons { HaveReasons clauses.now trail.now.literals trail.now.reasons }
    requires long { length marks.old.items ≡ length trail.now.literals }
    requires fits { index < length trail.now.literals }
    requires decisions { HasNoDecision trail.now.decided index (index + 1) }
    ensures down { OnOk result (GoesDown clauses.now trail.now.literals marks.old.items hints.old.items (index + 1) marks.new.items hints.new.items index) }
    ensures long { length marks.new.items ≡ length marks.old.items }
    ensures at_least { IfOk result (λ r. start ≤ lowest → start ≤ r) }
    ensures at_most { IfOk result (λ r. r ≤ lowest) }
    ensures unmarked { IfOk result (λ r. HasNoMark marks.old.items start lowest → HasNoMark marks.new.items start r) }
{
    if !marks[index] {
        return Ok(lowest);
    }
    let clause = reason_of(trail, clauses, index);
    hints.push(clause.step)?;
    mark(trail, clause.literals.as_slice(), marks);
    Ok(lower(trail, clause.literals.as_slice(), start, lowest))
}

// The clause that forced the literal at the index, which was not decided.
fn reason_of<'a>(trail: &Trail, clauses: &'a [StepClause], index: usize) -> &'a StepClause
    requires reasons { HaveReasons clauses.now trail.now.literals trail.now.reasons }
    requires fits { index < length trail.now.literals }
    requires decisions { HasNoDecision trail.now.decided index (index + 1) }
    ensures reason { IsReason clauses.now trail.now.literals index result.now }
    ensures whole { IsWhole trail.now }
{
    match trail.reason(index) {
        Some(clause) => &clauses[clause],
        None => unreachable!(),
    }
}

// Puts the opposites of the marked literals from the first decision up to `start` into the clause, or explains them, where
// others imply them. Answers an index before which those all stand that were put; 0 where there is none.
fn collect(
    trail: &Trail,
    clauses: &[StepClause],
    marks: &mut Vec<bool>,
    hints: &mut Vec<u64>,
    lits: &mut Vec<Lit>,
    start: usize,
) -> Result<usize, AllocError>
    requires within { All (λ c. All (λ l. l.term.0 < trail.now.room) c.literals) clauses.now }
    requires reasons { HaveReasons clauses.now trail.now.literals trail.now.reasons }
    requires long { length marks.old.items ≡ length trail.now.literals }
    requires start { IsStart trail.now.decided start }
    ensures leads { IfOk result (λ r. (conflict : Clause) (d : Decided) → slice_get trail.now.decided 0 ≡ Some d
        → Leads clauses.now trail.now.literals marks.old.items hints.old.items start lits.old.items conflict
        → Leads clauses.now trail.now.literals marks.new.items hints.new.items d.index lits.new.items conflict) }
    ensures long { length marks.new.items ≡ length marks.old.items }
    ensures above { IfOk result (λ r. r ≤ start) }
    ensures collects { IfOk result (λ r. Collects trail.now.literals r lits.old.items lits.new.items) }
{
    let first = trail.decided()[0].index;
    let mut above = 0;
    let mut index = start;
    while index > first {
        index -= 1;
        above = put_or_explain(trail, clauses, marks, hints, lits, index, first, above)?;
    }
    Ok(above)
}

// Puts the opposite of the literal at the index into the clause, if it is marked, or explains it, where others imply it.
fn put_or_explain(
    trail: &Trail,
    clauses: &[StepClause],
    marks: &mut Vec<bool>,
    hints: &mut Vec<u64>,
    lits: &mut Vec<Lit>,
    index: usize,
    first: usize,
    above: usize,
) -> Result<usize, AllocError>
    requires within { All (λ c. All (λ l. l.term.0 < trail.now.room) c.literals) clauses.now }
    requires reasons { HaveReasons clauses.now trail.now.literals trail.now.reasons }
    requires long { length marks.old.items ≡ length trail.now.literals }
    requires fits { index < length trail.now.literals }
    ensures leads { OnOk result ((conflict : Clause)
        → Leads clauses.now trail.now.literals marks.old.items hints.old.items (index + 1) lits.old.items conflict
        → Leads clauses.now trail.now.literals marks.new.items hints.new.items index lits.new.items conflict) }
    ensures long { length marks.new.items ≡ length marks.old.items }
    ensures above { IfOk result (λ r. (start : ℕ) → index < start → IsAbove (index + 1) above start → IsAbove index r start) }
    ensures collects { IfOk result (λ r. (start : ℕ) (older : Clause) → IsAbove (index + 1) above start
        → Collects trail.now.literals above older lits.old.items → Collects trail.now.literals r older lits.new.items) }
{
    match covering_reason(trail, clauses, marks, index, first) {
        Some(reason) => {
            explain_by(trail, clauses, marks, hints, index, reason)?;
            Ok(above)
        }
        None => {
            let above = put_marked(trail, marks, lits, index, above)?;
            Ok(above)
        }
    }
}

// Explains the literal at the index by its reason, which is the clause with this index.
fn explain_by(
    trail: &Trail,
    clauses: &[StepClause],
    marks: &mut Vec<bool>,
    hints: &mut Vec<u64>,
    index: usize,
    reason: usize,
) -> Result<(), AllocError>
    requires within { All (λ c. All (λ l. l.term.0 < trail.now.room) c.literals) clauses.now }
    requires long { length marks.old.items ≡ length trail.now.literals }
    requires reason { (c : StepClause) × (slice_get clauses.now reason ≡ Some c) × IsReason clauses.now trail.now.literals index c }
    ensures down { OnOk result (GoesDown clauses.now trail.now.literals marks.old.items hints.old.items (index + 1) marks.new.items hints.new.items index) }
    ensures long { length marks.new.items ≡ length marks.old.items }
{
    let _count = trail.len();
    let clause = &clauses[reason];
    hints.push(clause.step)?;
    mark(trail, clause.literals.as_slice(), marks);
    Ok(())
}

// Puts the opposite of the literal at the index into the clause, if it is marked.
fn put_marked(
    trail: &Trail,
    marks: &Vec<bool>,
    lits: &mut Vec<Lit>,
    index: usize,
    above: usize,
) -> Result<usize, AllocError>
    requires long { length marks.now.items ≡ length trail.now.literals }
    requires fits { index < length trail.now.literals }
    ensures leads { OnOk result ((clauses : List StepClause) (hints : List ℕ) (conflict : Clause)
        → Leads clauses trail.now.literals marks.now.items hints (index + 1) lits.old.items conflict
        → Leads clauses trail.now.literals marks.now.items hints index lits.new.items conflict) }
    ensures above { IfOk result (λ r. (start : ℕ) → index < start → IsAbove (index + 1) above start → IsAbove index r start) }
    ensures collects { IfOk result (λ r. (start : ℕ) (older : Clause) → IsAbove (index + 1) above start
        → Collects trail.now.literals above older lits.old.items → Collects trail.now.literals r older lits.new.items) }
{
    if !marks[index] {
        return Ok(above);
    }
    lits.push(opposite(trail, index))?;
    Ok(if above == 0 { index + 1 } else { above })
}

/// The opposite of the literal at the index.
pub(crate) fn opposite(trail: &Trail, index: usize) -> Lit
    requires fits { index < length trail.now.literals }
    ensures value { (l : Lit) × (slice_get trail.now.literals index ≡ Some l) × (result ≡ negated l) }
    ensures whole { IsWhole trail.now }
{
    let l = trail.literals()[index];
    Lit {
        term: l.term,
        positive: !l.positive,
    }
}
