//! Finds the lines that are cited.
//!
//! A line names earlier lines alone: so one pass from the last line to the first, in which each line that is marked marks those
//! that it names, marks them all.
ghost use Rattle.std.specs.Prelude.{◌≡◌, ◌↔◌, ◌<◌, ◌⊎◌, ◌-◌, suc, ℕ, length, All, Contains, IfOk, IsTrue, Some, slice_get};
ghost use Rattle.ct_log.specs.declared.line.Line.{Line};
ghost use Rattle.ct_core.specs.Cited.{hints_of};
ghost use Rattle.ct_core.specs.Sweep.{NameEarlier, IsMarked, MarksToo, IsFirst, AreMarks};

use crate::error::CoreError;
use ct_log::{Line, Step};
use std::alloc::Global;

/// A mark for each number up to that of the last line, which says whether the line is cited. The time is linear in the lines
/// and their hints.
pub(crate) fn cited_marks(alloc: Global, lines: &[Line], kept: u64) -> Result<Vec<bool>, CoreError>
    requires earlier { NameEarlier lines.now }
    ensures marks { IfOk result (λ marks. AreMarks kept lines.now marks.items) }
{
    let mut marks = first_marks(alloc, lines.len(), kept)?;
    for i in 0..lines.len() {
        mark_named(lines, lines.len() - 1 - i, &mut marks);
    }
    Ok(marks)
}

// The marks of the first lines and of the last one.
fn first_marks(alloc: Global, count: usize, kept: u64) -> Result<Vec<bool>, CoreError>
    requires bound { count < 18446744073709551615 }
    ensures long { IfOk result (λ marks. length marks.items ≡ suc count) }
    ensures first { IfOk result (λ marks. (number : ℕ) → IsMarked marks.items number ↔ IsFirst kept count number) }
{
    let mut marks = Vec::new(alloc);
    for number in 0..count + 1 {
        marks.push(is_first(number, count, kept))?;
    }
    Ok(marks)
}

// Whether the line with this number, of so many, is one of the first, or the last.
fn is_first(number: usize, count: usize, kept: u64) -> bool
    ensures first { IsTrue result ↔ IsFirst kept count number }
{
    number > 0 && number <= count && (number as u64 <= kept || number == count)
}

// Marks what the line at this index names, where the line is marked.
fn mark_named(lines: &[Line], index: usize, marks: &mut Vec<bool>)
    requires within { index < length lines.now }
    requires long { length marks.old.items ≡ suc (length lines.now) }
    requires earlier { NameEarlier lines.now }
    ensures long { length marks.new.items ≡ suc (length lines.now) }
    ensures stays { (n : ℕ) → IsMarked marks.old.items n → IsMarked marks.new.items n }
    ensures named { (line : Line) → slice_get lines.now index ≡ Some line → IsMarked marks.old.items (suc index)
        → All (IsMarked marks.new.items) (hints_of line.step) }
    ensures only { (n : ℕ) → IsMarked marks.new.items n → IsMarked marks.old.items n
        ⊎ ((line : Line) × (slice_get lines.now index ≡ Some line) × IsMarked marks.old.items (suc index) × Contains (hints_of line.step) n) }
{
    if !marks[index + 1] {
        return;
    }
    mark_hints(&lines[index], marks);
}

// Marks what the line names.
fn mark_hints(line: &Line, marks: &mut Vec<bool>)
    requires within { All (λ n. n < length marks.old.items) (hints_of line.now.step) }
    ensures marked { MarksToo marks.old.items marks.new.items (hints_of line.now.step) }
{
    match &line.step {
        Step::Input(_) => {}
        Step::Gate(_, _, _) => {}
        Step::Exhaust(_) => {}
        Step::Theory(_, _) => {}
        Step::Learn(hints) => mark(marks, hints.as_slice()),
    }
}

// Marks these numbers.
fn mark(marks: &mut Vec<bool>, numbers: &[u64])
    requires within { All (λ n. n < length marks.old.items) numbers.now }
    ensures marked { MarksToo marks.old.items marks.new.items numbers.now }
{
    for number in numbers {
        mark_one(marks, *number);
    }
}

/// Marks this number.
pub(crate) fn mark_one(marks: &mut Vec<bool>, number: u64)
    requires within { number < length marks.old.items }
    ensures long { length marks.new.items ≡ length marks.old.items }
    ensures stays { (n : ℕ) → IsMarked marks.old.items n → IsMarked marks.new.items n }
    ensures marked { IsMarked marks.new.items number }
    ensures only { (n : ℕ) → IsMarked marks.new.items n → IsMarked marks.old.items n ⊎ (number ≡ n) }
{
    marks[number as usize] = true;
}
