//! Trims a derivation to the lines on which its last line rests.
ghost use Rattle.std.specs.Prelude.{◌≡◌, ◌<◌, ◌≤◌, ℕ, suc, [], ◌∷◌, ◌++◌, List, length, All, IfOk, OnOk};
ghost use Rattle.ct_terms.specs.declared.ids.TermId.{TermId};
ghost use Rattle.ct_log.specs.Acceptance.{IsAccepted, AreAccepted, Passes, clauses_of};
ghost use Rattle.ct_core.specs.Cited.{hints_of};
ghost use Rattle.ct_core.specs.Trimmed.{IsTrimmed, renumbered};
ghost use Rattle.ct_core.specs.Sweep.{IsMarked, AreClosedMarks, HaveInputs, IsCopied, NameEarlier, place_in};

use crate::error::CoreError;
use crate::renumbering::{places_of, renumber_line};
use crate::sweep::cited_marks;
use ct_log::{Derivation, Line};
use std::alloc::Global;

/// Trims the derivation to the lines that are cited: the first ones, as many as given, the last one, and what these
/// rest on (as drat-trim does it; Heule, Hunt and Wetzler 2013). The lines are renumbered with their hints. The time is
/// linear in the lines, and neither terms nor declarations are copied.
///
/// Gives how many of the lines up to the number `counted` are left. Its only error is out of memory, after which the derivation
/// holds some of the lines and is of no further use.
pub fn trim(
    alloc: Global,
    derivation: &mut Derivation,
    kept: u64,
    counted: usize,
) -> Result<usize, CoreError>
    // The lines are exactly those that are cited, in order.
    ensures trimmed { OnOk result (IsTrimmed kept derivation.old.rec.lines derivation.new.rec.lines) }

    // Nothing else of the derivation changes.
    ensures others { OnOk result (derivation.new ≡ record derivation.old { rec = record derivation.old.rec { lines = derivation.new.rec.lines } }) }

    // Where it passed, it passes.
    ensures passes { OnOk result (Passes derivation.old.declarations derivation.old.rec.terms derivation.old.asserts derivation.old.rec.lines
        → Passes derivation.old.declarations derivation.old.rec.terms derivation.old.asserts derivation.new.rec.lines) }

    // Those that are counted are among them.
    ensures within { IfOk result (λ count. count ≤ length derivation.new.rec.lines) }
{
    let marks = cited_marks(alloc, derivation.rec().lines(), kept)?;
    let lines = derivation.take_lines(alloc);
    put_back(alloc, lines, marks.as_slice(), derivation)?;
    let count = set_marks(marks.as_slice(), counted);
    let rec = derivation.rec();
    Ok(least(count, rec.lines().len()))
}

// How many of the marks of the first numbers are set, up to this one.
fn set_marks(marks: &[bool], last: usize) -> usize {
    let mut count = 0;
    for index in 0..marks.len() {
        if marks[index] && index <= last && count <= index {
            count += 1;
        }
    }
    count
}

// The lesser one.
fn least(a: usize, b: usize) -> usize
    ensures within { result ≤ b }
{
    if a < b { a } else { b }
}

// Adds the lines that are marked, each with its hints renumbered, to a derivation that has none.
fn put_back(
    alloc: Global,
    lines: Vec<Line>,
    marks: &[bool],
    derivation: &mut Derivation,
) -> Result<(), CoreError>
    requires begun { derivation.old.rec.lines ≡ [] }
    requires long { length marks.now ≡ suc (length lines.items) }
    requires positive { IsMarked marks.now 0 → ⊥ }
    requires closed { AreClosedMarks marks.now lines.items }
    requires earlier { NameEarlier lines.items }
    requires inputs { HaveInputs marks.now lines.items derivation.old.asserts }
    requires accepted { (asserts : List TermId) × AreAccepted derivation.old.declarations derivation.old.rec.terms asserts lines.items }
    ensures copied { OnOk result ((places : List ℕ) × IsCopied (length lines.items) marks.now places lines.items derivation.new.rec.lines) }
    ensures others { OnOk result (derivation.new ≡ record derivation.old { rec = record derivation.old.rec { lines = derivation.new.rec.lines } }) }
{
    let places = places_of(alloc, marks)?;
    let mut number = 0;
    for line in lines {
        number += 1;
        put_next(alloc, line, number, marks, places.as_slice(), derivation)?;
    }
    Ok(())
}

/// Adds the line with this number, where it is marked.
pub(crate) fn put_next(
    alloc: Global,
    line: Line,
    number: usize,
    marks: &[bool],
    places: &[u64],
    derivation: &mut Derivation,
) -> Result<(), CoreError>
    requires within { number < length marks.now }
    requires named { All (λ hint. hint < length places.now) (hints_of line.step) }
    requires accepted { IsMarked marks.now number → IsAccepted derivation.old.declarations derivation.old.rec.terms derivation.old.asserts (clauses_of derivation.old.rec.lines) (renumbered (place_in places.now) line) }
    ensures put { IsMarked marks.now number → OnOk result (derivation.new.rec.lines ≡ derivation.old.rec.lines ++ renumbered (place_in places.now) line ∷ []) }
    ensures skipped { (IsMarked marks.now number → ⊥) → OnOk result (derivation.new.rec.lines ≡ derivation.old.rec.lines) }
    ensures others { OnOk result (derivation.new ≡ record derivation.old { rec = record derivation.old.rec { lines = derivation.new.rec.lines } }) }
{
    if !marks[number] {
        drop(line);
        return Ok(());
    }
    let new = renumber_line(alloc, line, places)?;
    derivation.push(new)?;
    Ok(())
}
