//! The numbers of lines after others are removed, and lines with renumbered hints.
ghost use Rattle.std.specs.Prelude.{◌≡◌, ◌<◌, length, map, All, IfOk};
ghost use Rattle.ct_core.specs.Cited.{hints_of};
ghost use Rattle.ct_core.specs.Trimmed.{renumbered, renumbered_step};
ghost use Rattle.ct_core.specs.Sweep.{ArePlaces, place_in, bit};

use crate::error::CoreError;
use ct_log::{Line, Step};
use ct_sorts::Items;
use std::alloc::Global;

/// For each number how many marks are set up to it: the number of its line among those that are marked.
pub(crate) fn places_of(alloc: Global, marks: &[bool]) -> Result<Vec<u64>, CoreError>
    ensures places { IfOk result (λ places. ArePlaces marks.now places.items) }
{
    let mut places = Vec::new(alloc);
    let mut place = 0;
    for mark in marks {
        place += bit_of(*mark);
        places.push(place)?;
    }
    Ok(places)
}

// What the mark adds to the number of marks.
fn bit_of(mark: bool) -> u64
    ensures value { result ≡ bit mark }
{
    if mark { 1 } else { 0 }
}

/// The line with its hints renumbered.
pub(crate) fn renumber_line(alloc: Global, line: Line, places: &[u64]) -> Result<Line, CoreError>
    requires within { All (λ hint. hint < length places.now) (hints_of line.step) }
    ensures value { IfOk result (λ new. new ≡ renumbered (place_in places.now) line) }
{
    let step = renumber_step(alloc, line.step, places)?;
    Ok(Line {
        clause: line.clause,
        step,
    })
}

// The step with its hints renumbered.
fn renumber_step(alloc: Global, step: Step, places: &[u64]) -> Result<Step, CoreError>
    requires within { All (λ hint. hint < length places.now) (hints_of step) }
    ensures value { IfOk result (λ new. new ≡ renumbered_step (place_in places.now) step) }
{
    match step {
        Step::Input(t) => Ok(Step::Input(t)),
        Step::Gate(gate, t, place) => Ok(Step::Gate(gate, t, place)),
        Step::Exhaust(t) => Ok(Step::Exhaust(t)),
        Step::Theory(steps, close) => Ok(Step::Theory(steps, close)),
        Step::Learn(hints) => {
            let renumbered = renumber_hints(alloc, hints.as_slice(), places)?;
            Ok(Step::Learn(Items::new(renumbered)))
        }
    }
}

// The numbers that these lines have among those that are marked.
fn renumber_hints(alloc: Global, hints: &[u64], places: &[u64]) -> Result<Vec<u64>, CoreError>
    requires within { All (λ hint. hint < length places.now) hints.now }
    ensures value { IfOk result (λ renumbered. renumbered.items ≡ map (place_in places.now) hints.now) }
{
    let mut renumbered = Vec::with_capacity(alloc, hints.len())?;
    for hint in hints {
        renumbered.push(place_at(places, *hint))?;
    }
    Ok(renumbered)
}

// The number that the line has among those that are marked.
fn place_at(places: &[u64], number: u64) -> u64
    requires within { number < length places.now }
    ensures value { result ≡ place_in places.now number }
{
    places[number as usize]
}
