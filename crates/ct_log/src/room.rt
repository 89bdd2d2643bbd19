//! The working memory with which lines are judged.
ghost use Rattle.std.specs.Prelude.{◌≡◌, ◌≤◌, ◌*◌, ℕ, Some, IfOk, IfErr, slice_get};
ghost use Rattle.ct_log.specs.declared.line.Line.{Line};
ghost use Rattle.ct_log.specs.Rooms.{IsRoomOf, IsEnoughFor};

use crate::error::LogError;
use crate::line::{Line, Step};
use crate::lines::Record;
use crate::marks::Marks;
use crate::places::Places;
use ct_rules::Equation;
use std::alloc::Global;
use std::marker::Model;

/// Working memory for the lines of one record: a mark for each literal, and an equation for each step of the longest line
/// of the theory. Nothing of it is cleared between lines. It also knows where assertions stand, so that each of them is gone
/// over once, in whatever order the inputs come.
#[derive(Drop)]
pub struct Room {
    pub(crate) marks: Marks,
    pub(crate) given: Vec<Equation>,
    pub(crate) asserted: Places,
}

impl Model for Room {
    ghost use Rattle.std.specs.Prelude.{length, vec_capacity};
    ghost use Rattle.ct_log.specs.Rooms.{Space};

    ghost Value = { Space };

    ghost view = { λ r. record { literals = length r.marks.stamps; equations = vec_capacity r.given; others = r.marks.room } };
}

impl Room {
    /// Room for the lines of this record. Its only error is out of memory.
    pub fn new(alloc: Global, rec: &Record) -> Result<Room, LogError>
        ensures room { IfOk result (λ room. IsRoomOf room rec.now.terms rec.now.lines) }
        ensures err { IfErr result (λ e. e ≡ LogError.NoMemory) }
    {
        let size = longest(rec.lines());
        let room = Room::with(alloc, rec.table().len(), size)?;
        Ok(room)
    }

    /// Room for this number of terms, and for lines of the theory of this many steps and learned ones of this many hints. Its
    /// only error is out of memory.
    pub fn with(alloc: Global, terms: u32, size: usize) -> Result<Room, LogError>
        ensures room { IfOk result (λ room. room ≡ record { literals = terms * 2; equations = size; others = size }) }
        ensures err { IfErr result (λ e. e ≡ LogError.NoMemory) }
    {
        Ok(Room {
            marks: Marks::new(alloc, terms, size)?,
            given: Vec::with_capacity(alloc, size)?,
            asserted: Places::new(alloc, terms)?,
        })
    }
}

// How many equations or hints the longest of the lines has.
fn longest(lines: &[Line]) -> usize
    ensures each { (index : ℕ) (line : Line) → slice_get lines.now index ≡ Some line → IsEnoughFor result line.step }
{
    let mut most = 0;
    for line in lines {
        most = larger(most, size_of(line));
    }
    most
}

// The larger number.
fn larger(a: usize, b: usize) -> usize
    ensures left { a ≤ result }
    ensures right { b ≤ result }
{
    if a < b { b } else { a }
}

/// How many equations or hints the line has.
pub(crate) fn size_of(line: &Line) -> usize
    ensures size { IsEnoughFor result line.now.step }
{
    match &line.step {
        Step::Input(_) => 0,
        Step::Gate(_, _, _) => 0,
        Step::Exhaust(_) => 0,
        Step::Theory(steps, _) => steps.len(),
        Step::Learn(hints) => hints.len(),
    }
}
