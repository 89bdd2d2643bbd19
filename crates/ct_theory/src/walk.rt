//! A walk over classes of datatypes that notices whether one is under itself. It is a heuristic about which nothing is claimed.
ghost use Rattle.std.specs.Prelude.{◌<◌, length};
ghost use Rattle.std.specs.Bool.{OnTrue};

use crate::error::TheoryError;
use ct_congr::Classes;
use ct_terms::{Core, TermId};
use std::alloc::Global;

// A walk of more steps is given up, as if a class lay under itself.
const STEPS: u32 = 4_000_000;

/// What walks keep: for each term a mark, which says whether the present walk has met its class.
#[derive(Drop)]
pub(crate) struct Walk {
    marks: Vec<u64>,
    // The mark of classes under which the walk is. That of those that it is done with is one more.
    under: u64,
    // Classes under which the walk is, with their constructor terms and how many arguments of these are left. A class without a
    // constructor term has nothing below, so the walk is done with it as soon as it meets it.
    stack: Vec<(TermId, TermId, usize)>,
}

impl Walk {
    /// No walk over so many terms.
    pub(crate) fn new(alloc: Global, terms: u32) -> Result<Walk, TheoryError> {
        Ok(Walk {
            marks: vec![in alloc; 0; terms as usize]?,
            under: 1,
            stack: Vec::new(alloc),
        })
    }

    /// Forgets which classes were met.
    pub(crate) fn begin(&mut self) {
        self.stack.clear();
        if self.under < u64::MAX - 2 {
            self.under += 2;
        }
    }

    // The mark of classes that the walk is done with.
    fn done(&self) -> u64 {
        self.under.saturating_add(1)
    }

    fn mark(&self, t: TermId) -> u64 {
        match self.marks.get(t.0 as usize) {
            Some(mark) => *mark,
            None => 0,
        }
    }

    fn set(&mut self, t: TermId, mark: u64) {
        let place = t.0 as usize;
        if place < self.marks.len() {
            self.marks[place] = mark;
        }
    }
}

// What a step came to.
#[derive(Clone, Copy)]
enum Step {
    // A class lies under itself.
    Round,
    // All classes were met.
    Done,
    // There is more.
    On,
}

/// Whether the walk from the term's class comes to a class under which it is already, or is given up.
pub(crate) fn goes_round(
    classes: &Classes,
    walk: &mut Walk,
    t: TermId,
) -> Result<bool, TheoryError> {
    match meet(classes, walk, t)? {
        Step::Round => return Ok(true),
        _ => {}
    }
    for _ in 0..STEPS {
        match advance(classes, walk)? {
            Step::Round => return Ok(true),
            Step::Done => return Ok(false),
            Step::On => {}
        }
    }
    Ok(true)
}

// Goes to the next argument of the last class under which the walk is.
fn advance(classes: &Classes, walk: &mut Walk) -> Result<Step, TheoryError> {
    let Some((class, con, left)) = walk.stack.pop() else {
        return Ok(Step::Done);
    };
    if left == 0 {
        let done = walk.done();
        walk.set(class, done);
        return Ok(Step::On);
    }
    walk.stack.push((class, con, left - 1))?;
    match argument(classes, con, left - 1) {
        Some(child) => meet(classes, walk, child),
        None => Ok(Step::On),
    }
}

// Comes to the term's class.
fn meet(classes: &Classes, walk: &mut Walk, t: TermId) -> Result<Step, TheoryError> {
    if !is_term(classes, t) {
        return Ok(Step::On);
    }
    let class = classes.rep(t);
    let mark = walk.mark(class);
    if mark == walk.under {
        return Ok(Step::Round);
    }
    if mark > walk.under {
        return Ok(Step::On);
    }
    let Some(con) = classes.con_of(t) else {
        let done = walk.done();
        walk.set(class, done);
        return Ok(Step::On);
    };
    walk.set(class, walk.under);
    walk.stack.push((class, con, arguments(classes, con)))?;
    Ok(Step::On)
}

// How many arguments the constructor term has.
fn arguments(classes: &Classes, con: TermId) -> usize {
    if !is_term(classes, con) {
        return 0;
    }
    match classes.table().core(con) {
        Core::Con(_, args) => args.as_slice().len(),
        _ => 0,
    }
}

// The argument of the constructor term at this place.
fn argument(classes: &Classes, con: TermId, place: usize) -> Option<TermId> {
    if !is_term(classes, con) {
        return None;
    }
    match classes.table().core(con) {
        Core::Con(_, args) => args.as_slice().get(place).copied(),
        _ => None,
    }
}

// Whether the classes have such a term.
fn is_term(classes: &Classes, t: TermId) -> bool
    ensures inside { OnTrue result (t.0 < length classes.now.terms) }
{
    t.0 < classes.table().len()
}
