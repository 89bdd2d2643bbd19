//! The heuristics of a guided search: the activity and the last value of each variable, when to restart, and which clauses to
//! keep (Moskewicz et al. 2001; Eén and Sörensson 2003; Audemard and Simon 2009). Nothing that is proved rests on them.

use crate::luby::Luby;
use crate::queue::{Queue, number_of, read, write};
use ct_log::Line;
use ct_terms::{Lit, TermId};
use std::alloc::{AllocError, Global};

// Clauses with so few levels are always kept.
const FEW: u32 = 2;

// How many conflicts a round is to have, by how many each has more than the one before, how many decisions it has at least, and
// at most, beside two for each variable.
const ROUND_CONFLICTS: u64 = 2000;

const MORE_CONFLICTS: u64 = 300;

const LEAST: u64 = 3000;

const MOST: u64 = 100_000;

// The highest number of levels that is told apart.
const MANY: u32 = 255;

/// A taught line: its number, and how many decision levels its clause had.
#[derive(Clone, Copy, Debug)]
pub(crate) struct Taught {
    /// The number of the line, from 1.
    pub(crate) number: u64,
    /// The levels of its clause when it was learned.
    pub(crate) levels: u32,
}

/// The state of the heuristics. Variables are named by their places in the order of their numbers.
#[derive(Drop)]
pub(crate) struct Guide {
    // For each term the place of its variable, or a number past all.
    places: Vec<u32>,
    queue: Queue,
    // For each place the value that it had last.
    phases: Vec<bool>,
    // For each place the decision level at which it got its value.
    levels: Vec<u32>,
    // The places of the trail, in order, in the first so many elements.
    trail: Vec<u32>,
    followed: usize,
    // How many decisions stand.
    level: u32,
    // For each place, or level, when it was seen last.
    seen: Vec<u64>,
    seen_levels: Vec<u64>,
    clock: u64,
    luby: Luby,
    taught: Vec<Taught>,
    // The conflicts of this round, how many decisions it may make, and how many rounds there were.
    conflicts: u64,
    length: u64,
    rounds: u64,
}

impl Guide {
    /// A guide of a search without variables.
    pub(crate) fn empty(alloc: Global) -> Result<Guide, AllocError> {
        Guide::new(alloc, 0, &[])
    }

    /// The start, for a search over these variables, of a table of so many terms.
    pub(crate) fn new(
        alloc: Global,
        terms: usize,
        variables: &[TermId],
    ) -> Result<Guide, AllocError> {
        let count = variables.len();
        let mut places = vec![in alloc; u32::MAX; terms]?;
        for place in 0..count {
            write(&mut places, variables[place].0, number_of(place));
        }
        Ok(Guide {
            places,
            queue: Queue::new(alloc, count)?,
            phases: vec![in alloc; false; count]?,
            levels: vec![in alloc; 0u32; count]?,
            trail: vec![in alloc; 0u32; count]?,
            followed: 0,
            level: 0,
            seen: vec![in alloc; 0u64; count]?,
            seen_levels: vec![in alloc; 0u64; count]?,
            clock: 0,
            luby: Luby::new(),
            taught: Vec::new(alloc),
            conflicts: 0,
            length: 0,
            rounds: 0,
        })
    }

    /// Takes the lines from this index on for taught ones, the shorter the better.
    pub(crate) fn take_lines(&mut self, lines: &[Line], from: usize) -> Result<(), AllocError> {
        for index in from..lines.len() {
            let length = lines[index].clause.as_slice().len();
            let levels = number_of(length).min(MANY);
            self.taught.push(Taught {
                number: index as u64 + 1,
                levels,
            })?;
        }
        Ok(())
    }

    /// How many of so many decisions the next round may make: enough for some thousand conflicts, if they come as often as in
    /// the last one. It may be as long as to give every variable a value twice over.
    pub(crate) fn round(&mut self, left: u64) -> u64 {
        let variables = self.phases.len() as u64;
        let most = MOST.saturating_add(variables.saturating_mul(2));
        let wanted = ROUND_CONFLICTS.saturating_add(self.rounds.saturating_mul(MORE_CONFLICTS));
        let enough = self.length.saturating_mul(wanted) / self.conflicts.saturating_add(1);
        self.conflicts = 0;
        self.rounds = self.rounds.saturating_add(1);
        let length = enough.max(LEAST).min(most).min(left);
        self.length = length;
        length
    }

    /// Forgets half of the taught lines that have more than a few levels, those with the most. Gives the numbers of the others.
    pub(crate) fn keep_lines(&mut self, alloc: Global) -> Result<Vec<u64>, AllocError> {
        let counts = self.count_by_levels(alloc)?;
        let (bound, mut skip) = half_of(&counts);
        let mut kept = Vec::new(alloc);
        let mut numbers = Vec::new(alloc);
        for taught in self.taught.iter() {
            let drops = taught.levels == bound && skip > 0;
            if drops {
                skip = skip.saturating_sub(1);
            }
            if taught.levels <= FEW || (taught.levels <= bound && !drops) {
                kept.push(*taught)?;
                numbers.push(taught.number)?;
            }
        }
        self.taught = kept;
        self.luby = Luby::new();
        self.go_back(0, 0);
        Ok(numbers)
    }

    // How many taught lines have so many levels, where they are more than a few.
    fn count_by_levels(&self, alloc: Global) -> Result<Vec<u32>, AllocError> {
        let mut counts = vec![in alloc; 0u32; MANY as usize + 1]?;
        for taught in self.taught.iter() {
            if taught.levels > FEW {
                let count = read(&counts, taught.levels);
                write(&mut counts, taught.levels, count.saturating_add(1));
            }
        }
        Ok(counts)
    }

    /// Follows the trail to its end.
    pub(crate) fn follow(&mut self, trail: &[Lit]) {
        if self.phases.is_empty() {
            return;
        }
        for index in self.followed..trail.len() {
            let literal = trail[index];
            let place = read(&self.places, literal.term.0);
            write(&mut self.trail, number_of(index), place);
            write(&mut self.levels, place, self.level);
            let at = place as usize;
            if at < self.phases.len() {
                self.phases[at] = literal.positive;
            }
        }
        self.followed = trail.len();
    }

    /// The place of the variable that is to be decided next; none where none waits.
    pub(crate) fn next(&mut self) -> Option<u32> {
        self.queue.pop()
    }

    /// The value that the variable at this place had last.
    pub(crate) fn phase(&self, place: u32) -> bool {
        let at = place as usize;
        if at < self.phases.len() {
            self.phases[at]
        } else {
            false
        }
    }

    /// Counts a decision.
    pub(crate) fn note_decision(&mut self) {
        self.level = self.level.saturating_add(1);
    }

    /// Notes a learned clause, with the lines that are its hints.
    pub(crate) fn note_learned(
        &mut self,
        number: u64,
        lits: &[Lit],
        hints: &[u64],
        lines: &[Line],
    ) -> Result<(), AllocError> {
        if self.phases.is_empty() {
            return Ok(());
        }
        let levels = self.count_levels(lits);
        self.taught.push(Taught { number, levels })?;
        self.clock = self.clock.saturating_add(1);
        for hint in hints {
            if *hint > 0 && *hint <= lines.len() as u64 {
                self.bump(lines[(*hint - 1) as usize].clause.as_slice());
            }
        }
        self.queue.decay();
        self.luby.count();
        self.conflicts = self.conflicts.saturating_add(1);
        Ok(())
    }

    /// Notes that so many decisions are kept, and so many literals of the trail.
    pub(crate) fn go_back(&mut self, keep: u32, length: usize) {
        self.level = keep;
        let end = self.followed;
        for index in length..end {
            let place = read(&self.trail, number_of(index));
            self.queue.insert(place);
        }
        self.followed = end.min(length);
    }

    /// Whether it is time to take back all decisions.
    pub(crate) fn is_restart_due(&self) -> bool {
        self.luby.is_due()
    }

    /// Goes on after a restart.
    pub(crate) fn note_restart(&mut self) {
        self.luby.advance();
    }

    // How many decision levels the literals have.
    fn count_levels(&mut self, lits: &[Lit]) -> u32 {
        self.clock = self.clock.saturating_add(1);
        let mut count: u32 = 0;
        for literal in lits {
            let place = read(&self.places, literal.term.0);
            let level = read(&self.levels, place);
            if is_new(&mut self.seen_levels, level, self.clock) {
                count = count.saturating_add(1);
            }
        }
        count.min(MANY)
    }

    // Raises the activity of the clause's variables that were not seen since the clock went on, and have a level.
    fn bump(&mut self, clause: &[Lit]) {
        for literal in clause {
            let place = read(&self.places, literal.term.0);
            if read(&self.levels, place) > 0 && is_new(&mut self.seen, place, self.clock) {
                self.queue.bump(place);
            }
        }
    }
}

// Whether the number at this place is not that of the clock, which is written there.
fn is_new(seen: &mut Vec<u64>, place: u32, clock: u64) -> bool {
    let at = place as usize;
    if at >= seen.len() {
        return false;
    }
    let before = seen[at];
    seen[at] = clock;
    before != clock
}

// Up to how many levels half of the lines have, where so many have each number; and how many of those with that number are to be
// left out.
fn half_of(counts: &Vec<u32>) -> (u32, u32) {
    let mut all: u32 = 0;
    for levels in 0..MANY + 1 {
        all = all.saturating_add(read(counts, levels));
    }
    let half = all / 2;
    let mut below: u32 = 0;
    for levels in 0..MANY + 1 {
        let count = read(counts, levels);
        let with = below.saturating_add(count);
        if with > half {
            return (levels, with.saturating_sub(half));
        }
        below = with;
    }
    (MANY, 0)
}
