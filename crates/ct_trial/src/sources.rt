//! Which terms new assertions give a value: a term that is equated with another one, or asserted.
ghost use Rattle.std.specs.Prelude.{◌<◌, All, length};

use crate::error::TrialError;
use ct_terms::{Core, TermId, TermTable};
use std::alloc::Global;

/// The numbers of `true` and `false` in each table.
const TRUE: TermId = TermId(0);

const FALSE: TermId = TermId(1);

/// For terms from a number on, a term whose value they should have.
#[derive(Debug, Drop)]
pub(crate) struct Sources {
    first: u32,
    list: Vec<Option<TermId>>,
}

impl Sources {
    /// The sources that these assertions give to the terms of the table from this number on.
    pub(crate) fn new(
        alloc: Global,
        table: &TermTable,
        first: u32,
        asserts: &[TermId],
    ) -> Result<Sources, TrialError>
        requires within { All (λ t. t.0 < length table.now) asserts.now }
    {
        let mut list = Vec::new(alloc);
        for _ in first..table.len() {
            list.push(None)?;
        }
        let mut sources = Sources { first, list };
        for a in asserts {
            if a.0 >= first {
                sources.read(table, *a);
            }
        }
        Ok(sources)
    }

    /// The source of the term, if it has one.
    pub(crate) fn of(&self, t: TermId) -> Option<TermId> {
        if t.0 < self.first {
            return None;
        }
        match self.list.get((t.0 - self.first) as usize) {
            Some(source) => *source,
            None => None,
        }
    }

    // Reads an assertion, or each part of it where it is a conjunction.
    fn read(&mut self, table: &TermTable, a: TermId)
        requires within { a.0 < length table.now }
    {
        match table.core(a) {
            Core::And(parts) => self.read_parts(table, parts.as_slice()),
            _ => self.read_part(table, a),
        }
    }

    // Reads the parts of a conjunction.
    fn read_parts(&mut self, table: &TermTable, parts: &[TermId]) {
        for part in parts {
            if part.0 < table.len() {
                self.read_part(table, *part);
            }
        }
    }

    // Reads an assertion.
    fn read_part(&mut self, table: &TermTable, a: TermId)
        requires within { a.0 < length table.now }
    {
        match table.core(a) {
            Core::Apply(_, _) => self.put(a, TRUE),
            Core::Not(b) => self.put(*b, FALSE),
            Core::Eq(x, y) => self.equate(table, *x, *y),
            Core::Iff(x, y) => self.equate(table, *x, *y),
            _ => {}
        }
    }

    // Notes for each of two terms that applies a function the other one.
    fn equate(&mut self, table: &TermTable, x: TermId, y: TermId) {
        if is_application(table, x) {
            self.put(x, y);
        }
        if is_application(table, y) {
            self.put(y, x);
        }
    }

    // Notes a source of a term, unless it has one.
    fn put(&mut self, t: TermId, source: TermId) {
        if t.0 < self.first {
            return;
        }
        let place = (t.0 - self.first) as usize;
        if place < self.list.len() && self.list[place].is_none() {
            self.list[place] = Some(source);
        }
    }
}

// Whether the term applies a function.
fn is_application(table: &TermTable, t: TermId) -> bool {
    t.0 < table.len() && matches!(table.core(t), Core::Apply(_, _))
}
