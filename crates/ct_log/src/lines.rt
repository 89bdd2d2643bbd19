//! Records: the terms of a table and lines over them.
ghost use Rattle.std.specs.Prelude.{◌≡◌, [], ◌∷◌, ◌++◌, OnOk, OnErr};
ghost use Rattle.ct_sorts.specs.Grown.{Begins};

use crate::line::Line;
use ct_terms::TermTable;
use std::alloc::{AllocError, Global};
use std::marker::Model;
use std::mem;

/// Terms and lines over them. What it holds need be neither well sorted nor accepted.
#[derive(Drop)]
pub struct Record {
    table: TermTable,
    lines: Vec<Line>,
}

impl Model for Record {
    ghost use Rattle.ct_log.specs.Recorded.{Recorded};

    ghost Value = { Recorded };

    ghost view = { λ stored. record { terms = stored.table; lines = stored.lines.items } };
}

impl Record {
    /// The record of this table and these lines. Takes no memory.
    pub fn new(table: TermTable, lines: Vec<Line>) -> Record
        ensures value { result ≡ record { terms = table; lines = lines.items } }
    {
        Record { table, lines }
    }

    /// The terms.
    pub fn table(&self) -> &TermTable
        ensures value { result.now ≡ self.now.terms }
    {
        &self.table
    }

    /// The lines, in order. The line with number n stands at index n - 1.
    pub fn lines(&self) -> &[Line]
        ensures value { result.now ≡ self.now.lines }
    {
        self.lines.as_slice()
    }

    /// The same lines over a table that begins with the terms of this one. Takes no memory.
    pub fn grow(self, table: TermTable) -> Record
        requires begins { Begins self.terms table }
        ensures value { result ≡ record { terms = table; lines = self.lines } }
    {
        Record {
            table,
            lines: self.lines,
        }
    }

    /// One more line at the end. An error changes nothing.
    pub(crate) fn push(&mut self, line: Line) -> Result<(), AllocError>
        ensures ok { OnOk result (self.new ≡ record self.old { lines = self.old.lines ++ line ∷ [] }) }
        ensures err { OnErr result (self.new ≡ self.old) }
    {
        self.lines.push(line)?;
        Ok(())
    }

    /// Moves all lines out.
    pub(crate) fn take_lines(&mut self, alloc: Global) -> Vec<Line>
        ensures lines { result.items ≡ self.old.lines }
        ensures none { self.new ≡ record self.old { lines = [] } }
    {
        mem::replace(&mut self.lines, Vec::new(alloc))
    }
}
