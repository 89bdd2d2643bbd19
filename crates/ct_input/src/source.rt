//! A reader that still has the bytes of the last command that it gave, and knows where they stand.

ghost use Rattle.std.specs.Prelude.{◌≡◌, ℕ, List, ◌+◌, ◌-◌, ◌^◌, ◌<◌, ◌≤◌, [], ◌++◌, false, true, length, drop, IfErr, IfOk, OnErr, OnOk};
ghost use Rattle.ct_sexpr.specs.Answer.{IsAnswer, ReadsOn};
ghost use Rattle.ct_sexpr.specs.Nested.{NestsWithinLimit};
ghost use Rattle.ct_sexpr.specs.Whitespace as whitespace;
ghost use Rattle.ct_input.specs.Fresh.{fresh};
ghost use Rattle.ct_input.specs.Slot.{given};
ghost use Rattle.ct_input.specs.Source as source;
ghost use Rattle.ct_input.specs.Source.{held_bytes, line_at, column_at, HoldsText, IsPlaced};

use crate::held::HeldBytes;
use crate::places::{after_whitespace, column_after, line_feeds};
use ct_sexpr::{Next, ReadError, Reader};
use std::alloc::Global;
use std::marker::Model;

/// Where a byte of a text stands.
#[derive(Clone, Copy, Debug, PartialEq, Eq)]
pub struct Position {
    /// The line, counted from 1. A line feed alone ends a line.
    pub line: u64,
    /// The column, counted in bytes from 1.
    pub column: u64,
}

/// A reader that still has the bytes of the last command that it gave, and knows where they stand in the text.
///
/// It reads as `Reader` does. Beside the bytes that the reader stores it stores them once more, with those of the last command;
/// each byte is moved a fixed number of times at most.
#[derive(Drop)]
pub struct SourceReader {
    reader: Reader,
    bytes: HeldBytes,
    /// The line on which the last command begins.
    line: u64,
    /// The column at which it begins.
    column: u64,
}

impl Model for SourceReader {
    ghost use Rattle.std.specs.Prelude.{◌≡◌};
    ghost use Rattle.ct_input.specs.Source.{Source, IsPlaced};

    ghost Value = { Source };

    ghost view = { λ s. record { unread = s.reader; command = s.bytes.command; line = s.line; column = s.column } };

    ghost invariant = { λ s. (s.bytes.rest ≡ s.reader.bytes) × IsPlaced (record { unread = s.reader; command = s.bytes.command; line = s.line; column = s.column }) };
}

impl SourceReader {
    /// A reader that was fed nothing. Its only error is `NoMemory`.
    pub fn new(alloc: Global) -> Result<SourceReader, ReadError>
        ensures ok { IfOk result (λ s. s ≡ record { unread = fresh; command = []; line = 1; column = 1 }) }
        ensures err { IfErr result (λ e. e ≡ ReadError.NoMemory) }
    {
        Ok(SourceReader {
            reader: Reader::new(alloc)?,
            bytes: HeldBytes::new(alloc),
            line: 1,
            column: 1,
        })
    }

    /// Takes the next piece of the input. Its only error is `NoMemory`, which changes nothing.
    pub fn feed(&mut self, piece: &[u8]) -> Result<(), ReadError>
        requires open_ended { self.old.unread.ended ≡ false }
        requires few { self.old.unread.fed + length piece.now + 1 < 2 ^ 64 }
        ensures ok { OnOk result (self.new ≡ record self.old { unread = given self.old.unread piece.now }) }
        ensures refused { OnErr result (self.new ≡ self.old) }
        ensures err { IfErr result (λ e. e ≡ ReadError.NoMemory) }
    {
        if self.bytes.extend(piece).is_err() {
            return Err(ReadError::NoMemory);
        }
        if self.reader.feed(piece).is_err() {
            self.bytes.take_back(piece.len());
            return Err(ReadError::NoMemory);
        }
        Ok(())
    }

    /// Says that the input has ended.
    pub fn end(&mut self)
        ensures over { self.new ≡ record self.old { unread = record self.old.unread { ended = true } } }
    {
        self.reader.end();
    }

    /// Gives the next whole command, or says why there is none, as `Reader::next` does. From then on the bytes of the last
    /// command are those of this one.
    pub fn next(&mut self) -> Result<Next, ReadError>
        ensures answers { IsAnswer self.old.unread self.new.unread result }
        ensures reads { ReadsOn self.old.unread self.new.unread result }
        ensures nests { IfOk result NestsWithinLimit }
        ensures text { HoldsText self.old self.new result }
    {
        let before = self.reader.kept_bytes();
        match self.reader.next()? {
            Next::Command { expr, line } => {
                let taken = (before - self.reader.kept_bytes()) as usize;
                keep_command(&mut self.bytes, &mut self.column, taken);
                self.line = line;
                Ok(Next::Command { expr, line })
            }
            Next::Need => {
                self.bytes.drop_passed();
                Ok(Next::Need)
            }
            Next::End => Ok(Next::End),
        }
    }

    /// The bytes of the last command that was given, from its opening parenthesis to its closing one; none before the first one.
    pub fn last_command(&self) -> &[u8]
        ensures value { result.now ≡ self.now.command }
        ensures line_after { self.now.unread.line ≡ self.now.line + whitespace.line_feeds self.now.command }
    {
        self.bytes.command()
    }

    /// The bytes of the last command, and after them those that were fed and belong to no command so far.
    pub fn held_bytes(&self) -> &[u8]
        ensures value { result.now ≡ held_bytes self.now }
    {
        self.bytes.all()
    }

    /// The position in the text of the byte at an offset of `held_bytes`, and so of `last_command`.
    pub fn position(&self, offset: usize) -> Position
        requires within { offset ≤ length (held_bytes self.now) }
        ensures line { result.line ≡ line_at self.now offset }
        ensures column { result.column ≡ column_at self.now offset }
    {
        let passed = &self.bytes.all()[..offset];
        Position {
            line: self.line + line_feeds(passed),
            column: column_after(self.column, passed),
        }
    }
}

/// The next command is the end of so many bytes, after whitespace and comments, and begins at a column that is counted on.
fn keep_command(bytes: &mut HeldBytes, column: &mut u64, taken: usize)
    requires within { taken ≤ length bytes.old.rest }
    requires after { length bytes.old.rest ≤ taken + length (whitespace.after_whitespace bytes.old.rest) }
    requires few { column.old + length (bytes.old.command ++ bytes.old.rest) < 2 ^ 64 }
    ensures rest { bytes.new.rest ≡ drop taken bytes.old.rest }
    ensures command { whitespace.after_whitespace bytes.old.rest ≡ bytes.new.command ++ bytes.new.rest }
    ensures column { (space : List ℕ) → bytes.old.rest ≡ space ++ whitespace.after_whitespace bytes.old.rest
        → column.new ≡ source.column_after column.old (bytes.old.command ++ space) }
{
    let space = bytes.rest().len() - after_whitespace(bytes.rest()).len();
    let before = bytes.command().len() + space;
    *column = column_after(*column, &bytes.all()[..before]);
    bytes.advance(space, taken - space);
}
