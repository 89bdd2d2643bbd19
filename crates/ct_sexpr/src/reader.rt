//! The reader: it is fed bytes, and returns complete commands, errors or the end.

ghost use Rattle.std.specs.Prelude.{◌≡◌, ℕ, ◌+◌, ◌^◌, ◌<◌, ◌≤◌, List, [], ◌++◌, true, false, length, drop, OnOk, OnErr, IfOk, IfErr};
ghost use Rattle.ct_sexpr.specs.Buffered.{IsTight};
ghost use Rattle.ct_sexpr.specs.Scanning.{Reached};
ghost use Rattle.ct_sexpr.specs.Answer.{IsAnswer, ReadsOn};
ghost use Rattle.ct_sexpr.specs.Nested.{NestsWithinLimit};

use crate::error::ReadError;
use crate::scan::{Scanned, scan_bytes};
use crate::scanner::{ScanStep, Scanner};
use crate::sexpr::Sexpr;
use std::alloc::Global;
use std::marker::Model;

/// What a reader has to give.
#[derive(Debug, Drop)]
pub enum Next {
    /// The next whole command, and the line of its opening parenthesis, counted from 1.
    Command {
        /// The command, a list.
        expr: Sexpr,
        /// The line, counted from 1.
        line: u64,
    },
    /// No further whole command has been fed, no error is definite, and the input has not ended.
    Need,
    /// The input has ended, and nothing but whitespace and comments is left.
    End,
}

/// Reads commands from bytes that are fed in any pieces.
///
/// Each byte is read once, whatever the pieces are. Only a byte at which an error becomes definite,
/// or at which memory runs out, is not taken, and each later call of `next` looks at it again.
///
/// Once all bytes were read, the reader stores only those that belong to no command given so far: so
/// whoever asks for commands up to `Need` and then feeds a piece holds what is left of a command and
/// one piece, and each byte is moved once at most. Where more is fed before, the bytes of commands that
/// were given are dropped as soon as they are more than those that are left. So the moves take linear
/// time in all.
#[derive(Drop)]
pub struct Reader {
    buffer: Vec<u8>,
    /// Where the bytes begin that belong to no command given so far.
    start: usize,
    /// How many bytes of the buffer the scanner has read.
    scanned: usize,
    scanner: Scanner,
    /// How many lines ended before `start`.
    lines: u64,
    /// How many bytes were fed in all; only the contracts read it.
    fed: u64,
    ended: bool,
}

impl Model for Reader {
    ghost use Rattle.std.specs.Prelude.{◌+◌, drop};
    ghost use Rattle.ct_sexpr.specs.Unread.{Unread};

    ghost Value = { Unread };

    ghost use Rattle.ct_sexpr.specs.Buffered.{IsBuffered, IsTight};

    ghost view = { λ r. record { bytes = drop r.start r.buffer.items; line = r.lines + 1; fed = r.fed; ended = r.ended } };

    ghost invariant = { λ r. IsBuffered r.buffer.items r.start r.scanned r.scanner r.lines r.fed × IsTight r.buffer.items r.start r.scanned };
}

impl Reader {
    /// A reader that was fed nothing. Its only error is `NoMemory`.
    pub fn new(alloc: Global) -> Result<Reader, ReadError>
        ensures ok { IfOk result (λ r. r ≡ record { bytes = []; line = 1; fed = 0; ended = false }) }
        ensures err { IfErr result (λ e. e ≡ ReadError.NoMemory) }
    {
        Ok(Reader {
            buffer: Vec::new(alloc),
            start: 0,
            scanned: 0,
            scanner: Scanner::new(alloc),
            lines: 0,
            fed: 0,
            ended: false,
        })
    }

    /// Takes the next piece of the input. Its only error is `NoMemory`, which changes nothing.
    pub fn feed(&mut self, piece: &[u8]) -> Result<(), ReadError>
        requires open_ended { self.old.ended ≡ false }
        requires few { self.old.fed + length piece.now < 2 ^ 64 }
        ensures ok { OnOk result (self.new ≡ record self.old { bytes = self.old.bytes ++ piece.now; fed = self.old.fed + length piece.now }) }
        ensures refused { OnErr result (self.new ≡ self.old) }
        ensures err { IfErr result (λ e. e ≡ ReadError.NoMemory) }
    {
        self.drop_given();
        self.buffer.extend_from_slice(piece)?;
        self.fed += piece.len() as u64;
        Ok(())
    }

    /// Drops the bytes of commands that were given, where they are more than those that are left.
    fn drop_given(&mut self)
        ensures same { self.new ≡ self.old }
    {
        if self.start > self.buffer.len() - self.start {
            self.buffer.drain(..self.start);
            self.scanned -= self.start;
            self.start = 0;
        }
    }

    /// How many of the bytes that were fed belong to no command returned so far. Once all bytes were read, as after
    /// `Need`, these are all bytes that the reader stores.
    pub fn kept_bytes(&self) -> u64
        ensures value { result ≡ length self.now.bytes }
        ensures within { result ≤ self.now.fed }
    {
        (self.buffer.len() - self.start) as u64
    }

    /// Says that the input has ended.
    pub fn end(&mut self)
        ensures over { self.new ≡ record self.old { ended = true } }
    {
        self.ended = true;
    }

    /// Gives the next whole command. `Need` comes where the input has not ended, no lexical error
    /// is definite and no further whole command was fed; `End` where the input has ended and
    /// nothing but whitespace and comments is left. A lexical error has its number, 1 to 6, and its
    /// line, as `ReadError` says; an error of a word, a keyword or a literal is definite once a
    /// byte is there after its word bytes or the input has ended, that the input ends inside a
    /// command once it has ended, and every other error at once. After one each later call gives
    /// the same, or `NoMemory`, which changes nothing.
    pub fn next(&mut self) -> Result<Next, ReadError>
        ensures answers { IsAnswer self.old self.new result }
        ensures reads { ReadsOn self.old self.new result }
        ensures nests { IfOk result NestsWithinLimit }
    {
        let unread = &self.buffer[self.scanned..];
        let Scanned { count, outcome } = scan_bytes(&mut self.scanner, unread);
        self.scanned += count;
        match outcome? {
            ScanStep::Going => {
                drop_if_read(&mut self.buffer, &mut self.start, &mut self.scanned);
                next_at_end(&self.scanner, self.lines, self.ended)
            }
            ScanStep::Wrong(code) => Err(lexical(code, self.lines + self.scanner.lines_read())),
            ScanStep::Command(expr) => {
                let line = self.lines + self.scanner.begun() + 1;
                self.lines += self.scanner.take_line_feeds();
                self.start = self.scanned;
                drop_if_read(&mut self.buffer, &mut self.start, &mut self.scanned);
                Ok(Next::Command { expr, line })
            }
        }
    }
}

/// Drops the bytes before `start`, which belong to commands that were given, where all bytes were read.
fn drop_if_read(buffer: &mut Vec<u8>, start: &mut usize, scanned: &mut usize)
    requires order { start.old ≤ scanned.old }
    requires within { scanned.old ≤ length buffer.old.items }
    ensures kept { drop start.new buffer.new.items ≡ drop start.old buffer.old.items }
    ensures unread { drop scanned.new buffer.new.items ≡ drop scanned.old buffer.old.items }
    ensures order { start.new ≤ scanned.new }
    ensures within { scanned.new ≤ length buffer.new.items }
    ensures tight { IsTight buffer.new.items start.new scanned.new }
{
    if *start == 0 || *scanned < buffer.len() {
        return;
    }
    buffer.drain(..*start);
    *scanned -= *start;
    *start = 0;
}

/// What there is after bytes that a scanner has read whole, and that complete no command. They
/// begin after so many lines.
fn next_at_end(scanner: &Scanner, lines: u64, ended: bool) -> Result<Next, ReadError>
    requires read { (whole : List ℕ) × Reached scanner.now whole [] × (lines + length whole < 2 ^ 64) }
    ensures answers { (whole : List ℕ) (fed : ℕ) → Reached scanner.now whole [] →
        IsAnswer (record { bytes = whole; line = lines + 1; fed = fed; ended = ended }) (record { bytes = whole; line = lines + 1; fed = fed; ended = ended }) result }
{
    if !ended {
        return Ok(Next::Need);
    }
    match scanner.error_at_end() {
        Some(code) => Err(lexical(code, lines + scanner.lines_read())),
        None => Ok(Next::End),
    }
}

/// The error with this number, where so many lines end before it.
fn lexical(code: u16, lines: u64) -> ReadError
    requires few { lines + 1 < 2 ^ 64 }
    ensures error { result ≡ ReadError.Lexical code (lines + 1) }
{
    ReadError::Lexical {
        code,
        line: lines + 1,
    }
}
