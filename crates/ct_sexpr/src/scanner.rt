//! Reads one byte: the state of the scanner, and what the byte does in it.

ghost use Rattle.std.specs.Prelude.{◌≡◌, ℕ, ◌+◌, ◌<◌, ◌≤◌, ◌^◌, ◌==◌, true, false, [], ◌∷◌, ◌++◌, Ok, Err, OnOk, OnErr, IfErr, IfSome, IfNone};
ghost use Rattle.ct_sexpr.specs.Whitespace.{is_whitespace, line_feeds, semicolon};
ghost use Rattle.ct_sexpr.specs.Atom.{Atom, begins_word, atom_of};
ghost use Rattle.ct_sexpr.specs.Token.{left_parenthesis, right_parenthesis, quotation_mark, is_in_quoted_symbol};
ghost use Rattle.ct_sexpr.specs.Expression.{tokens_of};
ghost use Rattle.ct_sexpr.specs.View.{expression_of};
ghost use Rattle.ct_sexpr.specs.Scanning.{IsFresh, Steps, EndsAt, lines_before};

use crate::atom::{atom, copied, kind_of};
use crate::byte_class::{begins_atom, ends_comment, is_whitespace, is_word_byte};
use crate::error::{
    ATOM_OUTSIDE, BEGINS_NO_TOKEN, CLOSES_NOTHING, ENDS_INSIDE, NESTS_TOO_DEEP, ReadError,
};
use crate::open_lists::{NESTING_LIMIT, OpenLists};
use crate::sexpr::Sexpr;
use std::alloc::Global;
use std::mem;

/// What a scanner is inside.
#[derive(Clone, Copy, Debug, PartialEq, Eq)]
pub(crate) enum Mode {
    /// Between tokens.
    Between,
    /// In a comment.
    Comment,
    /// In a word, a keyword or a literal, which its next byte may end.
    Word,
    /// Inside a quoted symbol.
    Quoted,
    /// In a string.
    Text,
    /// After a quotation mark in a string, which ends it unless another follows.
    Mark,
}

/// What reading one byte gave.
#[derive(Drop)]
pub(crate) enum ScanStep {
    /// The byte was read, and completes no command.
    Going,
    /// The byte was read, and closes this command.
    Command(Sexpr),
    /// The error with this number is definite, at the byte or before it. The byte was not read, so
    /// that the error is found again.
    Wrong(u16),
}

/// Reads the bytes of commands one at a time.
#[derive(Drop)]
pub(crate) struct Scanner {
    lists: OpenLists,
    mode: Mode,
    /// The bytes so far of the atom that the scanner is inside, without the `|` or the quotation
    /// marks around it.
    word: Vec<u8>,
    /// How many lines ended in the bytes read since the last command.
    line_feeds: u64,
    /// How many of them ended before the first parenthesis of the command that was begun last.
    before: u64,
    alloc: Global,
}

impl Scanner {
    /// A scanner that has read nothing.
    pub(crate) fn new(alloc: Global) -> Scanner
        ensures fresh { IsFresh result }
        ensures lines { result.line_feeds ≡ 0 }
    {
        Scanner {
            lists: OpenLists::new(alloc),
            mode: Mode::Between,
            word: Vec::new(alloc),
            line_feeds: 0,
            before: 0,
            alloc,
        }
    }

    /// How many lines ended before the command that is open, or where none is, before the next byte.
    fn lines_before(&self) -> u64
        ensures lines { result ≡ lines_before self.now }
    {
        if self.lists.depth() == 0 {
            self.line_feeds
        } else {
            self.before
        }
    }

    /// How many lines ended before the command that was begun last.
    pub(crate) fn begun(&self) -> u64
        ensures lines { result ≡ self.now.before }
    {
        self.before
    }

    /// How many lines ended in the bytes read since the last command.
    pub(crate) fn lines_read(&self) -> u64
        ensures lines { result ≡ self.now.line_feeds }
    {
        self.line_feeds
    }

    /// How many lines ended since the last command; from here they are counted anew.
    pub(crate) fn take_line_feeds(&mut self) -> u64
        ensures count { result ≡ self.old.line_feeds }
        ensures after { self.new ≡ record self.old { line_feeds = 0 } }
    {
        mem::replace(&mut self.line_feeds, 0)
    }

    /// The number of the error where the input ends here. `None` where nothing but whitespace and
    /// comments was read.
    pub(crate) fn error_at_end(&self) -> Option<u16>
        ensures ends { EndsAt self.now result }
    {
        match self.error_of_word() {
            Some(code) => Some(code),
            None if self.lists.depth() == 0 => None,
            None => Some(ENDS_INSIDE),
        }
    }

    /// The number of the error of the word that the scanner is inside, if it ends here.
    fn error_of_word(&self) -> Option<u16>
        ensures found { IfSome result (λ code. (self.now.mode ≡ Mode.Word) × (atom_of self.now.word.items ≡ Err code)) }
        ensures none { IfNone result (self.now.mode ≡ Mode.Word → (a : Atom) × (atom_of self.now.word.items ≡ Ok a)) }
    {
        match self.mode {
            Mode::Word => kind_of(&self.word).err(),
            Mode::Between | Mode::Comment | Mode::Quoted | Mode::Text | Mode::Mark => None,
        }
    }

    /// Reads one byte. On an error the byte was not read.
    pub(crate) fn step(&mut self, byte: u8) -> Result<ScanStep, ReadError>
        requires few { self.old.line_feeds + 1 < 2 ^ 64 }
        ensures steps { Steps self.old self.new byte result }
        ensures lines { self.new.line_feeds ≤ self.old.line_feeds + 1 }
    {
        match self.mode {
            Mode::Between => self.step_between(byte),
            Mode::Comment => Ok(self.step_in_comment(byte)),
            Mode::Word => self.step_in_word(byte),
            Mode::Quoted => self.step_in_quoted_symbol(byte),
            Mode::Text => self.step_in_text(byte),
            Mode::Mark => self.step_after_mark(byte),
        }
    }

    /// Counts the byte.
    fn count(&mut self, byte: u8)
        requires few { self.old.line_feeds + 1 < 2 ^ 64 }
        ensures counted { self.new ≡ record self.old { line_feeds = self.old.line_feeds + line_feeds (byte ∷ []) } }
    {
        if byte == b'\n' {
            self.line_feeds += 1;
        }
    }

    fn step_in_comment(&mut self, byte: u8) -> ScanStep
        requires mode { self.old.mode ≡ Mode.Comment }
        requires few { self.old.line_feeds + 1 < 2 ^ 64 }
        ensures steps { Steps self.old self.new byte (Ok result) }
        ensures lines { self.new.line_feeds ≤ self.old.line_feeds + 1 }
    {
        if ends_comment(byte) {
            self.mode = Mode::Between;
        }
        self.count(byte);
        ScanStep::Going
    }

    fn step_in_word(&mut self, byte: u8) -> Result<ScanStep, ReadError>
        requires mode { self.old.mode ≡ Mode.Word }
        requires few { self.old.line_feeds + 1 < 2 ^ 64 }
        ensures steps { Steps self.old self.new byte result }
        ensures lines { self.new.line_feeds ≤ self.old.line_feeds + 1 }
    {
        if is_word_byte(byte) {
            self.word.push(byte)?;
            return Ok(ScanStep::Going);
        }
        match kind_of(&self.word) {
            Ok(kind) => {
                let item = atom(self.alloc, kind, &self.word)?;
                self.end_atom(item)?;
                self.step_between(byte)
            }
            Err(code) => Ok(ScanStep::Wrong(code)),
        }
    }

    fn step_in_quoted_symbol(&mut self, byte: u8) -> Result<ScanStep, ReadError>
        requires mode { self.old.mode ≡ Mode.Quoted }
        requires few { self.old.line_feeds + 1 < 2 ^ 64 }
        ensures steps { Steps self.old self.new byte result }
        ensures lines { self.new.line_feeds ≤ self.old.line_feeds + 1 }
    {
        match byte {
            b'\\' => Ok(ScanStep::Wrong(BEGINS_NO_TOKEN)),
            b'|' => {
                let name = copied(self.alloc, &self.word)?;
                self.end_atom(Sexpr::Quoted(name))?;
                Ok(ScanStep::Going)
            }
            _ => self.add_to_word(byte),
        }
    }

    fn step_in_text(&mut self, byte: u8) -> Result<ScanStep, ReadError>
        requires mode { self.old.mode ≡ Mode.Text }
        requires few { self.old.line_feeds + 1 < 2 ^ 64 }
        ensures steps { Steps self.old self.new byte result }
        ensures lines { self.new.line_feeds ≤ self.old.line_feeds + 1 }
    {
        if byte == b'"' {
            self.mode = Mode::Mark;
            return Ok(ScanStep::Going);
        }
        self.add_to_word(byte)
    }

    fn step_after_mark(&mut self, byte: u8) -> Result<ScanStep, ReadError>
        requires mode { self.old.mode ≡ Mode.Mark }
        requires few { self.old.line_feeds + 1 < 2 ^ 64 }
        ensures steps { Steps self.old self.new byte result }
        ensures lines { self.new.line_feeds ≤ self.old.line_feeds + 1 }
    {
        if byte == b'"' {
            self.word.push(byte)?;
            self.mode = Mode::Text;
            return Ok(ScanStep::Going);
        }
        let content = copied(self.alloc, &self.word)?;
        self.end_atom(Sexpr::Text(content))?;
        self.step_between(byte)
    }

    /// Puts the atom that ends here into the innermost list.
    fn end_atom(&mut self, item: Sexpr) -> Result<(), ReadError>
        ensures lists { 0 < self.old.lists.depth → OnOk result (self.new.lists ≡ record { tokens = self.old.lists.tokens ++ tokens_of (expression_of item); depth = self.old.lists.depth }) }
        ensures mode { OnOk result (self.new.mode ≡ Mode.Between) }
        ensures word { OnOk result (self.new.word.items ≡ []) }
        ensures lines { self.new.line_feeds ≡ self.old.line_feeds }
        ensures before { self.new.before ≡ self.old.before }
        ensures refused { OnErr result (self.new ≡ self.old) }
        ensures err { IfErr result (λ e. e ≡ ReadError.NoMemory) }
    {
        self.lists.add(item)?;
        self.word.clear();
        self.mode = Mode::Between;
        Ok(())
    }

    /// Reads a byte of a quoted symbol or a string, which may end a line.
    fn add_to_word(&mut self, byte: u8) -> Result<ScanStep, ReadError>
        requires few { self.old.line_feeds + 1 < 2 ^ 64 }
        ensures quoted { self.old.mode ≡ Mode.Quoted → is_in_quoted_symbol byte ≡ true → Steps self.old self.new byte result }
        ensures text { self.old.mode ≡ Mode.Text → (byte == quotation_mark) ≡ false → Steps self.old self.new byte result }
        ensures lines { self.new.line_feeds ≤ self.old.line_feeds + 1 }
    {
        self.word.push(byte)?;
        self.count(byte);
        Ok(ScanStep::Going)
    }

    fn step_between(&mut self, byte: u8) -> Result<ScanStep, ReadError>
        requires mode { self.old.mode ≡ Mode.Between }
        requires few { self.old.line_feeds + 1 < 2 ^ 64 }
        ensures steps { Steps self.old self.new byte result }
        ensures lines { self.new.line_feeds ≤ self.old.line_feeds + 1 }
    {
        if is_whitespace(byte) {
            self.count(byte);
            return Ok(ScanStep::Going);
        }
        match byte {
            b';' => {
                self.mode = Mode::Comment;
                Ok(ScanStep::Going)
            }
            b'(' => self.open_list(),
            b')' => self.close_list(),
            _ => self.begin_atom(byte),
        }
    }

    /// Reads an opening parenthesis.
    fn open_list(&mut self) -> Result<ScanStep, ReadError>
        requires mode { self.old.mode ≡ Mode.Between }
        ensures steps { Steps self.old self.new left_parenthesis result }
        ensures lines { self.new.line_feeds ≡ self.old.line_feeds }
    {
        if self.lists.depth() >= NESTING_LIMIT {
            return Ok(ScanStep::Wrong(NESTS_TOO_DEEP));
        }
        let before = self.lines_before();
        self.lists.open(self.alloc)?;
        self.before = before;
        Ok(ScanStep::Going)
    }

    /// Reads a closing parenthesis.
    fn close_list(&mut self) -> Result<ScanStep, ReadError>
        requires mode { self.old.mode ≡ Mode.Between }
        ensures steps { Steps self.old self.new right_parenthesis result }
        ensures lines { self.new.line_feeds ≡ self.old.line_feeds }
    {
        match self.lists.depth() {
            0 => Ok(ScanStep::Wrong(CLOSES_NOTHING)),
            1 => Ok(ScanStep::Command(self.lists.finish())),
            _ => {
                self.lists.close()?;
                Ok(ScanStep::Going)
            }
        }
    }

    /// Reads a byte that is no whitespace and no parenthesis and begins no comment. It begins an
    /// atom, or no token.
    fn begin_atom(&mut self, byte: u8) -> Result<ScanStep, ReadError>
        requires mode { self.old.mode ≡ Mode.Between }
        requires no_whitespace { is_whitespace byte ≡ false }
        requires no_comment { (byte == semicolon) ≡ false }
        requires no_opening { (byte == left_parenthesis) ≡ false }
        requires no_closing { (byte == right_parenthesis) ≡ false }
        ensures steps { Steps self.old self.new byte result }
        ensures lines { self.new.line_feeds ≡ self.old.line_feeds }
    {
        if !begins_atom(byte) {
            return Ok(ScanStep::Wrong(BEGINS_NO_TOKEN));
        }
        if self.lists.depth() == 0 {
            return Ok(ScanStep::Wrong(ATOM_OUTSIDE));
        }
        match byte {
            b'|' => {
                self.mode = Mode::Quoted;
                Ok(ScanStep::Going)
            }
            b'"' => {
                self.mode = Mode::Text;
                Ok(ScanStep::Going)
            }
            _ => self.begin_word(byte),
        }
    }

    /// Reads the first byte of a word, a keyword or a literal.
    fn begin_word(&mut self, byte: u8) -> Result<ScanStep, ReadError>
        requires mode { self.old.mode ≡ Mode.Between }
        requires first { begins_word byte ≡ true }
        requires within { 0 < self.old.lists.depth }
        ensures steps { Steps self.old self.new byte result }
        ensures lines { self.new.line_feeds ≡ self.old.line_feeds }
    {
        self.word.push(byte)?;
        self.mode = Mode::Word;
        Ok(ScanStep::Going)
    }
}
