//! The bytes of the last command, and after them those of no command so far.

ghost use Rattle.std.specs.Prelude.{◌≡◌, ◌+◌, ◌-◌, ◌≤◌, [], ◌++◌, length, take, drop, OnOk, OnErr};

use std::alloc::{AllocError, Global};
use std::marker::Model;

/// The bytes of the last command, and after them those of no command so far. Bytes before the command are dropped once they
/// are more than those that are left, or at `drop_passed`, so the moves take linear time in all.
#[derive(Drop)]
pub(crate) struct HeldBytes {
    bytes: Vec<u8>,
    /// Where the last command begins.
    start: usize,
    /// Where it ends.
    end: usize,
}

impl Model for HeldBytes {
    ghost use Rattle.std.specs.Prelude.{◌-◌, ◌≤◌, take, drop, length};
    ghost use Rattle.ct_input.specs.Held.{Held};

    ghost Value = { Held };

    ghost view = { λ h. record { command = take (h.end - h.start) (drop h.start h.bytes.items); rest = drop h.end h.bytes.items } };

    ghost invariant = { λ h. (h.start ≤ h.end) × (h.end ≤ length h.bytes.items) };
}

impl HeldBytes {
    /// No bytes.
    pub(crate) fn new(alloc: Global) -> HeldBytes
        ensures empty { result ≡ record { command = []; rest = [] } }
    {
        HeldBytes {
            bytes: Vec::new(alloc),
            start: 0,
            end: 0,
        }
    }

    /// The bytes of the last command.
    pub(crate) fn command(&self) -> &[u8]
        ensures value { result.now ≡ self.now.command }
    {
        &self.bytes[self.start..self.end]
    }

    /// The bytes of no command so far.
    pub(crate) fn rest(&self) -> &[u8]
        ensures value { result.now ≡ self.now.rest }
    {
        &self.bytes[self.end..]
    }

    /// All bytes.
    pub(crate) fn all(&self) -> &[u8]
        ensures value { result.now ≡ self.now.command ++ self.now.rest }
    {
        &self.bytes[self.start..]
    }

    /// Puts more bytes at the end.
    pub(crate) fn extend(&mut self, piece: &[u8]) -> Result<(), AllocError>
        ensures ok { OnOk result (self.new ≡ record self.old { rest = self.old.rest ++ piece.now }) }
        ensures refused { OnErr result (self.new ≡ self.old) }
    {
        if self.start > self.bytes.len() - self.start {
            self.drop_passed();
        }
        self.bytes.extend_from_slice(piece)
    }

    /// Takes so many bytes away from the end.
    pub(crate) fn take_back(&mut self, count: usize)
        requires within { count ≤ length self.old.rest }
        ensures left { self.new ≡ record self.old { rest = take (length self.old.rest - count) self.old.rest } }
    {
        self.bytes.truncate(self.bytes.len() - count);
    }

    /// The next command: so many bytes after these, which are passed over.
    pub(crate) fn advance(&mut self, space: usize, size: usize)
        requires within { space + size ≤ length self.old.rest }
        ensures command { self.new.command ≡ take size (drop space self.old.rest) }
        ensures rest { self.new.rest ≡ drop (space + size) self.old.rest }
    {
        self.start = self.end + space;
        self.end = self.start + size;
    }

    /// Drops the bytes that were passed over.
    pub(crate) fn drop_passed(&mut self)
        ensures same { self.new ≡ self.old }
    {
        if self.start > 0 {
            self.bytes.drain(..self.start);
            self.end -= self.start;
            self.start = 0;
        }
    }
}
