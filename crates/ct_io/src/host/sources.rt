//! The sources of the two slots of the host's desk.

ghost use Rattle.std.specs.Prelude.{◌≡◌, ◌≢◌, ◌≤◌, length, IfOk};
ghost use Rattle.std.specs.Io.KnownBytes.{ReadConsumes};
ghost use Rattle.ct_io.specs.HostSlots.{slot_in, with_slot, slot_of, unopened_slots};

use crate::desk::Slot;
use std::io;
use std::io::Read;
use std::marker::Model;

/// What a slot of the host's desk reads from.
#[derive(Drop)]
pub(super) enum Source<I: Read + Drop, F: Read + Drop> {
    /// Nothing: the slot was not opened.
    Nothing,
    /// The standard input of the process.
    StandardInput(I),
    /// An open file.
    File(F),
}

impl<I: Read + Drop, F: Read + Drop> Source<I, F> {
    /// Reads on, and finds the end where there is nothing.
    fn read(&mut self, buf: &mut [u8]) -> io::Result<usize>
        ensures bound { IfOk result (λ n. n ≤ length buf.old) }
        ensures bytes { ReadConsumes (slot_of I.remaining F.remaining self.old).left
            (slot_of I.remaining F.remaining self.new).left result buf.new }
        ensures origin { (slot_of I.remaining F.remaining self.new).origin
            ≡ (slot_of I.remaining F.remaining self.old).origin }
    {
        match self {
            Source::Nothing => Ok(0),
            Source::StandardInput(input) => input.read(buf),
            Source::File(file) => file.read(buf),
        }
    }
}

/// What the two slots of the host's desk read from, each from a source of its own.
#[derive(Drop)]
pub(super) struct Sources<I: Read + Drop, F: Read + Drop> {
    script: Source<I, F>,
    proof: Source<I, F>,
}

impl<I: Read + Drop, F: Read + Drop> Model for Sources<I, F> {
    ghost use Rattle.ct_io.specs.HostSlots.{HostSlots, slot_of};

    ghost Value = { HostSlots };

    ghost view = { λ sources. record {
      script = slot_of I.remaining F.remaining sources.script;
      proof = slot_of I.remaining F.remaining sources.proof;
    } };
}

impl<I: Read + Drop, F: Read + Drop> Sources<I, F> {
    /// Neither slot was opened.
    pub(super) fn new() -> Sources<I, F>
        ensures value { result ≡ unopened_slots }
    {
        Sources {
            script: Source::Nothing,
            proof: Source::Nothing,
        }
    }

    /// Lets the slot read from this source.
    pub(super) fn put(&mut self, slot: Slot, source: Source<I, F>)
        ensures after { self.new
            ≡ with_slot self.old slot (slot_of I.remaining F.remaining source) }
    {
        match slot {
            Slot::Script => self.script = source,
            Slot::Proof => self.proof = source,
        }
    }

    /// Reads on in the slot's own source.
    pub(super) fn read(&mut self, slot: Slot, buf: &mut [u8]) -> io::Result<usize>
        ensures bound { IfOk result (λ n. n ≤ length buf.old) }
        ensures bytes { ReadConsumes (slot_in self.old slot).left (slot_in self.new slot).left
            result buf.new }
        ensures origin { (slot_in self.new slot).origin ≡ (slot_in self.old slot).origin }
        ensures apart { (s : Slot) → s ≢ slot → slot_in self.new s ≡ slot_in self.old s }
    {
        match slot {
            Slot::Script => self.script.read(buf),
            Slot::Proof => self.proof.read(buf),
        }
    }
}
