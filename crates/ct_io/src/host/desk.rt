//! The desk of the host: files of the operating system and standard input.

ghost use Rattle.std.specs.Prelude.{◌≡◌, ◌≢◌, ◌≤◌, ◌+◌, ℕ, None, length, min, IfErr, IfOk, OnErr, OnOk};
ghost use Rattle.std.specs.Io.KnownBytes.{ReadConsumes};
ghost use Rattle.ct_io.specs.Fault.{HasCause, last_count};
ghost use Rattle.ct_io.specs.HostSlots.{slot_in, slot_of, origin_of, unopened_slots};

use super::faults::FaultCount;
use super::sources::{Source, Sources};
use crate::desk::{Desk, DeskError, Slot};
use std::io::Input;
use std::marker::Model;
use std::rt::Files;
use std::{fs, io};

/// The files of the host, and its standard input under the empty name.
///
/// It tells no content. Every error of the host is a fault, out of memory among them. Clauses see
/// what the slots read from and the number of faults.
#[derive(Drop)]
pub struct HostDesk<R: Files + Input> {
    runtime: R,
    sources: Sources<R::Reader, R::File>,
    faults: FaultCount,
}

impl<R: Files + Input> Model for HostDesk<R> {
    ghost use Rattle.ct_io.specs.HostSlots.{HostState};

    ghost Value = { HostState };

    ghost view = { λ desk. record { slots = desk.sources; faults = desk.faults } };
}

impl<R: Files + Input> HostDesk<R> {
    /// A desk with nothing in its slots. Takes no memory.
    pub fn new(runtime: R) -> HostDesk<R>
        ensures value { result ≡ record { slots = unopened_slots; faults = 0 } }
    {
        HostDesk {
            runtime,
            sources: Sources::new(),
            faults: FaultCount::new(),
        }
    }

    /// How often the host failed.
    pub fn faults(&self) -> u64
        ensures value { result ≡ self.now.faults }
    {
        self.faults.get()
    }
}

/// The file of this name, or standard input under the empty name.
fn open_source<R: Files + Input>(runtime: &R, name: &str) -> io::Result<Source<R::Reader, R::File>>
    ensures origin { IfOk result (λ source.
        (slot_of R.Reader.remaining R.File.remaining source).origin ≡ origin_of name.now) }
{
    if name.is_empty() {
        return Ok(Source::StandardInput(runtime.reader()));
    }
    Ok(Source::File(fs::open(runtime, name)?))
}

impl<R: Files + Input> Desk for HostDesk<R> {
    ghost held = { λ _ _. None };

    ghost left = { λ _ _. None };

    ghost faults = { λ desk. desk.faults };

    fn open(&mut self, slot: Slot, name: &str) -> Result<(), DeskError>
        ensures cause { HasCause DeskError.Fault self.old.faults self.new.faults result }

        // Each fault that is answered is counted, and nothing else is.
        ensures counted { OnErr result (self.new.faults ≡ min (self.old.faults + 1) last_count) }
        ensures uncounted { OnOk result (self.new.faults ≡ self.old.faults) }
        ensures only_faults { IfErr result (λ e. e ≡ DeskError.Fault) }

        // The slot reads from what the name stands for, and the other one from what it read from.
        ensures origin { OnOk result ((slot_in self.new.slots slot).origin ≡ origin_of name.now) }
        ensures apart { (s : Slot) → s ≢ slot
            → slot_in self.new.slots s ≡ slot_in self.old.slots s }
        ensures stored { OnErr result (self.new.slots ≡ self.old.slots) }
    {
        let opened = open_source(&self.runtime, name);
        let source = self.faults.settle(opened, DeskError::Fault)?;
        self.sources.put(slot, source);
        Ok(())
    }

    fn read(&mut self, slot: Slot, buf: &mut [u8]) -> Result<usize, DeskError>
        ensures bound { IfOk result (λ n. n ≤ length buf.old) }
        ensures cause { HasCause DeskError.Fault self.old.faults self.new.faults result }

        // Each fault that is answered is counted, and nothing else is.
        ensures counted { OnErr result (self.new.faults ≡ min (self.old.faults + 1) last_count) }
        ensures uncounted { OnOk result (self.new.faults ≡ self.old.faults) }
        ensures only_faults { IfErr result (λ e. e ≡ DeskError.Fault) }

        // The bytes come from the slot's own source, and the other one is as before.
        ensures consumes { ReadConsumes (slot_in self.old.slots slot).left
            (slot_in self.new.slots slot).left result buf.new }
        ensures origin { (slot_in self.new.slots slot).origin
            ≡ (slot_in self.old.slots slot).origin }
        ensures apart { (s : Slot) → s ≢ slot
            → slot_in self.new.slots s ≡ slot_in self.old.slots s }
    {
        let read = self.sources.read(slot, buf);
        self.faults.settle(read, DeskError::Fault)
    }
}
