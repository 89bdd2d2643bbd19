//! A desk in memory, of which chosen calls fail.

ghost use Rattle.std.specs.Prelude.{◌≡◌, ◌≢◌, ◌≤◌, ◌<◌, ◌↔◌, ℕ, List, length, drop, min, IfErr, IfOk, IsErrOf, IsSomeAnd, OnErr, OnOk};
ghost use Rattle.ct_io.specs.Bytes.{remaining, ReadsBytes};
ghost use Rattle.ct_io.specs.Calls.{no_calls, call_count, IsToFail, with_fault};
ghost use Rattle.ct_io.specs.Fault.{HasCause, Rose};
ghost use Rattle.ct_io.specs.MemoryDesk.{held_by, left_of, CannotOpen, desk_after, desk_after_fault};
ghost use Rattle.ct_io.specs.FileStore.{contents, unopened, left_in};

use super::calls::NumberedCalls;
use super::store::FilesInMemory;
use crate::desk::{Desk, DeskError, Slot};
use crate::text::Text;
use std::marker::Model;

/// A desk in memory, of which chosen calls fail.
///
/// Its calls of `open` and `read` are numbered together from 0. A name that is not there fails too.
#[derive(Drop)]
pub struct DeskInMemory {
    store: FilesInMemory,
    piece: usize,
    calls: NumberedCalls,
}

impl Model for DeskInMemory {
    ghost use Rattle.std.specs.Prelude.{◌<◌};
    ghost use Rattle.ct_io.specs.MemoryDesk.{MemoryDesk};

    ghost Value = { MemoryDesk };

    ghost view = { λ desk. record { store = desk.store; piece = desk.piece; calls = desk.calls } };

    ghost invariant = { λ desk. 0 < desk.piece };
}

impl DeskInMemory {
    /// A desk with these files; of two files with one name the first counts. The calls whose numbers stand in `fail`
    /// fail, and a read gives at most `piece` bytes. Takes no memory.
    pub fn new(files: Vec<(Text, Vec<u8>)>, fail: Vec<u64>, piece: usize) -> DeskInMemory
        requires some { 0 < piece }
        ensures value { result ≡ record {
          store = unopened (contents files.items);
          piece = piece;
          calls = no_calls fail.items;
        } }
    {
        DeskInMemory {
            store: FilesInMemory::new(files),
            piece,
            calls: NumberedCalls::new(fail),
        }
    }

    /// How often `open` and `read` were called, at most 2^64 - 1.
    pub fn calls(&self) -> u64
        ensures value { result ≡ call_count self.now.calls }
    {
        self.calls.count()
    }

    /// Counts the fault that is answered.
    fn fault(&mut self) -> DeskError
        ensures value { result ≡ DeskError.Fault }
        ensures after { self.new ≡ record self.old { calls = with_fault self.old.calls } }
        ensures rose { Rose self.old.calls.faults self.new.calls.faults }
        ensures later { self.old.calls.faults ≤ self.new.calls.faults }
    {
        self.calls.fault();
        DeskError::Fault
    }
}

impl Desk for DeskInMemory {
    ghost held = { held_by };

    ghost left = { left_of };

    ghost faults = { λ desk. desk.calls.faults };

    fn open(&mut self, slot: Slot, name: &str) -> Result<(), DeskError>
        ensures opened { OnOk result (left_of self.new slot ≡ held_by self.old name.now) }
        ensures refused { OnErr result (left_of self.new slot ≡ left_of self.old slot) }
        ensures other { (s : Slot) → s ≢ slot → left_of self.new s ≡ left_of self.old s }
        ensures names { (n : List ℕ) → held_by self.new n ≡ held_by self.old n }
        ensures cause { HasCause DeskError.Fault self.old.calls.faults self.new.calls.faults result }

        // It fails just where its number is to fail or there is no file of this name.
        ensures fails { IsErrOf result DeskError.Fault ↔ CannotOpen self.old name.now }
        ensures only_faults { IfErr result (λ e. e ≡ DeskError.Fault) }
        ensures after_ok { OnOk result (IsSomeAnd (held_by self.old name.now)
            (λ bytes. self.new ≡ desk_after self.old slot bytes)) }
        ensures after_fault { OnErr result (self.new ≡ desk_after_fault self.old) }
    {
        if self.calls.begin_call() {
            return Err(self.fault());
        }
        if !self.store.open(slot, name) {
            return Err(self.fault());
        }
        Ok(())
    }

    fn read(&mut self, slot: Slot, buf: &mut [u8]) -> Result<usize, DeskError>
        ensures bound { IfOk result (λ n. n ≤ length buf.old) }
        ensures bytes { IfOk result (λ n. ReadsBytes (left_in self.old.store slot) n buf.old buf.new) }
        ensures taken { IfOk result (λ n. left_of self.new slot ≡ remaining n (left_of self.old slot)) }
        ensures refused { OnErr result (left_of self.new slot ≡ left_of self.old slot) }
        ensures other { (s : Slot) → s ≢ slot → left_of self.new s ≡ left_of self.old s }
        ensures names { (n : List ℕ) → held_by self.new n ≡ held_by self.old n }
        ensures cause { HasCause DeskError.Fault self.old.calls.faults self.new.calls.faults result }

        // It fails just where its number is to fail, and else gives as much as it can.
        ensures fails { IsErrOf result DeskError.Fault ↔ IsToFail self.old.calls }
        ensures only_faults { IfErr result (λ e. e ≡ DeskError.Fault) }
        ensures count { IfOk result (λ n.
            n ≡ min self.old.piece (min (length buf.old) (length (left_in self.old.store slot)))) }
        ensures after_ok { IfOk result (λ n.
            self.new ≡ desk_after self.old slot (drop n (left_in self.old.store slot))) }
        ensures after_fault { OnErr result (self.new ≡ desk_after_fault self.old) }
        ensures untouched { OnErr result (buf.new ≡ buf.old) }
    {
        if self.calls.begin_call() {
            return Err(self.fault());
        }
        Ok(self.store.read(slot, buf, self.piece))
    }
}
