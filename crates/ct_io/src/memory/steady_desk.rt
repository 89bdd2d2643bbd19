//! A desk in memory that never fails.

ghost use Rattle.std.specs.Prelude.{◌≡◌, ◌≢◌, ◌≤◌, ℕ, List, length, drop, min, IfOk, IsOk, IsOkAnd, OnErr, OnOk};
ghost use Rattle.ct_io.specs.Bytes.{remaining, ReadsBytes};
ghost use Rattle.ct_io.specs.Fault.{HasCause};
ghost use Rattle.ct_io.specs.FileStore.{contents, unopened, left_in, with_left};
ghost use Rattle.ct_io.specs.SteadyDesk.{bytes_under, held_by, left_of};

use super::store::FilesInMemory;
use crate::desk::{Desk, DeskError, Slot};
use crate::text::Text;
use std::marker::Model;

/// A desk in memory that never fails. A name that is not there is an empty file.
#[derive(Drop)]
pub struct SteadyDesk {
    store: FilesInMemory,
}

impl Model for SteadyDesk {
    ghost use Rattle.ct_io.specs.FileStore.{FileStore};

    ghost Value = { FileStore };

    ghost view = { λ desk. desk.store };
}

impl SteadyDesk {
    /// A desk with these files; of two files with one name the first counts. Takes no memory.
    pub fn new(files: Vec<(Text, Vec<u8>)>) -> SteadyDesk
        ensures value { result ≡ unopened (contents files.items) }
    {
        SteadyDesk {
            store: FilesInMemory::new(files),
        }
    }
}

impl Desk for SteadyDesk {
    ghost held = { held_by };

    ghost left = { left_of };

    ghost faults = { λ _. 0 };

    fn open(&mut self, slot: Slot, name: &str) -> Result<(), DeskError>
        ensures opened { OnOk result (left_of self.new slot ≡ held_by self.old name.now) }
        ensures refused { OnErr result (left_of self.new slot ≡ left_of self.old slot) }
        ensures other { (s : Slot) → s ≢ slot → left_of self.new s ≡ left_of self.old s }
        ensures names { (n : List ℕ) → held_by self.new n ≡ held_by self.old n }
        ensures cause { HasCause DeskError.Fault 0 0 result }

        ensures succeeds { IsOk result }
        ensures after { self.new ≡ with_left self.old slot (bytes_under self.old name.now) }
    {
        if !self.store.open(slot, name) {
            self.store.clear(slot);
        }
        Ok(())
    }

    fn read(&mut self, slot: Slot, buf: &mut [u8]) -> Result<usize, DeskError>
        ensures bound { IfOk result (λ n. n ≤ length buf.old) }
        ensures bytes { IfOk result (λ n. ReadsBytes (left_in self.old slot) n buf.old buf.new) }
        ensures taken { IfOk result (λ n. left_of self.new slot ≡ remaining n (left_of self.old slot)) }
        ensures refused { OnErr result (left_of self.new slot ≡ left_of self.old slot) }
        ensures other { (s : Slot) → s ≢ slot → left_of self.new s ≡ left_of self.old s }
        ensures names { (n : List ℕ) → held_by self.new n ≡ held_by self.old n }
        ensures cause { HasCause DeskError.Fault 0 0 result }

        // It gives all that is left, where there is room.
        ensures count { IsOkAnd result (λ n.
            n ≡ min (length buf.old) (length (left_in self.old slot))) }
        ensures after { IfOk result (λ n.
            self.new ≡ with_left self.old slot (drop n (left_in self.old slot))) }
    {
        let room = buf.len();
        Ok(self.store.read(slot, buf, room))
    }
}
