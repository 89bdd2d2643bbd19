//! A sink in memory, of which chosen writes fail.

ghost use Rattle.std.specs.Prelude.{◌≡◌, ◌≤◌, ◌<◌, ◌↔◌, [], length, take, min, IfOk, IsErrOf, OnErr};
ghost use Rattle.ct_io.specs.Bytes.{appended};
ghost use Rattle.ct_io.specs.Calls.{no_calls, IsToFail, with_fault};
ghost use Rattle.ct_io.specs.Fault.{HasCause, Rose};
ghost use Rattle.ct_io.specs.MemorySink.{written_to, sink_after, sink_after_fault, sink_after_no_memory};

use super::calls::NumberedCalls;
use crate::sink::{Sink, SinkError};
use std::alloc::Global;
use std::marker::Model;

/// A sink in memory, of which chosen calls fail.
///
/// Its calls of `write` are numbered from 0.
#[derive(Drop)]
pub struct SinkInMemory {
    bytes: Vec<u8>,
    piece: usize,
    calls: NumberedCalls,
}

impl Model for SinkInMemory {
    ghost use Rattle.std.specs.Prelude.{◌<◌};
    ghost use Rattle.ct_io.specs.MemorySink.{MemorySink};

    ghost Value = { MemorySink };

    ghost view = { λ sink. record { bytes = sink.bytes.items; piece = sink.piece; calls = sink.calls } };

    ghost invariant = { λ sink. 0 < sink.piece };
}

impl SinkInMemory {
    /// A sink with no bytes so far. The calls whose numbers stand in `fail` fail, and a write takes at
    /// most `piece` bytes. Takes no memory.
    pub fn new(alloc: Global, fail: Vec<u64>, piece: usize) -> SinkInMemory
        requires some { 0 < piece }
        ensures value { result ≡ record { bytes = []; piece = piece; calls = no_calls fail.items } }
    {
        SinkInMemory {
            bytes: Vec::new(alloc),
            piece,
            calls: NumberedCalls::new(fail),
        }
    }

    /// The bytes so far.
    pub fn bytes(&self) -> &[u8]
        ensures value { result.now ≡ self.now.bytes }
    {
        self.bytes.as_slice()
    }

    /// Counts the fault that is answered.
    fn fault(&mut self) -> SinkError
        ensures value { result ≡ SinkError.Fault }
        ensures after { self.new ≡ record self.old { calls = with_fault self.old.calls } }
        ensures rose { Rose self.old.calls.faults self.new.calls.faults }
        ensures later { self.old.calls.faults ≤ self.new.calls.faults }
    {
        self.calls.fault();
        SinkError::Fault
    }
}

impl Sink for SinkInMemory {
    ghost written = { written_to };

    ghost faults = { λ sink. sink.calls.faults };

    fn write(&mut self, piece: &[u8]) -> Result<usize, SinkError>
        ensures bound { IfOk result (λ n. n ≤ length piece.now) }
        ensures progress { IfOk result (λ n. 0 < length piece.now → 0 < n) }
        ensures taken { IfOk result (λ n.
            written_to self.new ≡ appended (take n piece.now) (written_to self.old)) }
        ensures refused { OnErr result (written_to self.new ≡ written_to self.old) }
        ensures cause { HasCause SinkError.Fault self.old.calls.faults self.new.calls.faults result }

        // It fails just where its number is to fail, and else takes as much as it can.
        ensures fails { IsErrOf result SinkError.Fault ↔ IsToFail self.old.calls }
        ensures count { IfOk result (λ n. n ≡ min self.old.piece (length piece.now)) }
        ensures after_ok { IfOk result (λ n. self.new ≡ sink_after self.old (take n piece.now)) }
        ensures after_fault { IsErrOf result SinkError.Fault → self.new ≡ sink_after_fault self.old }
        ensures after_no_memory { IsErrOf result SinkError.NoMemory
            → self.new ≡ sink_after_no_memory self.old }
    {
        if self.calls.begin_call() {
            return Err(self.fault());
        }
        let count = self.piece.min(piece.len());
        self.bytes.extend_from_slice(&piece[..count])?;
        Ok(count)
    }
}
