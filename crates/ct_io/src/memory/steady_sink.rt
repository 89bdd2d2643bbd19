//! A sink in memory that never fails.

ghost use Rattle.std.specs.Prelude.{◌≡◌, ◌≤◌, ◌<◌, [], ◌++◌, Some, length, take, IfErr, IfOk, OnErr};
ghost use Rattle.ct_io.specs.Bytes.{appended};
ghost use Rattle.ct_io.specs.Fault.{HasCause};

use crate::sink::{Sink, SinkError};
use std::alloc::Global;
use std::marker::Model;

/// A sink in memory that never fails. Clauses see the bytes so far.
#[derive(Drop)]
pub struct SteadySink {
    bytes: Vec<u8>,
}

impl Model for SteadySink {
    ghost use Rattle.std.specs.Prelude.{List, ℕ};

    ghost Value = { List ℕ };

    ghost view = { λ sink. sink.bytes.items };
}

impl SteadySink {
    /// A sink with no bytes so far. Takes no memory.
    pub fn new(alloc: Global) -> SteadySink
        ensures value { result ≡ [] }
    {
        SteadySink {
            bytes: Vec::new(alloc),
        }
    }

    /// The bytes so far.
    pub fn bytes(&self) -> &[u8]
        ensures value { result.now ≡ self.now }
    {
        self.bytes.as_slice()
    }
}

impl Sink for SteadySink {
    ghost written = { λ bytes. Some bytes };

    ghost faults = { λ _. 0 };

    fn write(&mut self, piece: &[u8]) -> Result<usize, SinkError>
        ensures bound { IfOk result (λ n. n ≤ length piece.now) }
        ensures progress { IfOk result (λ n. 0 < length piece.now → 0 < n) }
        ensures taken { IfOk result (λ n.
            Some self.new ≡ appended (take n piece.now) (Some self.old)) }
        ensures refused { OnErr result (Some self.new ≡ Some self.old) }
        ensures cause { HasCause SinkError.Fault 0 0 result }

        // It takes the whole piece, unless memory runs out.
        ensures whole { IfOk result (λ n. n ≡ length piece.now) }
        ensures after { IfOk result (λ _. self.new ≡ self.old ++ piece.now) }
        ensures only_memory { IfErr result (λ e. e ≡ SinkError.NoMemory) }
    {
        self.bytes.extend_from_slice(piece)?;
        Ok(piece.len())
    }
}
