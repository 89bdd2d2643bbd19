//! The sink of the host: standard output.

ghost use Rattle.std.specs.Prelude.{◌≡◌, ◌≤◌, ◌<◌, ◌+◌, ◌⊎◌, ℕ, None, Ok, length, min, IfErr, IfOk, OnErr, OnOk};
ghost use Rattle.ct_io.specs.Fault.{HasCause, last_count};

use super::faults::FaultCount;
use crate::sink::{Sink, SinkError};
use std::io;
use std::io::Print;
use std::marker::Model;

/// The standard output of the process.
///
/// It tells no content. Every error of the host is a fault, and so is a write that takes nothing of
/// a piece. Clauses see the number of faults.
#[derive(Drop)]
pub struct HostSink<P: Print> {
    output: P,
    faults: FaultCount,
}

impl<P: Print> Model for HostSink<P> {
    ghost use Rattle.std.specs.Prelude.{ℕ};

    ghost Value = { ℕ };

    ghost view = { λ sink. sink.faults };
}

impl<P: Print> HostSink<P> {
    /// A sink that writes where the runtime prints. Takes no memory.
    pub fn new(output: P) -> HostSink<P>
        ensures value { result ≡ 0 }
    {
        HostSink {
            output,
            faults: FaultCount::new(),
        }
    }

    /// How often the host failed.
    pub fn faults(&self) -> u64
        ensures value { result ≡ self.now }
    {
        self.faults.get()
    }

    /// What the host answered to a write of the piece, where each of its errors is counted and
    /// becomes a fault. To have taken nothing of a piece is an error.
    fn settle(&mut self, answer: io::Result<usize>, piece: &[u8]) -> Result<usize, SinkError>
        ensures count { IfOk result (λ n. answer ≡ Ok n) }
        ensures passed { IfOk answer (λ n. (length piece.now ≡ 0) ⊎ (0 < n) → result ≡ Ok n) }
        ensures progress { IfOk result (λ n. 0 < length piece.now → 0 < n) }
        ensures cause { HasCause SinkError.Fault self.old self.new result }
        ensures counted { OnErr result (self.new ≡ min (self.old + 1) last_count) }
        ensures only_faults { IfErr result (λ e. e ≡ SinkError.Fault) }
    {
        match answer {
            Ok(0) if !piece.is_empty() => {
                let nothing = io::Error::from(io::ErrorKind::WriteZero);
                self.faults.settle(Err(nothing), SinkError::Fault)
            }
            answer => self.faults.settle(answer, SinkError::Fault),
        }
    }
}

impl<P: Print> Sink for HostSink<P> {
    ghost written = { λ _. None };

    ghost faults = { λ count. count };

    fn write(&mut self, piece: &[u8]) -> Result<usize, SinkError>
        ensures bound { IfOk result (λ n. n ≤ length piece.now) }
        ensures progress { IfOk result (λ n. 0 < length piece.now → 0 < n) }
        ensures cause { HasCause SinkError.Fault self.old self.new result }

        // Each fault that is answered is counted, and nothing else is.
        ensures counted { OnErr result (self.new ≡ min (self.old + 1) last_count) }
        ensures uncounted { OnOk result (self.new ≡ self.old) }
        ensures only_faults { IfErr result (λ e. e ≡ SinkError.Fault) }
    {
        let answer = self.output.write_some(piece);
        self.settle(answer, piece)
    }
}
