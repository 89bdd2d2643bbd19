//! Counts the errors that the operating system reports.

ghost use Rattle.std.specs.Prelude.{◌≡◌, ◌≤◌, ◌+◌, Ok, Err, min, IfOk, OnErr, OnOk};
ghost use Rattle.ct_io.specs.Fault.{Rose, last_count};

use std::io;
use std::marker::Model;

/// How often the host has failed.
#[derive(Drop)]
pub(super) struct FaultCount {
    count: u64,
}

impl Model for FaultCount {
    ghost use Rattle.std.specs.Prelude.{ℕ};

    ghost Value = { ℕ };

    ghost view = { λ faults. faults.count };
}

impl FaultCount {
    /// No faults yet.
    pub(super) fn new() -> FaultCount
        ensures value { result ≡ 0 }
    {
        FaultCount { count: 0 }
    }

    /// How many faults there were.
    pub(super) fn get(&self) -> u64
        ensures value { result ≡ self.now }
    {
        self.count
    }

    /// What the host answered, where each of its errors is counted and becomes this fault.
    pub(super) fn settle<T, E: Drop>(&mut self, answer: io::Result<T>, fault: E) -> Result<T, E>
        ensures ok { IfOk answer (λ value. result ≡ Ok value) }
        ensures uncounted { OnOk answer (self.new ≡ self.old) }
        ensures err { OnErr answer (result ≡ Err fault) }
        ensures counted { OnErr answer (self.new ≡ min (self.old + 1) last_count) }
        ensures rose { OnErr answer (Rose self.old self.new) }
        ensures later { self.old ≤ self.new }
    {
        match answer {
            Ok(value) => Ok(value),
            Err(_) => {
                self.count = self.count.saturating_add(1);
                Err(fault)
            }
        }
    }
}
