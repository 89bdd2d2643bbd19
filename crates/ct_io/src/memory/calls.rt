//! Numbers calls, of which chosen ones fail.

ghost use Rattle.std.specs.Prelude.{◌≡◌, ◌≤◌, ◌↔◌, IsTrue};
ghost use Rattle.ct_io.specs.Calls.{no_calls, call_count, IsToFail, with_call, with_fault};
ghost use Rattle.ct_io.specs.Fault.{Rose};

use std::marker::Model;

/// Calls that are numbered from 0, some of which are to fail, and the faults so far.
#[derive(Drop)]
pub(crate) struct NumberedCalls {
    failing: Vec<u64>,
    next: Option<u64>,
    faults: u64,
}

impl Model for NumberedCalls {
    ghost use Rattle.ct_io.specs.Calls.{Calls};

    ghost Value = { Calls };

    ghost view = { λ calls. record { failing = calls.failing.items; next = calls.next; faults = calls.faults } };
}

impl NumberedCalls {
    /// No calls yet.
    pub(crate) fn new(failing: Vec<u64>) -> NumberedCalls
        ensures value { result ≡ no_calls failing.items }
    {
        NumberedCalls {
            failing,
            next: Some(0),
            faults: 0,
        }
    }

    /// How many calls there were, and the last count where there were more.
    pub(crate) fn count(&self) -> u64
        ensures value { result ≡ call_count self.now }
    {
        self.next.unwrap_or(u64::MAX)
    }

    /// Counts one more call and says whether it is to fail.
    pub(crate) fn begin_call(&mut self) -> bool
        ensures fails { IsTrue result ↔ IsToFail self.old }
        ensures after { self.new ≡ with_call self.old }
    {
        let Some(number) = self.next else {
            return false;
        };
        self.next = number.checked_add(1);
        self.failing.contains(&number)
    }

    /// Counts one more fault.
    pub(crate) fn fault(&mut self)
        ensures after { self.new ≡ with_fault self.old }
        ensures rose { Rose self.old.faults self.new.faults }
        ensures later { self.old.faults ≤ self.new.faults }
    {
        self.faults = self.faults.saturating_add(1);
    }
}
