//! When a guided search restarts: after as many conflicts as the sequence of Luby, Sinclair and Zuckerman (1993) says.

// How many conflicts the sequence's 1 stands for.
const UNIT: u64 = 64;

/// Where the sequence stands.
#[derive(Clone, Copy, Debug)]
pub(crate) struct Luby {
    // The element, and the number from which it follows (Knuth's reluctant doubling).
    element: u64,
    number: u64,
    // The conflicts since the last restart.
    since: u64,
}

impl Luby {
    /// The start.
    pub(crate) fn new() -> Luby {
        Luby {
            element: 1,
            number: 1,
            since: 0,
        }
    }

    /// Counts a conflict.
    pub(crate) fn count(&mut self) {
        self.since = self.since.saturating_add(1);
    }

    /// Whether it is time for a restart.
    pub(crate) fn is_due(&self) -> bool {
        self.since >= self.element.saturating_mul(UNIT)
    }

    /// Goes on to the next element.
    pub(crate) fn advance(&mut self) {
        self.since = 0;
        if self.number & self.number.wrapping_neg() == self.element {
            self.number = self.number.saturating_add(1);
            self.element = 1;
        } else {
            self.element = self.element.saturating_mul(2);
        }
    }
}
