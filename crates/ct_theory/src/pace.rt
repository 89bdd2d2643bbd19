//! When a conflict is explained a second time: not for a while after second explanations that were no shorter.

// No second explanation is tried of so many first conflicts, since the classes for it have to be made.
const FIRST: u32 = 50;

// After so many conflicts at most a second explanation is tried again.
const LONGEST: u32 = 1023;

/// For how many conflicts no second explanation is tried.
#[derive(Clone, Copy, Debug)]
pub(crate) struct Pace {
    // For how many conflicts more nothing is tried.
    waiting: u32,
    // How many conflicts the pause after the last second explanation lasts: none where it was shorter.
    pause: u32,
}

/// The pace before the first conflict.
pub(crate) fn first_pace() -> Pace {
    Pace {
        waiting: FIRST,
        pause: 0,
    }
}

impl Pace {
    /// Whether this conflict is to be explained a second time. Counts it.
    pub(crate) fn is_due(&mut self) -> bool {
        if self.waiting > 0 {
            self.waiting -= 1;
            return false;
        }
        true
    }

    /// Notes whether a second explanation was shorter. After one that was not, the next waits for about twice as many conflicts.
    pub(crate) fn note(&mut self, shorter: bool) {
        if shorter {
            self.pause = 0;
            return;
        }
        self.pause = self.pause.saturating_mul(2).saturating_add(1).min(LONGEST);
        self.waiting = self.pause;
    }
}
