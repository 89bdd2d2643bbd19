//! The error of this crate: out of memory.
ghost use Rattle.std.specs.Prelude.{⊤};

use ct_script::SessionError;

/// Memory ran out. Nothing else goes wrong in a replay: what a script is refused for is kept in its session.
#[derive(Clone, Copy, Debug, PartialEq, Eq)]
pub struct ReplayError;

impl From<SessionError> for ReplayError {
    ghost from_gives = { λ _ e. ⊤ };

    fn from(_error: SessionError) -> ReplayError {
        ReplayError
    }
}
