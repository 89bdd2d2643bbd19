//! The error of this crate.
ghost use Rattle.std.specs.Prelude.{⊤};

use ct_log::LogError;

/// Memory ran out. Nothing else goes wrong in this crate.
#[derive(Clone, Copy, Debug, PartialEq, Eq)]
pub struct CheckerError;

impl From<LogError> for CheckerError {
    ghost from_gives = { λ _ e. ⊤ };

    fn from(_error: LogError) -> CheckerError {
        CheckerError
    }
}
