//! Why a command is not answered.
ghost use Rattle.std.specs.Prelude.{◌≡◌};
ghost use Rattle.ct_command.specs.declared.error.CommandError.TheVariants.{NoMemory};

use std::alloc::{AllocError, AllocFailed};

/// Why a command is not answered.
#[derive(Clone, Copy, Debug, PartialEq, Eq)]
pub enum CommandError {
    /// The command is refused, with the number of its first error.
    Refused(u16),
    /// Memory ran out.
    NoMemory,
}

/// The number of the error of an expression that is no command of its word.
pub const WRONG_FORM: u16 = 57;

/// The number of the error of a word that begins no command.
pub const UNKNOWN_COMMAND: u16 = 56;

impl From<AllocError> for CommandError {
    ghost from_gives = { λ _ e. e ≡ NoMemory };

    fn from(_error: AllocError) -> CommandError {
        CommandError::NoMemory
    }
}

impl<T: Drop> From<AllocFailed<T>> for CommandError {
    ghost from_gives = { λ _ e. e ≡ NoMemory };

    fn from(_error: AllocFailed<T>) -> CommandError {
        CommandError::NoMemory
    }
}
