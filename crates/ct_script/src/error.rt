//! The error of a session: out of memory.

use std::alloc::{AllocError, AllocFailed};

/// Memory ran out. Nothing else goes wrong in a session: a command that is refused is answered.
#[derive(Clone, Copy, Debug, PartialEq, Eq)]
pub struct SessionError;

impl From<AllocError> for SessionError {
    ghost use Rattle.std.specs.Prelude.{⊤};

    ghost from_gives = { λ _ e. ⊤ };

    fn from(_error: AllocError) -> SessionError {
        SessionError
    }
}

impl<T: Drop> From<AllocFailed<T>> for SessionError {
    ghost use Rattle.std.specs.Prelude.{⊤};

    ghost from_gives = { λ _ e. ⊤ };

    fn from(_error: AllocFailed<T>) -> SessionError {
        SessionError
    }
}
