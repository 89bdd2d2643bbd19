//! The errors of reading and their numbers.

ghost use Rattle.std.specs.Prelude.{◌≡◌};
ghost use Rattle.ct_sexpr.specs.declared.error.ReadError.TheVariants.{NoMemory};

use std::alloc::{AllocError, AllocFailed};

/// The number of the error for bytes that begin no token.
pub(crate) const BEGINS_NO_TOKEN: u16 = 1;

/// The number of the error for a closing parenthesis that closes nothing.
pub(crate) const CLOSES_NOTHING: u16 = 2;

/// The number of the error for an input that ends inside a command.
pub(crate) const ENDS_INSIDE: u16 = 3;

/// The number of the error for a parenthesis that opens one list too many.
pub(crate) const NESTS_TOO_DEEP: u16 = 4;

/// The number of the error for an atom outside all parentheses.
pub(crate) const ATOM_OUTSIDE: u16 = 5;

/// The number of the error for a numeral of 2^128 or more.
pub(crate) const NUMERAL_TOO_GREAT: u16 = 6;

/// Why no command could be read or written.
#[derive(Clone, Copy, Debug, PartialEq, Eq)]
pub enum ReadError {
    /// The bytes are no script (SMT-LIB 2.7, sections 3.1, 3.2 and 3.9), or go beyond a limit of this project (4 and 6).
    Lexical {
        /// 1 where a byte begins no token, where a word that begins with a digit is no number,
        /// where a colon begins no keyword or a number sign no literal, and where a backslash
        /// stands in a quoted symbol; 2 where a closing parenthesis closes nothing, 3 where the
        /// input ends inside a command, 4 where parentheses would nest more than 1,000 deep, 5
        /// where an atom stands outside all parentheses, and 6 where a numeral is 2^128 or more.
        code: u16,
        /// The line of the byte at which the error stands, and for 3 that on which the input ends, counted from 1.
        line: u64,
    },
    /// Memory ran out.
    NoMemory,
}

impl From<AllocError> for ReadError {
    ghost from_gives = { λ _ e. e ≡ NoMemory };

    fn from(_error: AllocError) -> ReadError {
        ReadError::NoMemory
    }
}

impl<T: Drop> From<AllocFailed<T>> for ReadError {
    ghost from_gives = { λ _ e. e ≡ NoMemory };

    fn from(_error: AllocFailed<T>) -> ReadError {
        ReadError::NoMemory
    }
}
