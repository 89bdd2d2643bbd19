//! Tokens and S-expressions, read from bytes that come in any pieces, and written.
//!
//! Design choices:
//!
//! **What a word is judged by.** A word that begins with a digit is a numeral or a decimal as a whole, or error 1 at its first
//! byte: `1.` is an error and `.5` is a symbol. It is judged when it has ended, and the end of the input ends it: `(1a` there
//! is error 1, and `(1` error 3. A backslash in a quoted symbol is error 1 at once.
//!
//! **When an error in incomplete input is definite.** If the input may continue, an error is definite once no further byte can
//! belong to what is wrong. That is immediate for a byte that begins no token, an extra closing parenthesis, an atom outside
//! parentheses, and a backslash. For a word, a keyword or a literal it is the case once the first byte after it has arrived.
//! The rule refers to offsets and needs no look-ahead.
//!
//! **How an atom is stored.** A quoted symbol without its bars; a string without its quotation marks and with each inner mark
//! once; a numeral as its value; every other atom as it was written. Decimals and literals are therefore printed as they were
//! read, including case and zeros.
//!
//! **Reserved words.** Only a simple symbol can be a reserved word: `|let|` is an ordinary name. `ct_sexpr` has the list,
//! because it determines what must be quoted in print.
#![tactic(auto)]

mod atom;
mod byte_class;
mod bytes;
mod error;
mod open_lists;
mod reader;
mod reserved;
mod scan;
mod scanner;
mod sexpr;
mod theorems;
mod write;

pub use bytes::Bytes;
pub use error::ReadError;
pub use reader::{Next, Reader};
pub use reserved::{is_reserved, is_simple};
pub use sexpr::Sexpr;
pub use theorems::{
    error_positions, nested_lists, one_reading, one_text, spaced_texts, written_texts,
};
pub use write::sexpr_text;
