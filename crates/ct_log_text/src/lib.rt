//! Derivations as text: parsing and printing of records.
//!
//! A design choice:
//!
//! **Numbers in texts.** A number below 2^64 has the form of any number; whether it is the number of a term is checked
//! afterwards. In memory a term number has 32 bits, so a greater number becomes the greatest one, which no table reaches. The
//! text of a derivation ends with its closing parenthesis: the code that prints answers ends the line.
#![tactic(auto)]

mod built;
mod fitting;
mod named;
mod put;
mod put_line;
mod put_term;
mod read;
mod text;
mod theorems;

pub use read::{derivation_number, read_derivation};
pub use text::derivation_text;
pub use theorems::{reads_back, text_is_read};
