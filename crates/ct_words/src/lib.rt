//! The words and texts that the program knows, in tables that are searched by name.
//!
//! A design choice:
//!
//! **Tables of words.** A word has its index by its first occurrence in the description of the commands, or of the lines, steps
//! and items of a derivation. Names that a script chooses, infos and logics are not words of these tables. The texts of all
//! errors are there, even of those that no command reports today. A table has 64 buckets, by length and last byte, and takes no
//! memory.
#![tactic(auto)]

mod buckets;
mod errors;
mod name_table;
mod text;
mod words;

pub use errors::error_text;
pub use name_table::NameTable;
pub use words::{
    CLIENT_OPTIONS, COMMANDS, DERIVATION_WORDS, ERROR_TEXTS, LOGIC_PARTS, OPTIONS,
    UNRESTRICTED_LOGICS, VALUE_WORDS, client_options, commands, derivation_words, error_texts,
    logic_parts, options, unrestricted_logics, value_words,
};
