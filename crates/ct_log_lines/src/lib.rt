//! Parses the items of derivations one by one: term lines, lines with their rules, and the first and the last item.
//!
//! A design choice:
//!
//! **Words of derivations.** `ct_log_lines` compares the word of an item with the words of its rules, each next to the code
//! that reads it, and does not use the table of `ct_words`: the contract refuses a missing rule. No clause says that the table
//! has the same words.
#![tactic(auto)]

mod closing;
mod equality;
mod form;
mod gates;
mod line;
mod literal;
mod pair;
mod term_lines;

pub use form::{first_of, parts_after, parts_of, term_numbered};
pub use gates::{gate_name, has_place, has_term};
pub use line::{header_in, is_end, line_in};
pub use term_lines::{TermKind, TermLine, has_name, is_constant_line, kind_word, term_line};
