//! Listable sorts: how many values they have, and all of these values.
//!
//! A design choice:
//!
//! **Values by number.** A tree can be larger than any memory although its sort has one value (pairs of pairs of one constant).
//! `Finite::part` therefore returns the constructor of each value and the numbers of its fields' values, from which terms are
//! made with sharing.
#![tactic(auto)]

mod choosing;
mod count;
mod error;
mod finite;
mod known;
mod parts;
mod trees;

pub use error::FiniteError;
pub use finite::Finite;
pub use parts::Part;
