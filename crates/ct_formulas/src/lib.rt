//! Formulas as trees: their sorts, the core terms that they compile to, and the variables that occur in these.
#![tactic(auto)]

mod theorems;
mod tree;

pub use theorems::{formulas, scopes};
pub use tree::{Case, Pattern, Quantifier, Tree};
