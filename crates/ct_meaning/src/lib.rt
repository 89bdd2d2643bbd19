//! What formulas mean in an interpretation, and that their core terms mean the same.
#![tactic(auto)]

mod theorems;

pub use theorems::meanings;
