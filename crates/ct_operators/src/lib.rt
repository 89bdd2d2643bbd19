//! Operators and choices: their core terms over terms of a table, and the state of the table while terms are made.
#![tactic(auto)]

mod chains;
mod choosing;
mod combining;
mod following;
mod making;
mod operator;
mod operators;
mod theorems;

pub use choosing::{Guarded, choices};
pub use combining::combine;
pub use following::follow;
pub use making::make;
pub use operator::Operator;
pub use theorems::term_theorems;
