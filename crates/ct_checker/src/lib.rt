//! The checker of derivations. No accepted line is false in a model of the assertions.
#![tactic(auto)]

mod checker;
mod error;
mod lines;
mod reject;
mod theorems;

pub use checker::Checker;
pub use error::CheckerError;
pub use reject::{Reject, Why};
pub use theorems::accepted_lines;
