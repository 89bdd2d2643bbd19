//! The command line, parsed with `clap`.
//!
//! A design choice:
//!
//! **Arguments.** They are read with the kit's `clap`, as a command with four options and one positional argument. The kit's
//! own definitions say what is accepted (`takes`, `matches_of`, `fault_of`). `clap` is given no rule between them: one short
//! function of five optional values checks afterwards which of them go together (`Arguments.asked_by`).
#![tactic(auto)]

mod error;
mod number;
mod task;

pub use error::ArgumentError;
pub use task::{Task, task_of};
