//! Trims derivations to the lines on which their last line rests, and extracts the cores of assertions.
//!
//! A design choice:
//!
//! **Cores are copies.** A verdict keeps its derivation, since it is reported, so `core_of` copies the table and the cited
//! lines. Places are first places: an assertion that occurs twice has one place in a core, the first.
#![tactic(auto)]

mod copies;
mod error;
mod inputs;
mod renumbering;
mod sweep;
mod trimming;
mod unsat_core;

pub use error::CoreError;
pub use trimming::trim;
pub use unsat_core::{UnsatCore, core_of};
