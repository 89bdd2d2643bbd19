//! Restricts a table of terms to what some of its terms need.
#![tactic(auto)]

mod agreeing;
mod marking;
mod renaming;
mod renumbering;
mod restriction;

pub use agreeing::equal_beginning;
pub use renumbering::Renumbering;
pub use restriction::restrict;
