//! The initial lines of a derivation: the clauses of assertions, gates and splits with which a search begins.
#![tactic(auto)]

mod exhausts;
mod gates;
mod growth;
mod inputs;
mod maker;
mod shapes;
mod theorems;

pub use maker::clauses;
pub use theorems::initial_lines;
