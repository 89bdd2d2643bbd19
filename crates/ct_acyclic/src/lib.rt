//! Orders the classes of datatypes topologically, or finds a cycle through their constructor terms.
#![tactic(auto)]

mod acyclic;
mod answer;
mod classes;
mod edges;
mod entries;

pub use acyclic::order;
pub use answer::{Order, OrderError};
