//! Topological orders of directed graphs, or cycles where there are none.
#![tactic(auto)]

mod error;
mod hop;
mod kids;
mod ordering;
mod points;
mod search;
mod theorems;

pub use error::OrderingError;
pub use hop::Hop;
pub use ordering::{Ordered, order};
pub use points::are_points;
pub use theorems::no_both;
