//! The coarsest partition of congruence classes into classes that may be equal by uniqueness.
#![tactic(auto)]

mod edges;
mod error;
mod following;
mod found;
mod labelling;
mod nodes;
mod partition;
mod refining;

pub use error::UniqueError;
pub use following::pairs;
pub use partition::Partition;
pub use refining::coarsest;
