//! The coarsest stable partition of labelled points with ordered children.
#![tactic(auto)]

mod children;
mod error;
mod groups;
mod key;
mod numbers;
mod parents;
mod partition;
mod points;
mod rounds;
mod splitting;
mod waiting;

pub use error::OutOfMemory;
pub use partition::coarsest;
pub use points::are_points;
