//! The common part of audits: parses a text as a single expression, and replays a script up to one of its checks.
#![tactic(auto)]

mod error;
mod expression;
mod replay;

pub use error::ReplayError;
pub use expression::one_expression;
pub use replay::find_check;
