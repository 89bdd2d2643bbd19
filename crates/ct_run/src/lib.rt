//! The body of a run, which does what the arguments ask for: answers a script in a session, judges a stored derivation or
//! model, or counts the answers to a generated script.
#![tactic(auto)]

mod answer;
mod audit;
mod counts;
mod generated;
mod report;
mod solve;
mod stream;
mod top;
mod turn;

pub use ct_script::{CheckResponse, ScriptError};
pub use generated::generate;
pub use report::{Report, unanswered};
pub use top::{report_usage, run};
