//! Audits of derivations: a stored derivation is judged by its script.
#![tactic(auto)]

mod answer;
mod error;
mod grow;
mod judge;
mod text;
mod theorems;

pub use answer::{AuditAnswer, audit_error, audit_text};
pub use error::AuditError;
pub use text::audit;
pub use theorems::found_checks;
