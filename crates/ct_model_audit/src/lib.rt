//! Audits of models: whether each assertion in force at a check of a script is true in a stored model.
#![tactic(auto)]

mod audit;

pub use audit::audit_model;
