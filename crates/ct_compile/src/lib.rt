//! Compiles formulas into core terms in a table of terms.
//!
//! A design choice:
//!
//! **Values without recursion.** A value is as deep as the chain of sorts under its sort, which may be thousands. Its term is
//! therefore made with a stack of values, each of which waits for the term of one field. The invariant says of each what its
//! other fields will give, so no statement about the order of the whole is needed.
#![tactic(auto)]

mod deferring;
mod entry;
mod forms;
mod level;
mod quantification;
mod terms;

pub use ct_scope::Scope;
pub use entry::compile;
