//! A union-find over the terms of a table that can be undone union by union, and tables of terms by signatures and by digests.
#![tactic(auto)]

mod alone;
mod chained;
mod digests;
mod equivalence;
mod error;
mod grouped;
mod joining;
mod parents;
mod places;
mod rows;
mod signatures;
mod step;
mod union;

pub use chained::DigestTable;
pub use digests::digest_from;
pub use equivalence::Equivalence;
pub use error::EquivalenceError;
pub use signatures::SignatureTable;
pub use union::Union;
