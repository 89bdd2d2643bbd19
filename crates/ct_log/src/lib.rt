//! Derivations: lines with clauses, and when a line is accepted after the lines before it.
//!
//! A design choice:
//!
//! **What a line may rest on.** A line is judged by the table, the assertions and the clauses before it, so a longer table,
//! more assertions and later lines do not affect it. Every equality step of a theory line must be right, even if nothing rests
//! on it.
#![tactic(auto)]

mod acceptance;
mod closing;
mod congruence;
mod derivation;
mod error;
mod exhaust;
mod gate;
mod head;
mod judges;
mod line;
mod lines;
mod look;
mod marks;
mod places;
mod propagation;
mod room;
mod rules;
mod steps;
mod theorems;
mod theory;
mod unique;

pub use acceptance::{accepted, accepted_at, is_accepted};
pub use derivation::Derivation;
pub use error::LogError;
pub use line::{Line, Step};
pub use lines::Record;
pub use room::Room;
pub use rules::{Close, Entry, EqStep, Gate, Hop, Pair};
pub use theorems::{lasting_acceptance, steps_follow};
