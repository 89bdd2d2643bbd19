//! Shrinks unsatisfiable cores. Each assertion that is left is needed, as an interpretation of the others shows, or the record
//! of a search shows that it spent its decisions on that question.
//!
//! A design choice:
//!
//! **A core is shrunk by deletion, in the order of its places.** The check without a place has a table that is restricted to
//! the other assertions, and a store of its own, which begins with the lemmas of the core's derivation and takes those of each
//! check that ends in `unsat` or `unknown`. So nothing in the session's store changes. After `unsat` that place is removed and
//! no other one, even if the new derivation rests on fewer assertions. Which of the given places are left therefore depends on
//! the assertions and the limit, and not on what a later derivation happens to cite.
#![tactic(auto)]

mod asking;
mod error;
mod facts;
mod shrinking;
mod shrunk;
mod theorems;

pub use error::ShrinkError;
pub use shrinking::shrink;
pub use shrunk::{Need, Shrunk};
pub use theorems::cores_of_refutations;
