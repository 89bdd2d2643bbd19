//! Explanations: equality steps for the equations of congruence classes.
//!
//! Design choices:
//!
//! **Explained by merges.** An explanation writes each merge that it needs once, from the first to the last, instead of the
//! equations of terms. Its length is therefore linear in these merges and their paths, even if one equation rests on two others
//! thirty times over. What a merge rests on lies on paths of earlier merges, and the path between two terms stays the same as
//! the forest grows.
//!
//! **The arguments of `explain`.** `Forest::explain` takes the classes beside the forest, which must belong to them
//! (`IsForestOfClasses`), so a forest borrows nothing. Two calls for one line may each write a merge. No clause says that one
//! call writes each merge once, and no more than needed. Of the sizes of sorts, `Classes` keeps which ones are single.
#![tactic(auto)]

mod error;
mod explain;
mod forest;
mod grounds;
mod layers;
mod merges;
mod needed;
mod planting;
mod premises;
mod proof;
mod spanning;
mod theorems;
mod uniqueness;
mod walk;
mod ways;
mod writer;

pub use error::ExplainError;
pub use forest::Forest;
pub use layers::{Implied, Layers};
pub use proof::EqProof;
pub use theorems::forests;
