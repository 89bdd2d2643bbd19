//! How many values sorts have, and how to construct values.
//!
//! Two design choices:
//!
//! **Three least sets.** Sorts with several values, sorts with finitely many, and well-founded sorts are each derived by rules
//! of one form, and the sizes are read off. It is proved that these are the greatest and the least set of the definition. A
//! default value appends a node for each sort of the signature, so a caller that needs many of them should ask once.
//!
//! **A number is told by the value.** The number of a value of an infinite sort is read along its layers: each counts one, and a
//! field beside the next layer shows a digit. So values for different numbers are not the same, over any graphs, and a value has
//! about as many layers as its number has binary digits.
#![tactic(auto)]

mod built;
mod chain;
mod choice;
mod defaults;
mod departure;
mod descent;
mod error;
mod fields;
mod founded;
mod layers;
mod made;
mod nth;
mod prepared;
mod second_values;
mod several;
mod size;
mod sizes;
mod small;
mod theorems;

pub use error::CardError;
pub use prepared::Prepared;
pub use size::Size;
pub use sizes::Sizes;
pub use theorems::{different_values, single_sorts, stable_sizes, unique_sizes};
