//! Prints values: a small finite tree as a constructor term, any other value as its minimal graph.
//!
//! Design choices:
//!
//! **What texts cost.** Almost nothing of the text of a large value can be written before its minimal graph is known, because
//! each cell may equal an earlier one. Besides its own bytes, a text therefore needs the part that the root reaches, its
//! classes and its minimal graph: eight to eleven times the text's length for lists.
//!
//! **Texts of values.** Element n of the sort U is `(as @U_n U)`, with each name quoted by its own bytes. A finite tree of at
//! most 1,000 nodes, counted with repetition, is written as a constructor term, and every other value as its minimal graph. Two
//! nodes of one sort have the same text exactly if they are equal.
#![tactic(auto)]

mod graph_text;
mod text;
mod theorems;
mod tree_text;
mod writing;

pub use theorems::value_texts;
pub use writing::value_text;
