//! Hash-consed terms: each has one number, and children come before their parents.
//!
//! Design choices:
//!
//! **Testers over Bool.** `true` and `false` are constructors, so a tester or a constructor term over them is well sorted.
//! Equality of Boolean terms is `iff`, never `=`.
//!
//! **Hashes of arguments.** Each argument is added to the digest, the upper half of the sum is combined with the lower half by
//! exclusive or, and the result is multiplied by an odd number. So no two numbers take one digest to the same result, and the
//! digest is not a polynomial, for which lists with one digest are easily found.
//!
//! **Sets of literals.** In unit propagation a set is a list to whose end each unit is appended. It makes no difference if a
//! literal occurs in a clause several times. A hint that is not the number of a clause is not accepted.
#![tactic(auto)]

mod args;
mod error;
mod ids;
mod sorting;
mod table;
mod term;
mod theorems;
mod tree_theorems;

pub use args::Args;
pub use error::TermError;
pub use ids::{Lit, TermId};
pub use sorting::is_well_sorted;
pub use table::TermTable;
pub use term::Core;
pub use theorems::{one_lasting_sort, propagation_is_sound};
pub use tree_theorems::core_trees;
