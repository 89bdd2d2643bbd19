//! Elaboration: turns an expression into a formula with its sort, or gives its first error.
//!
//! Design choices:
//!
//! **Knowledge of earlier sorts stays right.** While the sorts of a quantifier's variables are read, a sort with arguments may
//! be added to the list of sorts. Which sorts are listable is computed once for each quantifier, and again only if the list has
//! grown. More declarations change neither whether an earlier sort is listable nor how many values it has. By `lasting`, `back`
//! and `longer` of `listed_values`, counts of earlier declarations therefore answer for later ones (`AreKnown`).
//!
//! **One step before the body.** Everything that comes before the body of a quantifier, from the form of its list of variables
//! to the number of their values, is one call that says what it leads to, even over declarations that grew, as the call for the
//! head of a list does. The recursion over terms therefore has only one more member with three steps, and `let` and quantifiers
//! share the names of bindings.
#![tactic(auto)]

mod arguments;
mod binders;
mod callees;
mod exhaustive;
mod expected;
mod generic_ctors;
mod heads;
mod leaves;
mod parts;
mod quantifiers;
mod sorting;
mod terms;
mod theorems;
mod trees;

pub use ct_names::{CheckError, CoreOperator, Param};
pub use ct_scope::Scope;
pub use sorting::{elaborate, elaborate_there, sort_of};
pub use theorems::elaboration;
