//! The rules of equality: congruence, datatypes and codatatypes, as relations between equations.
//!
//! A design choice:
//!
//! **Pairs of `unique`.** A pair may consist of any two terms of one constructor, even of a datatype: trees that agree at their
//! roots, and whose children are again such pairs, agree at every depth.
#![tactic(auto)]

mod equation;
mod theorems;

pub use equation::Equation;
pub use theorems::derivations;
