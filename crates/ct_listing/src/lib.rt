//! Listable sorts, and the lists of their closed values.
//!
//! A design choice:
//!
//! **A closed value is a type of its own.** It has constructors only. What it is as a value, as a term and as a formula is
//! therefore a recursion without impossible cases. The list of a sort is cut off at a depth, the number of sorts, which no
//! value of a listable sort exceeds. So it is a function that definitions above can use, and its law on the lists of fields is
//! a theorem.
#![tactic(auto)]

mod theorems;

pub use theorems::listed_values;
