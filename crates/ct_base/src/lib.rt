//! The closures of assertions, kept from check to check.
//!
//! A session checks much the same assertions again and again. A `Base` has the sizes of all sorts, and one table that is the
//! closure of the assertions of the last check, in which the closures of earlier ones are beginnings. The next check closes
//! only what it adds.
//!
//! ```text
//! close_over(table, asserts):                                              base.rt
//!     find the first terms of table that have their numbers here          ct_restriction
//!     find the first asserts that are roots by these numbers               growing.rt
//!     go back to the last stage of no more roots                           cutting.rt
//!     copy the other asserts with their subterms, as roots                 growing.rt
//!     close the table further; put a stage where something was closed      base.rt, ct_closure
//! ```
//!
//! Design choices:
//!
//! **What is kept is tested, not promised.** Which assertions are in force, and which numbers their terms have, is a matter of
//! the stack, of which a base knows nothing. It tests at each check which of its roots are the assertions at hand, by one look
//! at each term. So a caller owes only that what is declared has grown since, or was cut with the base (`cut`), and a base may
//! be dropped at any time.
//!
//! **Stages are closed before anything deeper comes in.** A closure is made at each `push` and at each check, so that what is
//! closed at a level stands below what the levels within it add, over the declarations of that level alone. A `pop` then takes
//! the table back and closes nothing again.
#![tactic(auto)]

mod base;
mod cutting;
mod error;
mod growing;
mod stage;
mod theorems;

pub use base::Base;
pub use stage::Stage;
pub use theorems::lasting_bases;
