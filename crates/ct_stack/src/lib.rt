//! The assertion stack: what a script declares, defines and asserts.
//!
//! Design choices:
//!
//! **Levels are marks.** One signature, one table of core terms and one list of assertions contain everything that is in force,
//! and a level is a mark of how much of each there was when it began. So a level takes one mark, `pop` costs what it removes,
//! and nothing is elaborated or compiled again; no clause speaks of these costs. The definition has a list of levels, each with
//! all that can be named at it, and the type's view reads them off the marks (`stack_of`).
//!
//! **All levels or none.** A `pop` of more levels than there are removes none, and a `push` of more than there may be adds
//! none. The outermost level is counted neither in the limit nor in `:assertion-stack-levels`.
//!
//! **Assumptions have a level of their own.** The sorts that they need are created at it. After the check the level is taken back,
//! with these sorts, or without them where the check is refused or runs out of memory. It does not count towards the limit of
//! levels.
//!
//! **Terms of `get-value`.** They are compiled into the table of the assertions and cut off again, so error 20 counts both. A
//! term may have any sort and need not occur in an assertion: the model says what it is.
#![tactic(auto)]

mod assuming;
mod block;
mod define;
mod function;
mod levels;
mod model_values;
mod sorts;
mod stack;
mod synonym;
mod terms;
mod theorems;
mod value;

pub use assuming::Assumption;
pub use model_values::ModelValues;
pub use stack::AssertionStack;
