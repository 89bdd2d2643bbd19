//! The SAT solver: unit propagation, decisions in a fixed order, and clauses learned with their hints.
//!
//! Design choices:
//!
//! **What follows by units.** A clause forces a literal if all its other literals are false, even if that literal is false
//! itself. The set therefore grows with clauses and decisions, and there is a least one. In a contradictory state every literal
//! of a false clause is in it; elsewhere this makes no difference.
//!
//! **A conflict before the first decision.** If there are decisions and a conflict needs none of them, the unit clause against
//! the first decision is learned and no decision is left. The first unique implication point is in the code and in no clause:
//! the clauses say that what is learned follows by its hints and asserts one literal after the cut.
//!
//! **Watched literals.** Each clause with two different literals watches two, and is in a list of each, chained through the
//! clauses, so `propagate` takes no memory. Propagation goes through the trail in order, and each decision saves how far it had
//! come. A watched literal that is false and has been processed is paired with a true one, before each decision that saved
//! more, so nothing needs repair after a backjump. If a clause that is added late breaks this, a bound (`low`) says from where
//! the work is repeated. See `IsHeld` in `specs/Watching.antt`.
//!
//! **Short learned clauses.** A literal of a learned clause is left out if others imply it by one reason (`minimise.rt`). No
//! clause of a contract says how short a clause is: it follows, whichever literals are left out.
#![tactic(auto)]

mod analysis;
mod attach;
mod choose;
mod clause;
mod decided;
mod decision;
mod error;
mod learned;
mod marks;
mod minimise;
mod progress;
mod propagate;
mod search;
mod status;
mod store;
mod theorems;
mod trail;
mod value;
mod visit;
mod watch;
mod watches;

pub use clause::StepClause;
pub use decided::Decided;
pub use decision::Decision;
pub use error::SatError;
pub use learned::Learned;
pub use search::Search;
pub use theorems::{learned_clauses_follow, what_follows_by_units};
