//! The theory solver for datatypes and codatatypes: whether literals are consistent.
//!
//! Design choices:
//!
//! **One conflict at a time.** `consult` closes the classes, then looks for a cycle, and then for bisimilar classes, of which
//! it makes one pair equal before it closes again. So each conflict is found by the simplest rule that shows it, and rests on
//! few literals.
//!
//! **One forest, and classes for a second explanation.** Besides its classes the theory keeps a forest of their first merges,
//! which grows when a conflict is explained and goes back with the classes. Once a conflict has been explained a second time,
//! it also keeps classes that receive all literals at once (`src/aside.rt`, `src/shorter.rt`). After an error these are gone.
//!
//! **A second explanation only where it may pay.** A conflict of more than three literals is explained a second time, except
//! for the first fifty of them, and after a fruitless one only when twice as many as before have passed (`src/pace.rt`). The
//! classes for it cost as much as all terms do: where lemmas keep conflicts rare, that is a third of the time or more, and
//! saves nothing.
//!
//! **Finite constructor terms.** If each constructor term with arguments is of a datatype, bisimilar classes in an order are
//! one class (`finite_classes`), so no partition is made.
#![tactic(auto)]

mod answer;
mod aside;
mod asking;
mod clause;
mod conflict;
mod cycle;
mod error;
mod finite;
mod pace;
mod refuting;
mod shorter;
mod telling;
mod turn;
mod walk;
mod watched;

pub use asking::{Consulted, Theory};
pub use conflict::Conflict;
pub use error::TheoryError;
