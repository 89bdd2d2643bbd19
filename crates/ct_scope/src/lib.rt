//! The context in which a formula is compiled: the scope, the meaning of its variables, and the calls that are already
//! compiled. The definitions of this crate say what compiling a formula gives.
#![tactic(auto)]

mod bindings;
mod bound;
mod environment;
mod known;
mod matching;
mod open_value;
mod scope;
mod stop;
mod values;

pub use bindings::pattern_bounds;
pub use bound::Bound;
pub use environment::Environment;
pub use known::{Called, Known, call_with, known_term, remember};
pub use matching::make_test;
pub use scope::{Scope, body_at};
pub use stop::{DeferredCall, Stop};
pub use values::{ListedValue, ValueTerms, no_value_terms, value_bounds};
