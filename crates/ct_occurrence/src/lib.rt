//! Occurrence: which variables of a formula occur in its core term, computed once for all of its binders and once for each
//! definition; and which definitions a formula can reach.
#![tactic(auto)]

mod cases;
mod definitions;
mod earlier;
mod fitting;
mod height;
mod matching;
mod names;
mod needed;
mod notes;
mod occurrence;
mod plain;
mod theorems;
mod under_way;

pub use cases::{body_of, pattern_of};
pub use definitions::{Definitions, Worked, height_at, no_definitions, notes_at, row_at};
pub use earlier::Earlier;
pub use matching::tested;
pub use needed::work_out_named;
pub use notes::Notes;
pub use occurrence::notes_on;
pub use theorems::reachable_definitions;
