//! What the names of generics mean at given sorts: constructors and fields of instances, and the sorts of parameters.
#![tactic(auto)]

mod among;
mod determined;
mod matched;
mod matching;

pub use among::{NamedCtor, ctor_among, field_among};
pub use determined::{has_determined_sort, sort_text};
pub use matched::matched_with;
pub use matching::Matching;
