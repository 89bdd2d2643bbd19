//! What a script has declared: sorts, constructors, selectors, functions and definitions.
//!
//! Design choices:
//!
//! **Names.** Besides declared names, `ct_sorts` excludes the ten words of the core theory, names that begin with `@` or `.`,
//! and names that contain a bar or a backslash. The last cannot occur in a symbol and are excluded for callers whose names come
//! from elsewhere. Names of commands and `Bool` may be declared: the standard reserves the former, this profile does not, and
//! sorts have a name space of their own.
//!
//! **Two name spaces.** Sorts have one. Constructors, selectors, functions and definitions share the other, which also contains
//! the ten words of the core theory. `true` and `false` are the constructors 0 and 1 and count toward the limit of 16,384.
//!
//! **The first cause.** A block is refused with the first of eight causes that applies (`IsBlockRefusal`; `add_block` lists
//! them). A name that the block repeats counts as taken. Out of memory may come instead.
//!
//! **Marks.** A mark is ten lengths, wherever it comes from. `cut_to` requires that the lists fit together after the cut
//! (`CanCut`), which is less than that the mark is a past state of this signature.
//!
//! **Instances.** `find_instance` may run out of memory, since it reads a written sort into shared expressions. `gen_fields`
//! returns such expressions instead of written ones. The number of a generic is its number among sorts without parameters and
//! generics, in the order of declaration.
#![tactic(auto)]

mod admit;
mod applied;
mod block;
mod duplicate;
mod entries;
mod error;
mod facts;
mod free;
mod getters;
mod grow;
mod ids;
mod indexed;
mod instances;
mod item;
mod kinds;
mod limits;
mod mark;
mod numbered;
mod parameters;
mod refusals;
mod signature;
mod spelling;
mod start;
mod synonyms;
mod tables;
mod text;
mod theorems;
mod unavailable;

pub use ct_generics::{CtorDecl, Field, Items, Name, SortDecl, SortExpr};
pub use error::SigError;
pub use ids::{CtorId, Declared, DefId, FunId, GenId, Kind, SelId, SortId, Symbol};
pub use mark::Mark;
pub use parameters::{are_block_parameters_below, are_parameters_below};
pub use signature::Signature;
pub use spelling::Spelling;
pub use theorems::{growth, naming, shapes, structure};
