//! The cases of the test programs: the parts of a line, the declarations that it names, and bytes as they are shown.
#![tactic(auto)]

mod bytes;
mod case;
mod constructors;
mod declarations;
mod error;
mod sorts;

pub use bytes::{bytes_of, show_bytes, string_of};
pub use case::{
    is_word, items_of, number_of, read_case, size_of, split_named, split_word, word_of,
};
pub use constructors::ctor_of;
pub use declarations::{
    declare, declare_all, extends_start, name_of, sort_of, sorts_of, symbol_of,
};
pub use error::CaseError;
pub use sorts::sort_expr;
