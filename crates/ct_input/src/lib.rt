//! The bytes of a slot, in a reader of S-expressions, and where the bytes of its commands stand.
#![tactic(auto)]

mod feeding;
mod held;
mod parts;
mod places;
mod slot;
mod source;
mod theorems;

pub use feeding::{Feeding, InputError, MOST_BYTES, PIECE_BYTES, feed_once, open_slot};
pub use parts::{Span, part};
pub use slot::read_whole_slot;
pub use source::{Position, SourceReader};
pub use theorems::{last_piece, parts_stand};
