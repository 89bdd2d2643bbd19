//! A closed beginning of the table: how much there was of each when it was closed.

use ct_sorts::Mark;

/// How much there was when a closure was made.
#[derive(Clone, Copy, Debug)]
pub struct Stage {
    /// How much was declared.
    pub(crate) declared: Mark,
    /// How many terms the closure has.
    pub(crate) terms: u32,
    /// How many assertions it is of.
    pub(crate) roots: usize,
    /// How many of its terms are split.
    pub(crate) split: usize,
}
