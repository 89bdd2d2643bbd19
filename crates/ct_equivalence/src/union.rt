//! What a union returns.

use ct_terms::TermId;

/// The class of `loser` was put to the class of `winner`. Both represented their classes.
#[derive(Clone, Copy, Debug, PartialEq, Eq)]
pub struct Union {
    /// The representative that both classes have now.
    pub winner: TermId,
    /// The representative that is one no more.
    pub loser: TermId,
}
