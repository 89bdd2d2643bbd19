//! What is stored of a union so that it can be undone.

use ct_terms::TermId;

/// What the classes of two representatives were before one was put to the other.
#[derive(Clone, Copy, Debug)]
pub(crate) struct Step {
    /// The representative that both classes have.
    pub(crate) winner: TermId,
    /// The representative that is one no more, whose row of members and of uses stayed as it was.
    pub(crate) loser: TermId,
    /// How many members the first class had.
    pub(crate) members: usize,
    /// How many uses the first class had.
    pub(crate) uses: usize,
    /// Whether the first class has its constructor term from the second.
    pub(crate) gained: bool,
}
