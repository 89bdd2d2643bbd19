//! How far propagation has come.

/// How far propagation has come.
#[derive(Clone, Copy, Debug, PartialEq, Eq)]
pub(crate) struct Progress {
    /// How many clauses are in the lists of their watched literals.
    pub(crate) linked: usize,
    /// How many of the short clauses have a true literal.
    pub(crate) settled: usize,
    /// How many literals of the trail were worked through.
    pub(crate) head: usize,
    /// From which literal of the trail on they are worked through again once a decision is taken back; past all where from none.
    pub(crate) low: usize,
}

/// How far it had come when a decision was made.
#[derive(Clone, Copy, Debug, PartialEq, Eq)]
pub(crate) struct Saved {
    /// How many literals of the trail had been worked through.
    pub(crate) head: usize,
    /// How many of the short clauses had a true literal.
    pub(crate) settled: usize,
    /// How many variables, the lowest ones, were known to have a value.
    pub(crate) cursor: usize,
}
