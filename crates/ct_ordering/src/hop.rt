//! An edge of a path through a graph.

/// An edge, by the point that it comes from and the index of the point that it goes to among the kids of that point.
#[derive(Clone, Copy, Debug, PartialEq, Eq)]
pub struct Hop {
    /// The point that the edge comes from.
    pub point: usize,
    /// The index among its kids, from 0.
    pub place: usize,
}
