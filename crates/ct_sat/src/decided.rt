//! A decided literal.
use ct_terms::Lit;

/// A literal that was decided, with its index in the trail.
#[derive(Clone, Copy, Debug, PartialEq, Eq)]
pub struct Decided {
    /// The literal.
    pub literal: Lit,
    /// Where it stands in the trail, from 0.
    pub index: usize,
}
