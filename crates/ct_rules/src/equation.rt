//! Equations between terms, by their numbers.

use ct_terms::TermId;

/// That two terms are equal.
#[derive(Clone, Copy, Debug, PartialEq, Eq)]
pub struct Equation {
    /// The left side.
    pub left: TermId,
    /// The right side.
    pub right: TermId,
}
