//! Numbers of terms, and literals over them.

/// The number of a term in its table. `true` is 0, the default, and `false` is 1.
#[derive(Clone, Copy, Debug, Default, PartialEq, Eq, Hash)]
pub struct TermId(pub u32);

/// A Boolean term that is no negation, or the negation of one.
#[derive(Clone, Copy, Debug, PartialEq, Eq, Hash)]
pub struct Lit {
    /// The term, which is no negation.
    pub term: TermId,
    /// Whether the literal is the term itself.
    pub positive: bool,
}
