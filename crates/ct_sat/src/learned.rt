//! What is learned from a conflict.
use ct_sorts::Items;
use ct_terms::Lit;

/// What a conflict teaches.
#[derive(Debug, Drop)]
pub enum Learned {
    /// A clause.
    Clause {
        /// Its literals.
        lits: Items<Lit>,
        /// The numbers of the steps by which it follows, in order.
        hints: Items<u64>,
        /// How many decisions are stored.
        keep: u32,
    },
    /// The empty clause.
    Empty {
        /// The numbers of the steps by which it follows, in order.
        hints: Items<u64>,
    },
}
