//! The operators of the core theory.

/// An operator of the core theory (SMT-LIB 2.7, section 3.7.1, theory Core).
#[derive(Clone, Copy, Debug, PartialEq, Eq)]
pub enum CoreOperator {
    /// `not`, of one.
    Not,
    /// `and`, of one or more.
    And,
    /// `or`, of one or more.
    Or,
    /// `xor`, of two or more, left associative.
    Xor,
    /// `=>`, of two or more, right associative.
    Implies,
    /// `=`, of two or more of one sort, each equal to the next.
    Equal,
    /// `distinct`, of two or more of one sort, pairwise different.
    Distinct,
    /// `ite`, of a condition and two of one sort.
    Ite,
}
