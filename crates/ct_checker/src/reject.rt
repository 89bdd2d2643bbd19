//! Why a record does not pass.

/// What is wrong with a record.
#[derive(Clone, Copy, Debug, PartialEq, Eq)]
pub enum Why {
    /// The line is not accepted after those before it.
    Step,
    /// Every line is accepted, and there is none at the end with the empty clause.
    NoEmptyClause,
}

/// Where a record fails, and why.
#[derive(Clone, Copy, Debug, PartialEq, Eq)]
pub struct Reject {
    /// The number of the line, from 1; where the empty clause is missing, the number that its line would have.
    pub step: u64,
    /// What is wrong there.
    pub why: Why,
}
