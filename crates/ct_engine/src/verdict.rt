//! The verdict of a check.

use ct_eval::Interp;
use ct_log::Derivation;
use ct_sorts::Items;
use ct_terms::TermId;

/// A move of a search.
#[derive(Clone, Copy, Debug, PartialEq, Eq)]
pub enum Move {
    /// The variable is made false.
    Decide(TermId),
    /// The clause of the line with this number, from 1, is added: the theory gave it, or an earlier search of the check learned it.
    Add(u64),
    /// The clause of the line with this number, from 1, is learned from a conflict, and so many decisions are kept.
    Learn(u64, u32),
}

/// The record of a search whose decisions were spent.
#[derive(Drop)]
pub struct Spent {
    /// How many propositional variables the closure of the assertions has.
    pub variables: u64,
    /// How many decisions were allowed, and made.
    pub budget: u64,
    /// The closure and the assertions, with a line for each clause of the search.
    pub derivation: Derivation,
    /// The moves, in order.
    pub moves: Items<Move>,
}

/// The verdict on assertions.
#[derive(Drop)]
pub enum Verdict {
    /// They hold in this interpretation.
    Sat(Interp),
    /// They hold in no interpretation: a derivation of the empty clause from them.
    Unsat(Derivation),
    /// The decisions that were allowed did not suffice.
    Unknown(Spent),
}
