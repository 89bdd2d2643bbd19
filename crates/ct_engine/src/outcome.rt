//! The ways in which parts of a search end.

use crate::verdict::Spent;
use ct_acyclic::Order;
use ct_congr::Classes;
use ct_log::Derivation;
use ct_sorts::Items;
use ct_terms::Lit;

/// How a search ends.
#[derive(Drop)]
pub(crate) enum Ending {
    /// The empty clause was derived.
    Refuted,
    /// A decision is needed, and none is left.
    Spent,
    /// Every variable has a value, and nothing contradicts the trail. The classes of datatypes have this order.
    Saturated(Order),
}

/// What a turn of a search came to.
#[derive(Drop)]
pub(crate) enum Turn {
    /// Decisions were taken back: a clause was learned from a conflict, or a guided search begins anew.
    Learned,
    /// A variable was decided.
    Decided,
    /// The search ended.
    Ended(Ending),
}

/// A candidate for a model: literals that nothing contradicts.
#[derive(Drop)]
pub(crate) struct Candidate {
    /// A literal of each variable of the closure of the assertions.
    pub(crate) literals: Items<Lit>,
    /// The classes of the terms of the closure under these.
    pub(crate) classes: Box<Classes>,
    /// The order of those of datatypes.
    pub(crate) order: Order,
}

/// What a search found.
#[derive(Drop)]
pub(crate) enum Outcome {
    /// A derivation of the empty clause.
    Unsat(Derivation),
    /// The record of a search whose decisions were spent.
    Unknown(Spent),
    /// A candidate for a model.
    Candidate(Candidate),
}
