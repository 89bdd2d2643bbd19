//! A line of a derivation: a clause, and why it holds.

use crate::rules::{Close, EqStep, Gate};
use ct_sorts::Items;
use ct_terms::{Lit, TermId};

/// Why a clause holds.
#[derive(Debug, Drop)]
pub enum Step {
    /// It is the literal of an assertion.
    Input(TermId),
    /// It is a clause of a Boolean term or of a choice, by the rule, with the place of an argument where the rule asks for
    /// one. Term and place are 0 where the rule has none.
    Gate(Gate, TermId, u64),
    /// A term of a datatype or codatatype is built by one of the constructors.
    Exhaust(TermId),
    /// Where all its literals are false, equations follow that contradict each other.
    Theory(Items<EqStep>, Close),
    /// It follows by unit propagation from the lines with these numbers, from 1, in their order (reverse unit propagation).
    Learn(Items<u64>),
}

/// A clause, and the step that gives it.
#[derive(Debug, Drop)]
pub struct Line {
    /// The literals in order.
    pub clause: Items<Lit>,
    /// Why it holds.
    pub step: Step,
}
