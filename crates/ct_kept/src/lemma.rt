//! A theory lemma: a clause with its explanation.

use ct_log::{Close, EqStep};
use ct_sorts::Items;
use ct_terms::Lit;

/// A clause that the theory gave, over the terms of a table: where all its literals are false, equations follow that contradict
/// each other.
#[derive(Debug, Drop)]
pub struct Lemma {
    /// The literals, in order.
    pub clause: Items<Lit>,
    /// How the equations follow.
    pub steps: Items<EqStep>,
    /// How they contradict each other.
    pub close: Close,
}
