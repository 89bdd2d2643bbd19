//! Clauses with the numbers of the steps that gave them.
use ct_sorts::Items;
use ct_terms::Lit;

/// A clause with the number of the step that gave it.
#[derive(Debug, Drop)]
pub struct StepClause {
    /// The number of the step.
    pub step: u64,
    /// Its literals.
    pub literals: Items<Lit>,
}
