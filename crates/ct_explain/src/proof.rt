//! The steps of a line up to an equation.

use ct_log::EqStep;

/// Equality steps, numbered from 0, that a line of a derivation has.
#[derive(Debug, Drop)]
pub struct EqProof {
    /// The steps, in order.
    pub steps: Vec<EqStep>,
}
