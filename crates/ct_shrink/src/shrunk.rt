//! The result of shrinking a core.

use ct_core::UnsatCore;
use ct_engine::Spent;
use ct_eval::Interp;

/// Whether an assertion of a core is needed beside the others.
#[derive(Drop)]
pub enum Need {
    /// It is: the others hold in this interpretation.
    Shown(Interp),
    /// It was left open: the record of a search that spent its decisions on the others, and maybe on some that went later.
    Open(Spent),
}

/// A core that was shrunk.
#[derive(Drop)]
pub struct Shrunk {
    /// The core.
    pub core: UnsatCore,
    /// For each of its places, in order, whether the assertion there is needed.
    pub needs: Vec<Need>,
}
