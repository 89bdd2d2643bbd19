//! What a formula may name: declarations, and definitions with their bodies.
ghost use Rattle.std.specs.Prelude.{◌≡◌, ◌<◌, length, map, Some, slice_get};
ghost use Rattle.ct_formulas.specs.TreeFormula.{formula_of};

use ct_formulas::Tree;
use ct_sorts::{DefId, Items, Signature};

/// What a script has declared and defined so far.
#[derive(Drop)]
pub struct Scope {
    /// The declarations.
    pub sig: Signature,
    /// The bodies of the definitions: at index d that of definition d.
    pub bodies: Items<Tree>,
}

/// The body of a definition.
pub fn body_at(scope: &Scope, k: DefId) -> &Tree
    requires inside { k.0 < length scope.now.bodies }
    ensures value { slice_get (map formula_of scope.now.bodies) k.0 ≡ Some (formula_of result.now) }
{
    &scope.bodies.as_slice()[k.0 as usize]
}
