//! What is computed for the definitions that a formula needs: which parameters occur, and the notes on the body.
ghost use Rattle.std.specs.Prelude.{◌≡◌, ◌<◌, List, length, map, Some, None, slice_get, nat_eq, if◌then◌else◌, OnOk};
ghost use Rattle.std.specs.Bool.{OnTrue, OnFalse};
ghost use Rattle.ct_sorts.specs.declared.ids.DefId.{DefId};
ghost use Rattle.ct_sorts.specs.Declarations.{Declarations};
ghost use Rattle.ct_formulas.specs.Formula.{Formula};
ghost use Rattle.ct_formulas.specs.TreeFormula.{formula_of};
ghost use Rattle.ct_occurrence.specs.declared.definitions.Worked.{Worked};
ghost use Rattle.ct_occurrence.specs.Marks.{worked_in, row_in, IsKnown};
ghost use Rattle.ct_occurrence.specs.Working.{AreRight};

use crate::notes::Notes;
use ct_formulas::Tree;
use ct_sorts::DefId;
use indexmap::IndexMap;
use std::alloc::{AllocError, Global};

/// What is worked out of a definition.
#[derive(Debug, Drop)]
pub struct Worked {
    /// The flags of the parameters, in order: those that occur in the core term of the body are set.
    pub flags: Vec<bool>,
    /// The notes on the body alone.
    pub notes: Vec<Notes>,
    /// How deep the body nests, and the call itself with it.
    pub height: usize,
}

/// What is worked out, by the numbers of definitions.
pub type Definitions = IndexMap<u32, Worked>;

/// No notes on definitions.
pub fn no_definitions(alloc: Global) -> Definitions
    ensures right { (d : Declarations) (bodies : List Formula) → AreRight d bodies (worked_in result) }
{
    IndexMap::new(alloc)
}

/// Whether the definition is worked out.
pub(crate) fn is_known(definitions: &Definitions, k: DefId) -> bool
    ensures known { OnTrue result (IsKnown (worked_in definitions.now) k) }
    ensures unknown { OnFalse result (worked_in definitions.now k ≡ None) }
{
    match definitions.get(&k.0) {
        Some(_) => true,
        None => false,
    }
}

/// The flags of a definition's parameters, in order.
pub fn row_at(definitions: &Definitions, k: DefId) -> &[bool]
    requires known { IsKnown (worked_in definitions.now) k }
    ensures value { row_in (worked_in definitions.now) k ≡ Some result.now }
{
    match definitions.get(&k.0) {
        Some(worked) => worked.flags.as_slice(),
        None => unreachable!(),
    }
}

/// The notes on a definition's body alone.
pub fn notes_at(definitions: &Definitions, k: DefId) -> &[Notes]
    requires known { IsKnown (worked_in definitions.now) k }
    ensures value { (w : Worked) → worked_in definitions.now k ≡ Some w → result.now ≡ w.notes.items }
{
    match definitions.get(&k.0) {
        Some(worked) => worked.notes.as_slice(),
        None => unreachable!(),
    }
}

/// How deep the body of a definition and a call of it nest, or 0 if there are no notes on it. It steers when a call is
/// put off, and says nothing of what is compiled.
pub fn height_at(definitions: &Definitions, k: DefId) -> usize {
    match definitions.get(&k.0) {
        Some(worked) => worked.height,
        None => 0,
    }
}

/// Puts down what is worked out of a definition.
pub(crate) fn put(definitions: &mut Definitions, k: DefId, worked: Worked) -> Result<(), AllocError>
    ensures only { OnOk result ((j : DefId) → worked_in definitions.new j ≡ (if nat_eq k.0 j.0 then Some worked else worked_in definitions.old j)) }
{
    definitions.insert(k.0, worked)?;
    Ok(())
}

/// The body of a definition.
pub(crate) fn body_at(bodies: &[Tree], k: DefId) -> &Tree
    requires inside { k.0 < length bodies.now }
    ensures value { slice_get (map formula_of bodies.now) k.0 ≡ Some (formula_of result.now) }
{
    &bodies[k.0 as usize]
}
