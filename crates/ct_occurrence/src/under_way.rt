//! Computes the notes on one definition after those on the definitions that its body names, without recursion, however long the
//! chain of definitions is.
//!
//! The definitions that wait for another stand on a stack, each with the names in its body that are left to look at. Each
//! definition names those with smaller numbers alone, so none waits twice. Each body is gone over three times, whatever
//! names it: for the names in it, for what occurs, and for its height.
ghost use Rattle.std.specs.Prelude.{◌≡◌, ◌<◌, ◌++◌, [], ◌∷◌, length, map, Some, slice_get, nat_eq, if◌then◌else◌, IfOk, OnOk};
ghost use Rattle.ct_sorts.specs.declared.ids.DefId.{DefId};
ghost use Rattle.ct_formulas.specs.Formula.{Formula, MentionsBelow};
ghost use Rattle.ct_formulas.specs.FormulaSorts.{AreSound};
ghost use Rattle.ct_formulas.specs.TreeFormula.{formula_of};
ghost use Rattle.ct_occurrence.specs.declared.definitions.Worked.{Worked};
ghost use Rattle.ct_occurrence.specs.declared.under_way.Frame.{Frame};
ghost use Rattle.ct_occurrence.specs.Calls.{CallsAre};
ghost use Rattle.ct_occurrence.specs.Marks.{worked_in, IsKnown};
ghost use Rattle.ct_occurrence.specs.Working.{AreRight, StayKnown};
ghost use Rattle.ct_occurrence.specs.UnderWay.{AreFramesUnderWay, BeginsBody, AreLeftOut, IsWorkStep};

use crate::definitions::{Definitions, body_at, is_known, put};
use crate::names::add_names;
use crate::occurrence::occurring;
use ct_formulas::Tree;
use ct_sorts::{DefId, Signature};
use std::alloc::{AllocError, Global};

/// A definition that waits.
#[derive(Debug, Drop)]
pub(crate) struct Frame {
    /// The definition.
    pub(crate) definition: DefId,
    /// The definitions that its body names and that are left to look at.
    pub(crate) left: Vec<DefId>,
}

/// Works out a definition, and those that its body names.
pub(crate) fn work_out(
    alloc: Global,
    sig: &Signature,
    bodies: &[Tree],
    definitions: &mut Definitions,
    k: DefId,
) -> Result<(), AllocError>
    requires sound { AreSound sig.now (map formula_of bodies.now) }
    requires inside { k.0 < length bodies.now }
    requires right { AreRight sig.now (map formula_of bodies.now) (worked_in definitions.old) }
    ensures right { OnOk result (AreRight sig.now (map formula_of bodies.now) (worked_in definitions.new)) }
    ensures stay { OnOk result (StayKnown (worked_in definitions.old) (worked_in definitions.new)) }
    ensures known { OnOk result (IsKnown (worked_in definitions.new) k) }
{
    if is_known(definitions, k) {
        return Ok(());
    }
    let first = frame_of(alloc, bodies, k)?;
    let mut stack = Vec::new(alloc);
    stack.push(first)?;
    while let Some(frame) = stack.pop() {
        go_on(alloc, sig, bodies, definitions, &mut stack, frame)?;
    }
    Ok(())
}

// A definition, with the names in its body.
fn frame_of(alloc: Global, bodies: &[Tree], k: DefId) -> Result<Frame, AllocError>
    requires inside { k.0 < length bodies.now }
    requires mentions { (body : Formula) → slice_get (map formula_of bodies.now) k.0 ≡ Some body → MentionsBelow k.0 body }
    ensures begins { IfOk result (λ frame. BeginsBody (map formula_of bodies.now) k frame) }
{
    let body = body_at(bodies, k);
    let mut left = Vec::new(alloc);
    add_names(body, &mut left)?;
    Ok(Frame {
        definition: k,
        left,
    })
}

// Goes on with the last definition that waits: it waits for another, or is worked out.
fn go_on(
    alloc: Global,
    sig: &Signature,
    bodies: &[Tree],
    definitions: &mut Definitions,
    stack: &mut Vec<Frame>,
    frame: Frame,
) -> Result<(), AllocError>
    requires sound { AreSound sig.now (map formula_of bodies.now) }
    requires under_way { AreFramesUnderWay sig.now (map formula_of bodies.now) (worked_in definitions.old) (stack.old.items ++ frame ∷ []) }
    ensures step { OnOk result (IsWorkStep sig.now (map formula_of bodies.now) (worked_in definitions.old) (worked_in definitions.new) (stack.old.items ++ frame ∷ []) stack.new.items) }
{
    let mut waiting = frame;
    let found = next_unknown(definitions, &mut waiting.left)?;
    if let Some(name) = found {
        wait_for(alloc, bodies, stack, waiting, name)?;
        return Ok(());
    }
    work_out_body(alloc, sig, bodies, definitions, waiting.definition)?;
    Ok(())
}

// One of the names that is not worked out, where there is one, which stays among them. Names that are worked out may be left
// out.
fn next_unknown(
    definitions: &Definitions,
    left: &mut Vec<DefId>,
) -> Result<Option<DefId>, AllocError>
    ensures left { IfOk result (λ found. AreLeftOut (worked_in definitions.now) left.old.items left.new.items found) }
{
    while let Some(name) = left.pop() {
        if !is_known(definitions, name) {
            left.push(name)?;
            return Ok(Some(name));
        }
    }
    Ok(None)
}

// The definition waits for this one.
fn wait_for(
    alloc: Global,
    bodies: &[Tree],
    stack: &mut Vec<Frame>,
    frame: Frame,
    name: DefId,
) -> Result<(), AllocError>
    requires inside { name.0 < length bodies.now }
    requires mentions { (body : Formula) → slice_get (map formula_of bodies.now) name.0 ≡ Some body → MentionsBelow name.0 body }
    ensures pushed { OnOk result ((above : Frame) × (stack.new.items ≡ (stack.old.items ++ frame ∷ []) ++ above ∷ []) × BeginsBody (map formula_of bodies.now) name above) }
{
    let above = frame_of(alloc, bodies, name)?;
    stack.push(frame)?;
    stack.push(above)?;
    Ok(())
}

// Works out a definition, where those that its body names are worked out.
fn work_out_body(
    alloc: Global,
    sig: &Signature,
    bodies: &[Tree],
    definitions: &mut Definitions,
    k: DefId,
) -> Result<(), AllocError>
    requires sound { AreSound sig.now (map formula_of bodies.now) }
    requires inside { k.0 < length bodies.now }
    requires named { (body : Formula) → slice_get (map formula_of bodies.now) k.0 ≡ Some body → CallsAre (IsKnown (worked_in definitions.old)) body }
    requires right { AreRight sig.now (map formula_of bodies.now) (worked_in definitions.old) }
    ensures right { OnOk result (AreRight sig.now (map formula_of bodies.now) (worked_in definitions.new)) }
    ensures only { OnOk result ((worked : Worked) × ((j : DefId) → worked_in definitions.new j ≡ (if nat_eq k.0 j.0 then Some worked else worked_in definitions.old j))) }
{
    let body = body_at(bodies, k);
    let count = sig.def_args(k).len();
    let worked = occurring(alloc, sig, definitions, count, body)?;
    put(definitions, k, worked)?;
    Ok(())
}
