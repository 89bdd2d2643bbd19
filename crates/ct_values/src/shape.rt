//! Numbers for shapes: one number for each head with a list of classes.
//!
//! A shape is spelled step by step: its head first, and then one class more at a time, each after
//! the number of what was spelled before it. So a set of steps of one size has all shapes, however
//! many children they have, and the index of the last step in it is the number of the shape
//! (hash-consing; Filliâtre and Conchon 2006).
ghost use Rattle.std.specs.Prelude.{◌≡◌, ◌<◌, length, map, slice_get, Some, IfOk, All};
ghost use Rattle.ct_values.specs.Partition.{class_at};
ghost use Rattle.ct_values.specs.Renumbering.{Stay};
ghost use Rattle.ct_values.specs.Shape.{Spells, AreSteps, first_step};

use crate::error::ValueError;
use crate::node::{Head, NodeId};
use ct_sorts::{CtorId, SortId};
use indexmap::IndexSet;

/// A step of a shape.
#[derive(Clone, Copy, Debug, PartialEq, Eq, Hash)]
pub(crate) enum ShapeStep {
    /// A constructor, which begins a shape.
    Con(CtorId),
    /// An element, which begins a shape and ends it.
    Elem(SortId, u64),
    /// After the step at the first index, one class more: the second number.
    More(usize, usize),
}

/// The number of the shape of this head over the classes of these nodes.
pub(crate) fn shape(
    steps: &mut IndexSet<ShapeStep>,
    head: Head,
    classes: &[usize],
    children: &[NodeId],
) -> Result<usize, ValueError>
    requires within { All (λ child. child.0 < length classes.now) children.now }
    requires steps { AreSteps steps.old }
    ensures steps { IfOk result (λ n. AreSteps steps.new) }
    ensures stay { IfOk result (λ n. Stay steps.old.keys steps.new.keys) }
    ensures within { IfOk result (λ n. n < length steps.new.keys) }
    ensures spells { IfOk result (λ n. Spells steps.new.keys n head (map (λ child. class_at classes.now child.0) children.now)) }
{
    let mut last = add_step(steps, first_step(head))?;
    for child in children {
        last = add_step(steps, ShapeStep::More(last, classes[child.0 as usize]))?;
    }
    Ok(last)
}

// The step that begins a shape.
fn first_step(head: Head) -> ShapeStep
    ensures value { result ≡ first_step head }
{
    match head {
        Head::Con(c) => ShapeStep::Con(c),
        Head::Elem(s, number) => ShapeStep::Elem(s, number),
    }
}

// The index of the step, which it gets here where it has none yet.
fn add_step(steps: &mut IndexSet<ShapeStep>, step: ShapeStep) -> Result<usize, ValueError>
    requires steps { AreSteps steps.old }
    ensures steps { IfOk result (λ n. AreSteps steps.new) }
    ensures stay { IfOk result (λ n. Stay steps.old.keys steps.new.keys) }
    ensures at { IfOk result (λ n. slice_get steps.new.keys n ≡ Some step) }
{
    let (index, _) = steps.insert_full(step)?;
    Ok(index)
}
