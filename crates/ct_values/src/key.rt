//! The key of a node: its head over the classes of its children.

ghost use Rattle.std.specs.Prelude.{◌≡◌, ◌<◌, length, IfOk, All, map};
ghost use Rattle.ct_values.specs.Partition.{class_at};

use crate::error::ValueError;
use crate::indices::Indices;
use crate::node::{Head, NodeId};
use std::alloc::Global;

/// What tells a node's value where the classes tell those of its children: its head, and the classes of its children.
#[derive(Debug, Drop, PartialEq, Eq, Hash)]
pub(crate) struct Key {
    pub(crate) head: Head,
    pub(crate) children: Indices,
}

/// The classes of these nodes.
pub(crate) fn classes_of(
    alloc: Global,
    classes: &[usize],
    nodes: &[NodeId],
) -> Result<Vec<usize>, ValueError>
    requires within { All (λ n. n.0 < length classes.now) nodes.now }
    ensures value { IfOk result (λ list. list.items ≡ map (λ n. class_at classes.now n.0) nodes.now) }
{
    let mut list = Vec::with_capacity(alloc, nodes.len())?;
    for n in nodes {
        list.push(classes[n.0 as usize])?;
    }
    Ok(list)
}
