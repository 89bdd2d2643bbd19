//! Nodes of a graph, and their heads.

use crate::node_ids::NodeIds;
use ct_sorts::{CtorId, SortId};

/// The number of a node in its graph, from 0 on.
#[derive(Clone, Copy, Debug, PartialEq, Eq, Hash)]
pub struct NodeId(pub u64);

/// A node of a graph.
#[derive(Debug, Drop)]
pub enum Node {
    /// A constructor with the nodes of its arguments, in order.
    Con(CtorId, NodeIds),
    /// An element of a sort without constructors, by its number from 0 on. Elements with two numbers differ.
    Elem(SortId, u64),
}

/// What stands at the top of a value.
#[derive(Clone, Copy, Debug, PartialEq, Eq, Hash)]
pub enum Head {
    /// A constructor.
    Con(CtorId),
    /// An element of a sort, by its number.
    Elem(SortId, u64),
}
