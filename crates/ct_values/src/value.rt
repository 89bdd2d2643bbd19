//! What a value is, for readers of the code.

use crate::node::NodeId;
use ct_sorts::{CtorId, SortId};

/// A value over a graph, as definitions speak of it: a tree whose leaves may be nodes of the graph, so that a node
/// n is the value `Ref(n)`. It only tells a reader of the code what is meant by a value: no call takes one or gives
/// one, and clauses speak of the type of the same name in `specs/Value.antt`.
#[derive(Debug, Drop)]
pub enum Value {
    /// What a node of the graph stands for.
    Ref(NodeId),
    /// A constructor over values.
    Con(CtorId, Vec<Value>),
    /// An element of a sort without constructors, by its number.
    Elem(SortId, u64),
}
