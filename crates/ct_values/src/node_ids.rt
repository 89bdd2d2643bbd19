//! Lists of numbers of nodes, which contracts see as lists.

ghost use Rattle.std.specs.Prelude.{◌≡◌, IfOk};
ghost use Rattle.std.specs.Cmp.{partial_equiv_from_equiv};
ghost use Rattle.ct_values.specs.NodeIdTest.{same_nodes, same_nodes_equiv, hashed_nodes, hashed_nodes_alike};

use crate::node::NodeId;
use std::alloc::{AllocError, Global};
use std::hash::{Hash, Hasher};
use std::marker::Model;

/// Numbers of nodes, in order. Clauses see a list.
#[derive(Debug, Drop)]
pub struct NodeIds {
    ids: Vec<NodeId>,
}

impl Model for NodeIds {
    ghost use Rattle.std.specs.Prelude.{List};
    ghost use Rattle.ct_values.specs.declared.node.NodeId.{NodeId};

    ghost Value = { List NodeId };

    ghost view = { λ stored. stored.ids.items };
}

impl NodeIds {
    /// These numbers. Takes no memory.
    pub fn new(ids: Vec<NodeId>) -> NodeIds
        ensures value { result ≡ ids.items }
    {
        NodeIds { ids }
    }

    /// A copy of these numbers.
    pub fn from_slice(alloc: Global, ids: &[NodeId]) -> Result<NodeIds, AllocError>
        ensures value { IfOk result (λ copy. copy ≡ ids.now) }
    {
        Ok(NodeIds {
            ids: Vec::from_slice(alloc, ids)?,
        })
    }

    /// The numbers.
    pub fn as_slice(&self) -> &[NodeId]
        ensures value { result.now ≡ self.now }
    {
        self.ids.as_slice()
    }

    /// The vector that the numbers were made from. Takes no memory.
    pub fn into_vec(self) -> Vec<NodeId>
        ensures value { result.items ≡ self }
    {
        self.ids
    }
}

impl PartialEq for NodeIds {
    ghost eq = { same_nodes };

    ghost laws = { partial_equiv_from_equiv same_nodes_equiv };

    fn eq(&self, other: &NodeIds) -> bool {
        self.as_slice() == other.as_slice()
    }
}

impl Eq for NodeIds {
    ghost laws = { same_nodes_equiv };
}

impl Hash for NodeIds {
    ghost hash_input = { hashed_nodes };

    ghost respects_eq = { hashed_nodes_alike };

    fn hash<H: Hasher>(&self, state: &mut H) {
        self.as_slice().hash(state);
    }
}
