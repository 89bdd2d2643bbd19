//! Graphs of nodes, the values that their nodes represent, and equality of values.
//!
//! Design choices:
//!
//! **How equality is decided.** The part that the two nodes reach is copied into three parallel lists. Finite trees get their
//! classes by hash-consing in one pass, children before parents. If no other node is left, each class is named after its least
//! node, and that is all. Otherwise all nodes go through one partition refinement, in which these trees are points without
//! children. Finite values take time nearly linear in nodes and children; cycles of n nodes take nearly n log n.
//!
//! **Breadth first.** `IsBreadthFirst` says where numbers first occur among the root and the children of node 0, 1 and so on,
//! and that each node except the root is a child of an earlier one. The first condition alone would admit a node that only
//! itself reaches.
//!
//! **Two types of values.** `Value` in the code tells a reader what a value is, with 64-bit numbers for elements. Definitions
//! use `Value` of `specs`, in which these numbers have no bound.
#![tactic(auto)]

mod bisimilarity;
mod equality;
mod error;
mod finite;
mod fitting;
mod graph;
mod indices;
mod key;
mod least;
mod minimising;
mod node;
mod node_ids;
mod packed;
mod points;
mod postorder;
mod reach;
mod shape;
mod shared;
mod theorems;
mod value;

pub use equality::same;
pub use error::ValueError;
pub use fitting::{fits, has_sort, sort_of};
pub use graph::{Graph, are_below, are_closed, has_children_below, have_children_below};
pub use minimising::{minimal, minimise};
pub use node::{Head, Node, NodeId};
pub use node_ids::NodeIds;
pub use packed::PackedGraph;
pub use shared::SharedGraph;
pub use theorems::{
    agreement, boolean_values, finite_values, fitting_graphs, longer_graphs, minimal_graph,
    representative_nodes, well_sorted_values,
};
pub use value::Value;
