//! Parses the answers of `get-model` back into interpretations, or gives their first error.
//!
//! Design choices:
//!
//! **Form, then script, then cycles.** An item that departs from its form is refused for that, whatever it names. An item of
//! the right form is then compared with the script, and finally its graphs are searched for cycles. So the form is a test on
//! expressions alone, and the first error of an item is one that a reader without the script finds first.
//!
//! **A constructor's own name.** A constructor whose fields determine its sort is written by its name alone, and any other one
//! by `(as C S)`, as values are written. The other form of each fits no script.
//!
//! **The numbers in a graph.** Nodes are numbered without gaps as they are written, and may refer to later ones. In the
//! interpretation they are put into a topological order of the datatypes among them, so it is well formed whatever the numbers
//! were.
//!
//! **Sorts of the nodes of a graph.** A name does not determine a sort if sorts have arguments. A node that the root reaches
//! has the one sort to which the fields of constructors lead. For a node that the root does not reach, nothing says which
//! instance is meant. It must have some sort by itself that is consistent with everything that it leads to, whatever sorts the
//! nodes below it have for other nodes (`CanHave` in `specs/Nodes.antt`). It is not required that all of them have sorts
//! together: finding that out is as hard as colouring a graph, and no value depends on it. Whether a graph has a cycle of nodes
//! of datatypes depends on no choice, because all instances of a generic are of one kind. Nodes that are not reached are not
//! put into the interpretation.
//!
//! **One node for what is repeated.** A constructor term is put into a graph by looking up each node (`pool.rt`). The positions
//! are found by hashes, and what is found there is compared, so nothing is stated about the positions. A position that is lost
//! costs a node and no more.
#![tactic(auto)]

mod defaults;
mod descent;
mod error;
mod graph_text;
mod heads;
mod item;
mod item_text;
mod model;
mod parts;
mod placing;
mod pool;
mod rows;
mod sort_text;
mod theorems;
mod trees;
mod value;
mod words;

pub use error::BackError;
pub use model::read_model;
pub use theorems::printed_models;
