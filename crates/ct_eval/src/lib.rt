//! Interpretations, what terms mean in them, and whether they make assertions true.
//!
//! Design choices:
//!
//! **Interpretations.** A graph, a table for each function, and one for each selector, for wrong applications. An uninterpreted
//! sort is the natural numbers, of which a graph shows some. A table returns the result of its first row whose arguments equal
//! the given ones, so a constant is the result of its first row.
//!
//! **Terms by number.** The value of a term is defined by a recursion bounded by the term's number, which suffices because
//! terms come after those they are built from. Two theorems (`unfolds`, `longer`) say so in the subject's terms.
//!
//! **Truth.** A term is true if its value has the constructor `true`. A negative literal over no term of the table is true, so
//! code that handles clauses first checks what they are over.
//!
//! **Finite values.** Under a node of a datatype, each node of a datatype has a smaller number. Values of datatypes are
//! therefore finite trees over elements, truth values and codata. The graph that `evaluate` returns need not keep that order:
//! it belongs to no interpretation without `is_proper`.
//!
//! **Representatives.** The node that `evaluate` gives a term is the first of its graph that is equal to the term's value. Two
//! terms therefore have the same node exactly if their values are equal. `holds` evaluates the whole table: tables are first
//! cut back to what is in force.
#![tactic(auto)]

mod application;
mod assertions;
mod boolean;
mod error;
mod fitting;
mod index;
mod interp;
mod nodes;
mod proper;
mod selection;
mod term;
mod theorems;
mod valuation;

pub use assertions::holds;
pub use error::EvalError;
pub use index::{Index, RowKey, indexed, insert_row, known};
pub use interp::{Interp, Row, Rows, Table, Tables, Valuation};
pub use nodes::is_built;
pub use proper::is_proper;
pub use term::node_of_term;
pub use theorems::{
    appended_nodes, congruence, constructor_terms, evaluation, truth_values, values_of_trees,
};
pub use valuation::{Evaluator, evaluate};
