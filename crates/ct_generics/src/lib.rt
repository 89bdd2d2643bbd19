//! Parametric sorts: sort expressions, the declarations of generics and synonyms, and the blocks of them that are refused.
//!
//! A design choice:
//!
//! **Well founded.** The least set closed under its rules, defined as membership in every closed set. The code finds it with
//! one round in an order in which datatypes come after the fields from which they are built, and with plain rounds until one
//! changes nothing (`founded`). It comes before the limits on declarations in the order of causes, so the rounds may cover a
//! block with more sorts than there may be.
#![tactic(auto)]

mod add;
mod block;
mod copying;
mod decl;
mod declare;
mod error;
mod expr;
mod fields;
mod finding;
mod findings;
mod free;
mod generics;
mod graph;
mod heads;
mod ids;
mod items;
mod kind;
mod name;
mod names;
mod nodes;
mod occurring;
mod order;
mod own;
mod place;
mod reach;
mod refusal;
mod resolution;
mod room;
mod rows;
mod search;
mod shape;
mod sort_table;
mod spine;
mod substitution;
mod synonym;
mod tasks;
mod text;
mod theorems;
mod uniform;
mod vertices;

pub use add::add_sorts;
pub use decl::{CtorDecl, Field, SortDecl};
pub use declare::{add_block, add_named};
pub use error::GenericError;
pub use expr::SortExpr;
pub use finding::find_expression;
pub use free::are_free;
pub use generics::Generics;
pub use graph::{Vertex, founded};
pub use heads::{StoredHead, StoredSynonym};
pub use ids::ExprIds;
pub use items::Items;
pub use kind::Kind;
pub use name::Name;
pub use names::Names;
pub use nodes::{ExprId, Expressions, HeadId, Node};
pub use occurring::determined;
pub use reach::{Reached, reached_graph};
pub use resolution::resolve;
pub use room::Room;
pub use rows::field_rows;
pub use search::{is_mixed, reached};
pub use sort_table::SortTable;
pub use spine::{Spine, head_and_args};
pub use substitution::substitute;
pub use synonym::add_synonym;
pub use text::text_lengths;
pub use theorems::{additions, denotations, expressions, graphs, instances};
