//! Sorts and generics with their field sorts, and synonyms.
use crate::items::Items;
use crate::kind::Kind;
use crate::name::Name;
use crate::nodes::{ExprId, Expressions};

/// A sort or a generic: its field sorts are shared expressions over its parameters, in which synonyms are expanded.
#[derive(Drop)]
pub struct StoredHead {
    /// Its name.
    pub name: Name,
    /// Its kind, which each of its instances has.
    pub kind: Kind,
    /// How many parameters it has: none for a sort.
    pub params: u64,
    /// The expressions of its fields, and what these are made of.
    pub template: Expressions,
    /// The field sorts of each constructor, among the expressions.
    pub ctors: Items<Items<ExprId>>,
}

/// A synonym (SMT-LIB 2.7, section 4.2.3, `define-sort`): its body is a shared expression over its parameters, in which
/// synonyms are expanded.
#[derive(Drop)]
pub struct StoredSynonym {
    /// Its name.
    pub name: Name,
    /// How many parameters it has.
    pub params: u64,
    /// The body, and what it is made of.
    pub template: Expressions,
    /// What it stands for, among the expressions.
    pub body: ExprId,
}
