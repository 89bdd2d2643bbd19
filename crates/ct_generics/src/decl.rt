//! What a block of datatypes or codatatypes declares, as it is given.

use crate::expr::SortExpr;
use crate::items::Items;
use crate::name::Name;

/// A field of a constructor: the name of its selector, and its sort (SMT-LIB 2.7, section 3.9, `selector_dec`).
#[derive(Debug, Drop)]
pub struct Field {
    /// The name of the selector.
    pub name: Name,
    /// The sort of the field, over the parameters of the declaration.
    pub sort: SortExpr,
}

/// A constructor with its fields in order (SMT-LIB 2.7, section 3.9, `constructor_dec`).
#[derive(Debug, Drop)]
pub struct CtorDecl {
    /// The name of the constructor.
    pub name: Name,
    /// Its fields.
    pub fields: Items<Field>,
}

/// A sort or a generic of a block with its constructors in order (SMT-LIB 2.7, section 3.9, `datatype_dec`).
#[derive(Debug, Drop)]
pub struct SortDecl {
    /// The name of the sort or generic.
    pub name: Name,
    /// How many parameters it has: none for a sort.
    pub params: u64,
    /// Its constructors.
    pub ctors: Items<CtorDecl>,
}
