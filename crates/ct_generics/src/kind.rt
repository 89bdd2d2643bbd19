//! Kinds of sorts and generics.

/// What kind of sort a sort is, or each instance of a generic.
#[derive(Clone, Copy, Debug, PartialEq, Eq, Hash)]
pub enum Kind {
    /// The sort Bool, of the two truth values.
    Bool,
    /// An uninterpreted sort (SMT-LIB 2.7, section 4.2.3, `declare-sort`).
    Free,
    /// A datatype, whose values are finite constructor trees (SMT-LIB 2.7, section 4.2.3, `declare-datatypes`).
    Data,
    /// A codatatype, whose values are finite or infinite constructor trees (cvc5, `declare-codatatypes`).
    Codata,
}
