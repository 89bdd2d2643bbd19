//! Sort expressions as they are written, with names.

use crate::name::Name;

/// A sort expression as it is written (SMT-LIB 2.7, section 3.5, `sort`), over the parameters of the declaration in
/// which it stands.
#[derive(Debug, Drop)]
pub enum SortExpr {
    /// The parameter with this number, counted from 0.
    Param(u64),
    /// The name of a sort, a generic or a synonym, with its arguments; a name alone has none.
    App(Name, Vec<SortExpr>),
}
