//! What a variable stands for while a formula is compiled.

use ct_sorts::SelId;
use ct_terms::TermId;

/// What a variable stands for.
#[derive(Clone, Copy, Debug, PartialEq, Eq)]
pub enum Bound {
    /// A term of the table.
    Term(TermId),
    /// A field of a term of the table. Its own term is made where the variable stands.
    Field(SelId, TermId),
    /// Nothing, since the variable does not occur.
    Absent,
}
