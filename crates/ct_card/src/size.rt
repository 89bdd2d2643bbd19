//! The three sizes of sorts.

/// How many values a sort has.
#[derive(Clone, Copy, Debug, PartialEq, Eq)]
pub enum Size {
    /// One value: a datatype or codatatype with one constructor, whose fields are all such
    /// (Reynolds and Blanchette 2015, on codatatypes with one value).
    One,
    /// More than one value, and all fields of its constructors have sorts of one value or finite sorts.
    Finite,
    /// Every other sort: infinitely many values.
    Infinite,
}
