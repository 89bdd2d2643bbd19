//! What happens to the sorts that an expression needs.

/// What becomes of a sort that an expression needs and that is not there.
#[derive(Clone, Copy, Debug, PartialEq, Eq)]
pub enum Needs {
    /// It comes into the list with all that it needs, where there is room.
    Add,
    /// It is missing.
    Find,
}
