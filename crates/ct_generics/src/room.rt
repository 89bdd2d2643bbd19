//! What is left of the limits on sorts.

/// How many sorts, constructors and selectors there is room for.
#[derive(Clone, Copy, Debug)]
pub struct Room {
    /// Sorts.
    pub sorts: u64,
    /// Constructors.
    pub ctors: u64,
    /// Selectors.
    pub sels: u64,
}
