//! Names of constructors and their fields.

use ct_generics::{Items, Name};

/// The names of a constructor and its fields, in order.
#[derive(Debug, Drop)]
pub struct Spelling {
    /// The name of the constructor.
    pub name: Name,
    /// The names of its fields.
    pub fields: Items<Name>,
}

/// Which constructor of which sort without parameters or generic.
#[derive(Clone, Copy, Debug, PartialEq, Eq)]
pub(crate) struct Home {
    /// The number of the sort or generic.
    pub(crate) head: u64,
    /// The index of the constructor.
    pub(crate) ctor: u64,
}
