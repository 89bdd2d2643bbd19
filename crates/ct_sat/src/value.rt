//! The value of a literal under the literals made true.

/// The value of a literal.
#[derive(Clone, Copy, Debug, PartialEq, Eq)]
pub(crate) enum Value {
    True,
    False,
    Unset,
}
