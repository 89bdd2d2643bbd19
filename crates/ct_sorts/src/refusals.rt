//! The numbers of the errors with which a declaration is refused.

/// The name of a sort, a constructor or a selector is taken, or cannot be declared.
pub(crate) const NAME_TAKEN: u16 = 11;

/// A sort of a block has no constructor.
pub(crate) const NO_CONSTRUCTOR: u16 = 13;

/// One declaration too many.
pub(crate) const TOO_MANY: u16 = 16;

/// The name of a function or a definition is taken by another symbol, or cannot be declared.
pub(crate) const SYMBOL_TAKEN: u16 = 29;
