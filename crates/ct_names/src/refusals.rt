//! The numbers of the errors of sorts and terms.

/// Unknown sort.
pub const UNKNOWN_SORT: u16 = 12;

/// Sort of a constructor that is not determined.
pub const UNDETERMINED: u16 = 19;

/// Unknown symbol.
pub const UNKNOWN_SYMBOL: u16 = 21;

/// Wrong number of arguments.
pub const WRONG_COUNT: u16 = 22;

/// Wrong sort.
pub const WRONG_SORT: u16 = 23;

/// Pattern of another sort.
pub const FOREIGN_PATTERN: u16 = 25;

/// `match` that is not exhaustive.
pub const NOT_EXHAUSTIVE: u16 = 26;

/// Variable repeated.
pub const REPEATED_VARIABLE: u16 = 27;

/// Form out of scope.
pub const OUT_OF_SCOPE: u16 = 28;

/// Quantifier over too many values.
pub const TOO_MANY_VALUES: u16 = 31;
