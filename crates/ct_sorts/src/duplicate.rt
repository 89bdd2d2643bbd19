//! Types that can be copied if memory is available.
ghost use Rattle.std.specs.Prelude.{◌≡◌, IfOk};

use std::alloc::{AllocError, Global};

/// A value of which an equal one can be made.
pub(crate) trait Duplicate {
    /// An equal value.
    fn duplicate(&self, alloc: Global) -> Result<Self, AllocError>
        ensures equal { IfOk result (λ copied. copied ≡ self.now) };
}
