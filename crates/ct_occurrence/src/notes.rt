//! What is computed once for a formula and all of its binders: which variables occur.
ghost use Rattle.std.specs.Prelude.{◌≡◌, [], ◌∷◌};
ghost use Rattle.ct_occurrence.specs.Noted.{bound_of, under_of, inner_of};

use std::alloc::Global;
use std::slice;

/// The flags of the variables that the binders of a formula bind, in a tree beside the formula's.
#[derive(Debug, Drop)]
pub struct Notes {
    // Of a `let` and a quantifier the flags of its variables, in order. Of a `match` one flag: whether the matched term occurs.
    bound: Vec<bool>,
    // The notes on the formulas right under the formula, in order. Of a `let` those on what it binds, of a `match` those
    // on the matched formula. Notes on a formula that makes no term say nothing.
    under: Vec<Notes>,
    // The notes on what is under a binder: on the body of a `let` or a quantifier, on the bodies of the cases that make terms.
    inner: Vec<Notes>,
}

impl Notes {
    /// Notes that say nothing.
    pub(crate) fn none(alloc: Global) -> Notes {
        Notes {
            bound: Vec::new(alloc),
            under: Vec::new(alloc),
            inner: Vec::new(alloc),
        }
    }

    /// The notes on a formula that binds nothing.
    pub(crate) fn plain(alloc: Global, under: Vec<Notes>) -> Notes
        ensures under { under_of result ≡ under.items }
    {
        Notes {
            bound: Vec::new(alloc),
            under,
            inner: Vec::new(alloc),
        }
    }

    /// The notes on a binder.
    pub(crate) fn binder(bound: Vec<bool>, under: Vec<Notes>, inner: Vec<Notes>) -> Notes
        ensures bound { bound_of result ≡ bound.items }
        ensures under { under_of result ≡ under.items }
        ensures inner { inner_of result ≡ inner.items }
    {
        Notes {
            bound,
            under,
            inner,
        }
    }

    /// These notes alone.
    pub fn alone(&self) -> &[Notes]
        ensures value { result.now ≡ self.now ∷ [] }
    {
        slice::from_ref(self)
    }

    /// The flags.
    pub fn bound(&self) -> &[bool]
        ensures value { result.now ≡ bound_of self.now }
    {
        self.bound.as_slice()
    }

    /// The notes on the formulas right under the formula.
    pub fn under(&self) -> &[Notes]
        ensures value { result.now ≡ under_of self.now }
    {
        self.under.as_slice()
    }

    /// The notes on what is under a binder.
    pub fn inner(&self) -> &[Notes]
        ensures value { result.now ≡ inner_of self.now }
    {
        self.inner.as_slice()
    }
}
