//! Whether the terms right under a term have values already.
ghost use Rattle.std.specs.Prelude.{◌<◌, IsTrue};
ghost use Rattle.std.specs.List.{AllByRecursion};
ghost use Rattle.ct_terms.specs.Children.{HasArgumentsBelow};

use ct_terms::{Core, TermId};

/// Whether the terms right under the term have numbers below the bound.
pub(crate) fn is_over(core: &Core, bound: usize) -> bool
    ensures below { IsTrue result → HasArgumentsBelow bound core.now }
{
    match core {
        Core::Con(_, args) => are_below(args.as_slice(), bound),
        Core::Sel(_, t) => is_below(*t, bound),
        Core::Test(_, t) => is_below(*t, bound),
        Core::Apply(_, args) => are_below(args.as_slice(), bound),
        Core::Eq(a, b) => is_below(*a, bound) && is_below(*b, bound),
        Core::Not(t) => is_below(*t, bound),
        Core::And(args) => are_below(args.as_slice(), bound),
        Core::Or(args) => are_below(args.as_slice(), bound),
        Core::Iff(a, b) => is_below(*a, bound) && is_below(*b, bound),
        Core::Ite(c, a, b) => is_below(*c, bound) && is_below(*a, bound) && is_below(*b, bound),
    }
}

// Whether the terms have numbers below the bound.
fn are_below(terms: &[TermId], bound: usize) -> bool
    ensures below { IsTrue result → AllByRecursion (λ t. t.0 < bound) terms.now }
{
    let mut left = terms;
    while let [t, others @ ..] = left {
        if !is_below(*t, bound) {
            return false;
        }
        left = others;
    }
    true
}

// Whether the term has a number below the bound.
fn is_below(t: TermId, bound: usize) -> bool
    ensures below { IsTrue result → t.0 < bound }
{
    (t.0 as usize) < bound
}
