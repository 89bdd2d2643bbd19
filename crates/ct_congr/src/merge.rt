//! Merges of two classes, each with its reason.

use ct_rules::Equation;
use ct_sorts::Items;
use ct_terms::{Lit, TermId};

/// Why the two sides of a merge are equal: the rule, with the terms that it speaks of.
#[derive(Debug, Drop)]
pub enum Reason {
    /// A hypothesis states it: its term is `true`, or `false` for a negative one.
    Hyp(Lit),
    /// The two terms, the sides themselves, have one head and equal arguments.
    Cong(TermId, TermId),
    /// The sides are the arguments at this index of two equal terms of one constructor.
    Inject(TermId, TermId, u32),
    /// The first, the left side, is a selector of a term that equals the second, a term of the selector's
    /// constructor.
    Sel(TermId, TermId),
    /// The first, the left side, is a test of a term that equals the second, a constructor term.
    Test(TermId, TermId),
    /// The first is a test that is `true`, and the second, the right side, is its constructor over the
    /// selectors of the tested term, the left side.
    Expand(TermId, TermId),
    /// The term, the left side, is an equation between two equal terms.
    EqualIn(TermId),
    /// The term is the equation of the sides, and it is `true`.
    EqualOut(TermId),
    /// The term, the left side, is the negation of a term that is `true` or `false`.
    Neg(TermId),
    /// The sides are of one sort, which has one value.
    Single,
    /// The equation is one of these, between constructor terms that cannot be told apart if all of
    /// them hold.
    Unique(Items<Equation>),
}

/// An equation that made two classes one, with its reason.
#[derive(Debug, Drop)]
pub struct Merge {
    /// The left side.
    pub left: TermId,
    /// The right side.
    pub right: TermId,
    /// Why the sides are equal.
    pub why: Reason,
}

/// What closing under the rules came to.
#[derive(Clone, Copy, Debug, PartialEq, Eq)]
pub enum Closed {
    /// No class has two terms of different constructors.
    Quiet,
    /// These two terms of one class have different constructors.
    Clash(TermId, TermId),
}

/// A mark of classes: how many merges stood when it was set.
#[derive(Clone, Copy, Debug, PartialEq, Eq)]
pub struct ClassMark {
    /// The number of merges.
    pub merges: u64,
}
