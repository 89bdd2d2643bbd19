//! The rules of a derivation, as data: gates, equality steps and closing rules.

use ct_sorts::Items;
use ct_terms::{Lit, TermId};

/// The clauses that say what a Boolean term means (the encoding of Tseitin 1968), and what a choice is. In the comments `t`
/// is the term, and an argument stands for its literal.
#[derive(Clone, Copy, Debug, PartialEq, Eq)]
pub enum Gate {
    /// `(true)`
    True,
    /// `(-false)`
    False,
    /// `(-t a_k)` of a conjunction, for the argument at a place.
    AndPos,
    /// `(t -a_0 -a_1 ..)` of a conjunction.
    AndNeg,
    /// `(-t a_0 a_1 ..)` of a disjunction.
    OrPos,
    /// `(t -a_k)` of a disjunction, for the argument at a place.
    OrNeg,
    /// `(-t -a b)` of an equivalence.
    Iff1,
    /// `(-t a -b)` of an equivalence.
    Iff2,
    /// `(t a b)` of an equivalence.
    Iff3,
    /// `(t -a -b)` of an equivalence.
    Iff4,
    /// `(-t -c a)` of a Boolean choice.
    Ite1,
    /// `(-t c b)` of a Boolean choice.
    Ite2,
    /// `(t -c -a)` of a Boolean choice.
    Ite3,
    /// `(t c -b)` of a Boolean choice.
    Ite4,
    /// `(-c e)` of another choice, with the equation `e` of the choice and its first branch.
    Then,
    /// `(c e)` of another choice, with the equation `e` of the choice and its second branch.
    Else,
}

/// Why the arguments at one place of a pair are equal.
#[derive(Clone, Copy, Debug, PartialEq, Eq)]
pub enum Entry {
    /// This earlier step gives their equation.
    Step(u64),
    /// This pair of the list is one of the two terms that the arguments equal by these earlier steps: the pair, the step
    /// from the argument on the left to the pair's left side, and the one from its right side to the argument on the right.
    Pair(u64, u64, u64),
}

/// Two constructor terms with one constructor, and for each place why the arguments are equal.
#[derive(Debug, Drop)]
pub struct Pair {
    /// The one term.
    pub left: TermId,
    /// The other.
    pub right: TermId,
    /// One entry for each argument, in order.
    pub entries: Items<Entry>,
}

/// A constructor term of a cycle, and how it leads to the next one.
#[derive(Clone, Copy, Debug, PartialEq, Eq)]
pub struct Hop {
    /// The constructor term.
    pub con: TermId,
    /// The place of the argument that leads on, from 0.
    pub place: u64,
    /// The step that gives the equation of that argument and the next constructor term.
    pub step: u64,
}

/// A step to an equation between terms. Numbers are those of earlier steps of the same line, from 0.
#[derive(Debug, Drop)]
pub enum EqStep {
    /// What a literal states whose opposite is in the clause of the line.
    Hyp(Lit),
    /// A term equals itself.
    Refl(TermId),
    /// The equation of a step turned round.
    Sym(u64),
    /// The equation of a step, and on by that of another.
    Trans(u64, u64),
    /// Two terms with one head, and for each argument the step that gives the equation of the arguments.
    Cong(TermId, TermId, Items<u64>),
    /// The arguments at a place of two constructor terms that a step gives as equal.
    Inject(u64, u64),
    /// A selector of a term that a step gives as equal to a term of its constructor: the argument.
    Sel(TermId, u64),
    /// A test of a term that a step gives as equal to a constructor term: `true` or `false`.
    Test(TermId, u64),
    /// A term whose test is `true` by a step, and the constructor term over its selectors.
    Expand(u64, TermId),
    /// The term of an equation that a step gives is `true`.
    EqualIn(TermId, u64),
    /// The equation of a term that is `true` by a step.
    EqualOut(u64),
    /// A negation, where a step gives its argument as `false` or `true`.
    Neg(TermId, u64),
    /// Two terms of a sort with one value.
    Single(TermId, TermId),
    /// The equation of one of these pairs, which cannot be told apart.
    Unique(u64, Items<Pair>),
}

/// How the equations of a line contradict each other.
#[derive(Debug, Drop)]
pub enum Close {
    /// A step gives an equation of two constructor terms with different constructors.
    Clash(u64),
    /// Constructor terms of datatypes, each of which leads to the next and the last to the first.
    Cycle(Items<Hop>),
}
