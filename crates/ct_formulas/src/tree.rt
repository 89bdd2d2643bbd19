//! Formulas as trees: expressions with all names and sorts resolved.

use ct_sorts::{CtorId, DefId, FunId, SelId, SortId};

/// What a case of a `match` fits (SMT-LIB 2.7, section 3.6.1).
#[derive(Clone, Copy, Debug, PartialEq, Eq)]
pub enum Pattern {
    /// The values of this constructor. It binds a variable for each field, in order.
    Ctor(CtorId),
    /// Every value. It binds one variable.
    Any,
}

/// Over which of its variables' values a quantifier says that its body holds (SMT-LIB 2.7, section 3.6.1).
#[derive(Clone, Copy, Debug, PartialEq, Eq)]
pub enum Quantifier {
    /// All of them.
    Forall,
    /// Some of them.
    Exists,
}

/// A case of a `match`.
#[derive(Debug, Drop)]
#[cycle(trees)]
pub struct Case {
    /// What the case fits.
    pub pattern: Pattern,
    /// What the `match` is where this is the first case that fits.
    pub body: Tree,
}

/// A formula or a term, with names resolved (SMT-LIB 2.7, section 3.6).
///
/// Variables have numbers in place of names: 0 is the variable that was bound last, 1 the one
/// before it, and so on outwards. Parameters of definitions, bindings of `let`, fields of
/// patterns and variables of quantifiers are bound in order, so that the last of them has the smallest number.
#[derive(Debug, Drop)]
#[cycle(trees)]
pub enum Tree {
    /// A variable: the parameter of a definition, a binding of `let`, or a variable of a pattern or of a quantifier.
    Var(u64),
    /// A constructor with its arguments.
    Con(CtorId, Vec<Tree>),
    /// A field of a term, by its selector.
    Sel(SelId, Box<Tree>),
    /// Whether the term is built by the constructor.
    Test(CtorId, Box<Tree>),
    /// A function with its arguments; a constant has none.
    Apply(FunId, Vec<Tree>),
    /// A definition with its arguments: its body, with the arguments for the parameters.
    Def(DefId, Vec<Tree>),
    /// The negation.
    Not(Box<Tree>),
    /// The conjunction of one or more.
    And(Vec<Tree>),
    /// The disjunction of one or more.
    Or(Vec<Tree>),
    /// The exclusive disjunction of two or more, left associative.
    Xor(Vec<Tree>),
    /// The implication between two or more, right associative.
    Implies(Vec<Tree>),
    /// Whether two or more of one sort are equal, each to the next.
    Equal(Vec<Tree>),
    /// Whether two or more of one sort are pairwise different.
    Distinct(Vec<Tree>),
    /// The second where the first, which is Boolean, holds, and else the third.
    Ite(Box<Tree>, Box<Tree>, Box<Tree>),
    /// The second with a variable for each of the first, in order. The first see none of these
    /// variables.
    Let(Vec<Tree>, Box<Tree>),
    /// The body of the first case that fits the value.
    Match(Box<Tree>, Vec<Case>),
    /// Whether the body holds for all values, or for some values, of variables of these sorts, which are bound in order.
    Quantified(Quantifier, Vec<SortId>, Box<Tree>),
}
