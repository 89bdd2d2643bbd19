//! Operators of formulas that bind nothing, but for `ite`.

use ct_sorts::{CtorId, FunId, SelId};

/// An operator over formulas of one environment.
#[derive(Clone, Copy, Debug, PartialEq, Eq)]
pub enum Operator {
    /// A constructor.
    Construct(CtorId),
    /// A selector.
    Select(SelId),
    /// A tester.
    Inspect(CtorId),
    /// A function.
    Call(FunId),
    /// `not`
    Negation,
    /// `and`
    Conjunction,
    /// `or`
    Disjunction,
    /// `xor`
    Exclusion,
    /// `=>`
    Implication,
    /// `=`
    Equality,
    /// `distinct`
    Inequality,
}
