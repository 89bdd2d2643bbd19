//! What takes arguments of fixed sorts: symbols, testers and connectives.
ghost use Rattle.std.specs.Prelude.{◌≡◌, ◌==◌, replicate, IfOk, IfErr};
ghost use Rattle.ct_names.specs.Symbols.{argument_sorts};
ghost use Rattle.ct_names.specs.Elaboration.{takes};
ghost use Rattle.ct_names.specs.Outcome.{is_sort};
ghost use Rattle.ct_check.specs.Callees.{callee_sorts, callee_result, IsCallee};

use ct_formulas::Tree;
use ct_names::{CoreOperator, Stop, argument_sorts, result_sort};
use ct_sorts::{CtorId, Signature, SortId, Symbol};
use std::alloc::Global;

/// The sort Bool.
pub(crate) const BOOL: SortId = SortId(0);

/// What takes arguments of stated sorts.
#[derive(Clone, Copy)]
pub(crate) enum Callee {
    /// A symbol.
    Symbol(Symbol),
    /// `(_ is C)`.
    Tester(CtorId),
    /// A connective: an operator that takes Boolean arguments alone.
    Connective(CoreOperator),
}

/// Whether the two sorts are one.
pub(crate) fn is_sort(s: SortId, t: SortId) -> bool
    ensures value { result ≡ is_sort s t }
{
    s.0 == t.0
}

/// Whether the operator takes so many arguments.
pub(crate) fn takes(operator: CoreOperator, count: usize) -> bool
    ensures value { result ≡ takes operator count }
{
    match operator {
        CoreOperator::Not => count == 1,
        CoreOperator::And | CoreOperator::Or => 1 <= count,
        CoreOperator::Xor | CoreOperator::Implies | CoreOperator::Equal | CoreOperator::Distinct =>
            2 <= count,
        CoreOperator::Ite => count == 3,
    }
}

/// The sorts of the arguments, where there are so many.
pub(crate) fn callee_sorts(
    alloc: Global,
    sig: &Signature,
    callee: Callee,
    count: usize,
) -> Result<Vec<SortId>, Stop>
    requires inside { IsCallee sig.now callee }
    ensures ok { IfOk result (λ sorts. sorts.items ≡ callee_sorts sig.now callee count) }
    ensures err { IfErr result (λ e. e ≡ Stop.NoMemory) }
{
    match callee {
        Callee::Symbol(symbol) => Ok(argument_sorts(alloc, sig, symbol)?),
        Callee::Tester(c) => repeated(alloc, sig.ctor_sort(c), 1),
        Callee::Connective(_) => repeated(alloc, BOOL, count),
    }
}

/// One sort, so many times.
pub(crate) fn repeated(alloc: Global, sort: SortId, count: usize) -> Result<Vec<SortId>, Stop>
    ensures ok { IfOk result (λ sorts. sorts.items ≡ replicate count sort) }
    ensures err { IfErr result (λ e. e ≡ Stop.NoMemory) }
{
    let mut sorts = Vec::with_capacity(alloc, count)?;
    for _ in 0..count {
        sorts.push(sort)?;
    }
    Ok(sorts)
}

/// The sort of what is given.
pub(crate) fn callee_result(sig: &Signature, callee: Callee) -> SortId
    requires inside { IsCallee sig.now callee }
    ensures value { result ≡ callee_result sig.now callee }
{
    match callee {
        Callee::Symbol(symbol) => result_sort(sig, symbol),
        Callee::Tester(_) | Callee::Connective(_) => BOOL,
    }
}
