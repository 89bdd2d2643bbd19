//! The core term of an operator, over the terms of the formulas under it.
ghost use Rattle.std.specs.Prelude.{◌≡◌, ◌<◌, length, map, drop, List, ◌∷◌, IfOk, IsErrOf};
ghost use Rattle.std.specs.List.{AllByRecursion};
ghost use Rattle.ct_terms.specs.CoreTree.{CoreTree, term_at};
ghost use Rattle.ct_operators.specs.Effect.{Stands, IsSoundTable, Within, Effect};
ghost use Rattle.ct_operators.specs.Forms.{combined, AreOperands};
ghost use Rattle.ct_operators.specs.Made.{MakesInOrder, leaf, made_by};

use crate::chains::{distinct_of, equal_of};
use crate::making::make;
use crate::operator::Operator;
use crate::operators::{all_of, any_of, exclusive_of_all, implication_of, negated};
use ct_sorts::Signature;
use ct_terms::{Args, Core, TermError, TermId, TermTable};
use std::alloc::Global;

/// The term of an operator over these terms.
///
/// `Full` comes where the table holds 400,000 terms and does not have one that is to be made.
#[inline(never)]
pub fn combine(
    alloc: Global,
    sig: &Signature,
    table: &mut TermTable,
    operator: Operator,
    args: Args,
) -> Result<TermId, TermError>
    requires kept { IsSoundTable sig.now table.old }
    requires below { AllByRecursion (λ t. t.0 < length table.old) args }
    requires operands { AreOperands sig.now operator (map (term_at table.old) args) }
    ensures core { IfOk result (λ t. Stands table.new t (combined sig.now operator (map (term_at table.old) args))) }
    ensures effect { (allowed : List CoreTree)
        → Within allowed (combined sig.now operator (map (term_at table.old) args))
        → Effect sig.now allowed table.old table.new (IsErrOf result TermError.Full) }

    // The terms of `distinct` are made here, in this order. What the other operators have between their formulas is made by
    // `follow`, after each of them.
    ensures order { operator ≡ Operator.Inequality → IfOk result (λ t. MakesInOrder table.old (made_by sig.now Operator.Inequality (map leaf (map (term_at table.old) args))).making table.new) }
{
    match operator {
        Operator::Construct(c) => make(sig, table, Core::Con(c, args)),
        Operator::Call(f) => make(sig, table, Core::Apply(f, args)),
        Operator::Conjunction => all_of(sig, table, args),
        Operator::Disjunction => any_of(sig, table, args),
        Operator::Exclusion => exclusive_of_all(sig, table, args.as_slice()),
        Operator::Implication => implication_of(alloc, sig, table, args.as_slice()),
        Operator::Equality => equal_of(alloc, sig, table, args.as_slice()),
        Operator::Inequality => distinct_of(alloc, sig, table, args.as_slice()),
        Operator::Select(s) => make(sig, table, Core::Sel(s, first(&args))),
        Operator::Inspect(c) => make(sig, table, Core::Test(c, first(&args))),
        Operator::Negation => negated(sig, table, first(&args)),
    }
}

// The first of the terms.
fn first(args: &Args) -> TermId
    requires some { 0 < length args.now }
    ensures value { args.now ≡ result ∷ drop 1 args.now }
{
    args.as_slice()[0]
}
