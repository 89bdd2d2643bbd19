//! A quantifier while it is compiled: what it ranges over, and its body.
ghost use Rattle.std.specs.Prelude.{◌≡◌, ◌<◌, List, length, Some, slice_get, OnOk, IfOk};
ghost use Rattle.ct_listing.specs.Closed.{ClosedValue};
ghost use Rattle.ct_formulas.specs.Choices.{choices_of};
ghost use Rattle.ct_operators.specs.Effect.{IsSoundTable};
ghost use Rattle.ct_scope.specs.Making.{operator_of};
ghost use Rattle.ct_scope.specs.Values.{AreValueTerms, BindsValues};
ghost use Rattle.ct_compile.specs.AtLevel.{IsOverAt, declared_at};

use crate::level::Level;
use ct_finite::Finite;
use ct_formulas::{Quantifier, Tree};
use ct_occurrence::Notes;
use ct_operators::Operator;
use ct_scope::{Bound, ValueTerms, value_bounds};
use ct_sorts::{Items, SortId};
use ct_terms::{TermError, TermTable};

/// A quantifier with its body.
#[derive(Clone, Copy)]
pub(crate) struct Quantification<'a> {
    /// The listable sorts.
    pub(crate) finite: &'a Finite,
    /// The quantifier.
    pub(crate) quantifier: Quantifier,
    /// The sorts of its variables, in order.
    pub(crate) sorts: &'a [SortId],
    /// For each variable whether it occurs in the body.
    pub(crate) flags: &'a [bool],
    /// The body.
    pub(crate) body: &'a Tree,
    /// The notes on the body.
    pub(crate) notes: &'a [Notes],
}

/// The operator that joins what a quantifier says of its body for several values.
pub(crate) fn operator_of(quantifier: Quantifier) -> Operator
    ensures value { result ≡ operator_of quantifier }
{
    match quantifier {
        Quantifier::Forall => Operator::Conjunction,
        Quantifier::Exists => Operator::Disjunction,
    }
}

/// How many choices of values there are.
pub(crate) fn choices_over(level: &Level<'_>, over: &Quantification<'_>) -> u64
    requires over { IsOverAt level.now over.now }
    ensures count { result ≡ length (choices_of (declared_at level.now) over.now.sorts.now) }
{
    match over.finite.choice_count(over.sorts) {
        Some(count) => count,
        None => unreachable!(),
    }
}

/// What the variables stand for in the choice with this number.
pub(crate) fn chosen_bounds(
    level: &Level<'_>,
    over: &Quantification<'_>,
    table: &mut TermTable,
    terms: &mut ValueTerms,
    k: u64,
) -> Result<Items<Bound>, TermError>
    requires over { IsOverAt level.now over.now }
    requires there { k < length (choices_of (declared_at level.now) over.now.sorts.now) }
    requires kept { IsSoundTable (declared_at level.now) table.old }
    requires right { AreValueTerms (declared_at level.now) table.old terms.old }
    ensures outcome { (vs : List ClosedValue) → slice_get (choices_of (declared_at level.now) over.now.sorts.now) k ≡ Some vs
        → BindsValues (declared_at level.now) table.old table.new over.now.flags.now vs result }
    ensures right { OnOk result (AreValueTerms (declared_at level.now) table.new terms.new) }
{
    let numbers = over.finite.choice(over.sorts, k)?;
    value_bounds(
        level.alloc,
        &level.scope.sig,
        over.finite,
        terms,
        table,
        over.sorts,
        over.flags,
        numbers.as_slice(),
    )
}
