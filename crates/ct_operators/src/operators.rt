//! Operators over several terms, reduced to the kinds of core terms.
ghost use Rattle.std.specs.Prelude.{◌≡◌, ◌<◌, length, map, List, [], ◌∷◌, ◌++◌, Contains, IfOk, IsErrOf};
ghost use Rattle.std.specs.List.{AllByRecursion, fold};
ghost use Rattle.ct_sorts.specs.declared.ids.SortId.{SortId};
ghost use Rattle.ct_sorts.specs.Declarations.{bool_sort};
ghost use Rattle.ct_terms.specs.CoreTree.{CoreTree, negation, term_at};
ghost use Rattle.ct_terms.specs.CoreSorts.{HasTreeSort};
ghost use Rattle.ct_formulas.specs.Compiled.{all_of as conjunction_of, any_of as disjunction_of, exclusive as exclusion, exclusive_of as exclusions_of, implication_of as implications_of, equality as equality_of, inequality as inequality_of};
ghost use Rattle.ct_operators.specs.Effect.{Stands, IsSoundTable, Within, Effect};
ghost use Rattle.ct_operators.specs.Forms.{implication, AllHaveSort};

use crate::making::make;
use ct_sorts::Signature;
use ct_terms::{Args, Core, TermError, TermId, TermTable};
use std::alloc::{AllocError, Global};

/// The conjunction of the terms; one term alone is itself.
pub(crate) fn all_of(
    sig: &Signature,
    table: &mut TermTable,
    args: Args,
) -> Result<TermId, TermError>
    requires kept { IsSoundTable sig.now table.old }
    requires below { AllByRecursion (λ t. t.0 < length table.old) args }
    requires sorted { (sort : SortId) × HasTreeSort sig.now (conjunction_of (map (term_at table.old) args)) sort }
    ensures core { IfOk result (λ t. Stands table.new t (conjunction_of (map (term_at table.old) args))) }
    ensures effect { (allowed : List CoreTree)
        → Within allowed (conjunction_of (map (term_at table.old) args))
        → Effect sig.now allowed table.old table.new (IsErrOf result TermError.Full) }
{
    let terms = args.as_slice();
    if terms.len() == 1 {
        return Ok(terms[0]);
    }
    make(sig, table, Core::And(args))
}

/// The disjunction of the terms; one term alone is itself.
pub(crate) fn any_of(
    sig: &Signature,
    table: &mut TermTable,
    args: Args,
) -> Result<TermId, TermError>
    requires kept { IsSoundTable sig.now table.old }
    requires below { AllByRecursion (λ t. t.0 < length table.old) args }
    requires sorted { (sort : SortId) × HasTreeSort sig.now (disjunction_of (map (term_at table.old) args)) sort }
    ensures core { IfOk result (λ t. Stands table.new t (disjunction_of (map (term_at table.old) args))) }
    ensures effect { (allowed : List CoreTree)
        → Within allowed (disjunction_of (map (term_at table.old) args))
        → Effect sig.now allowed table.old table.new (IsErrOf result TermError.Full) }
{
    let terms = args.as_slice();
    if terms.len() == 1 {
        return Ok(terms[0]);
    }
    make(sig, table, Core::Or(args))
}

/// The negation of a Boolean term.
pub(crate) fn negated(
    sig: &Signature,
    table: &mut TermTable,
    t: TermId,
) -> Result<TermId, TermError>
    requires kept { IsSoundTable sig.now table.old }
    requires below { t.0 < length table.old }
    requires boolean { HasTreeSort sig.now (term_at table.old t) bool_sort }
    ensures core { IfOk result (λ u. Stands table.new u (negation (term_at table.old t))) }
    ensures effect { (allowed : List CoreTree)
        → Contains allowed (negation (term_at table.old t))
        → Effect sig.now allowed table.old table.new (IsErrOf result TermError.Full) }
{
    make(sig, table, Core::Not(t))
}

/// That exactly one of two Boolean terms holds.
pub(crate) fn exclusive(
    sig: &Signature,
    table: &mut TermTable,
    a: TermId,
    b: TermId,
) -> Result<TermId, TermError>
    requires kept { IsSoundTable sig.now table.old }
    requires below { AllByRecursion (λ t. t.0 < length table.old) (a ∷ (b ∷ [])) }
    requires boolean { AllByRecursion (λ t. HasTreeSort sig.now (term_at table.old t) bool_sort) (a ∷ (b ∷ [])) }
    ensures core { IfOk result (λ t. Stands table.new t (exclusion (term_at table.old a) (term_at table.old b))) }
    ensures effect { (allowed : List CoreTree)
        → Within allowed (exclusion (term_at table.old a) (term_at table.old b))
        → Effect sig.now allowed table.old table.new (IsErrOf result TermError.Full) }
{
    let same = make(sig, table, Core::Iff(a, b))?;
    negated(sig, table, same)
}

/// That two terms of one sort are equal.
pub(crate) fn equality(
    sig: &Signature,
    table: &mut TermTable,
    a: TermId,
    b: TermId,
) -> Result<TermId, TermError>
    requires kept { IsSoundTable sig.now table.old }
    requires below { AllByRecursion (λ t. t.0 < length table.old) (a ∷ (b ∷ [])) }
    requires one_sort { (side : SortId) × AllByRecursion (λ t. HasTreeSort sig.now (term_at table.old t) side) (a ∷ (b ∷ [])) }
    ensures core { IfOk result (λ t. Stands table.new t (equality_of sig.now (term_at table.old a) (term_at table.old b))) }
    ensures effect { (allowed : List CoreTree)
        → Contains allowed (equality_of sig.now (term_at table.old a) (term_at table.old b))
        → Effect sig.now allowed table.old table.new (IsErrOf result TermError.Full) }
{
    // The sort 0 is Bool.
    if table.sort(a).0 == 0 {
        make(sig, table, Core::Iff(a, b))
    } else {
        make(sig, table, Core::Eq(a, b))
    }
}

/// That two terms of one sort are different.
pub(crate) fn inequality(
    sig: &Signature,
    table: &mut TermTable,
    a: TermId,
    b: TermId,
) -> Result<TermId, TermError>
    requires kept { IsSoundTable sig.now table.old }
    requires below { AllByRecursion (λ t. t.0 < length table.old) (a ∷ (b ∷ [])) }
    requires one_sort { (side : SortId) × AllByRecursion (λ t. HasTreeSort sig.now (term_at table.old t) side) (a ∷ (b ∷ [])) }
    ensures core { IfOk result (λ t. Stands table.new t (inequality_of sig.now (term_at table.old a) (term_at table.old b))) }
    ensures effect { (allowed : List CoreTree)
        → Within allowed (inequality_of sig.now (term_at table.old a) (term_at table.old b))
        → Effect sig.now allowed table.old table.new (IsErrOf result TermError.Full) }
{
    let same = equality(sig, table, a, b)?;
    negated(sig, table, same)
}

/// That the first of two Boolean terms implies the second.
pub(crate) fn implied(
    alloc: Global,
    sig: &Signature,
    table: &mut TermTable,
    a: TermId,
    b: TermId,
) -> Result<TermId, TermError>
    requires kept { IsSoundTable sig.now table.old }
    requires below { AllByRecursion (λ t. t.0 < length table.old) (a ∷ (b ∷ [])) }
    requires boolean { AllByRecursion (λ t. HasTreeSort sig.now (term_at table.old t) bool_sort) (a ∷ (b ∷ [])) }
    ensures core { IfOk result (λ t. Stands table.new t (implication (term_at table.old a) (term_at table.old b))) }
    ensures effect { (allowed : List CoreTree)
        → Within allowed (implication (term_at table.old a) (term_at table.old b))
        → Effect sig.now allowed table.old table.new (IsErrOf result TermError.Full) }
{
    let refuted = negated(sig, table, a)?;
    let args = pair(alloc, refuted, b)?;
    make(sig, table, Core::Or(args))
}

/// Exclusive disjunction, which is left associative: that an odd number of the terms hold.
pub(crate) fn exclusive_of(
    sig: &Signature,
    table: &mut TermTable,
    first: TermId,
    others: &[TermId],
) -> Result<TermId, TermError>
    requires kept { IsSoundTable sig.now table.old }
    requires below { AllByRecursion (λ t. t.0 < length table.old) (first ∷ others.now) }
    requires boolean { AllByRecursion (λ t. HasTreeSort sig.now (term_at table.old t) bool_sort) (first ∷ others.now) }
    ensures core { IfOk result (λ t. Stands table.new t
        (fold exclusion (term_at table.old first) (map (term_at table.old) others.now))) }
    ensures effect { (allowed : List CoreTree)
        → Within allowed (fold exclusion (term_at table.old first) (map (term_at table.old) others.now))
        → Effect sig.now allowed table.old table.new (IsErrOf result TermError.Full) }
{
    let mut left = first;
    let mut rest = others;
    while let [next, more @ ..] = rest {
        left = exclusive(sig, table, left, *next)?;
        rest = more;
    }
    Ok(left)
}

/// Two arguments. Its only error is out of memory.
pub(crate) fn pair(alloc: Global, a: TermId, b: TermId) -> Result<Args, AllocError>
    ensures both { IfOk result (λ args. args ≡ a ∷ (b ∷ [])) }
{
    let mut args = Args::new(alloc);
    args.push(a)?;
    args.push(b)?;
    Ok(args)
}

/// Exclusive disjunction of one or more terms.
pub(crate) fn exclusive_of_all(
    sig: &Signature,
    table: &mut TermTable,
    args: &[TermId],
) -> Result<TermId, TermError>
    requires kept { IsSoundTable sig.now table.old }
    requires below { AllByRecursion (λ t. t.0 < length table.old) args.now }
    requires operands { (0 < length args.now) × AllByRecursion (λ t. HasTreeSort sig.now (term_at table.old t) bool_sort) args.now }
    ensures core { IfOk result (λ t. Stands table.new t (exclusions_of (map (term_at table.old) args.now))) }
    ensures effect { (allowed : List CoreTree)
        → Within allowed (exclusions_of (map (term_at table.old) args.now))
        → Effect sig.now allowed table.old table.new (IsErrOf result TermError.Full) }
{
    match args {
        [] => unreachable!(),
        [first, others @ ..] => exclusive_of(sig, table, *first, others),
    }
}

/// Implication, which is right associative.
pub(crate) fn implication_of(
    alloc: Global,
    sig: &Signature,
    table: &mut TermTable,
    args: &[TermId],
) -> Result<TermId, TermError>
    requires kept { IsSoundTable sig.now table.old }
    requires below { AllByRecursion (λ t. t.0 < length table.old) args.now }
    requires operands { (0 < length args.now) × AllHaveSort sig.now bool_sort (map (term_at table.old) args.now) }
    ensures core { IfOk result (λ t. Stands table.new t (implications_of (map (term_at table.old) args.now))) }
    ensures effect { (allowed : List CoreTree)
        → Within allowed (implications_of (map (term_at table.old) args.now))
        → Effect sig.now allowed table.old table.new (IsErrOf result TermError.Full) }
{
    match args {
        [] => unreachable!(),
        [others @ .., last] => implied_by(alloc, sig, table, others, *last),
    }
}

// That each of the terms implies what follows it; the one before the last term is the first to be made.
fn implied_by(
    alloc: Global,
    sig: &Signature,
    table: &mut TermTable,
    others: &[TermId],
    last: TermId,
) -> Result<TermId, TermError>
    requires kept { IsSoundTable sig.now table.old }
    requires below { AllByRecursion (λ t. t.0 < length table.old) (others.now ++ last ∷ []) }
    requires boolean { AllByRecursion (λ t. HasTreeSort sig.now (term_at table.old t) bool_sort) (others.now ++ last ∷ []) }
    ensures core { IfOk result (λ t. Stands table.new t (implications_of (map (term_at table.old) (others.now ++ last ∷ [])))) }
    ensures effect { (allowed : List CoreTree)
        → Within allowed (implications_of (map (term_at table.old) (others.now ++ last ∷ [])))
        → Effect sig.now allowed table.old table.new (IsErrOf result TermError.Full) }
{
    let mut term = last;
    let mut rest = others;
    while let [more @ .., previous] = rest {
        term = implied(alloc, sig, table, *previous, term)?;
        rest = more;
    }
    Ok(term)
}
