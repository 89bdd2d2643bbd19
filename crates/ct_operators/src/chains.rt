//! Equality and inequality of several terms: of each with the next, and of all pairs.
ghost use Rattle.std.specs.Prelude.{◌≡◌, ◌<◌, length, map, List, [], ◌++◌, IfOk, OnOk, IsErrOf};
ghost use Rattle.std.specs.List.{AllByRecursion};
ghost use Rattle.ct_sorts.specs.declared.ids.SortId.{SortId};
ghost use Rattle.ct_terms.specs.CoreTree.{CoreTree, term_at};
ghost use Rattle.ct_formulas.specs.Pairs.{neighbours_from, neighbours, pairs};
ghost use Rattle.ct_formulas.specs.Compiled.{all_of as conjunction_of, equality as equality_of, inequality as inequality_of};
ghost use Rattle.ct_operators.specs.Effect.{Stands, AllStand, IsSoundTable, Within, AllWithin, Effect};
ghost use Rattle.ct_operators.specs.Forms.{AllHaveSort};
ghost use Rattle.ct_operators.specs.Pairing.{both, compared_as, compared_all, made_compared_all, IsPair};
ghost use Rattle.ct_operators.specs.Made.{MakesInOrder, leaf, made_inequality, made_for, made_all};

use crate::operators::{all_of, equality, inequality};
use ct_sorts::Signature;
use ct_terms::{Args, TermError, TermId, TermTable};
use std::alloc::{AllocError, Global};

/// Each term with the one after it.
pub(crate) fn neighbours_of(
    alloc: Global,
    first: TermId,
    others: &[TermId],
) -> Result<Vec<(TermId, TermId)>, AllocError>
    ensures pairs { IfOk result (λ found. found.items ≡ neighbours_from both first others.now) }
{
    let mut found = Vec::new(alloc);
    let mut left = first;
    let mut rest = others;
    while let [next, more @ ..] = rest {
        found.push((left, *next))?;
        left = *next;
        rest = more;
    }
    Ok(found)
}

// The first term with each of the others, after what there is.
fn add_pairs(
    found: &mut Vec<(TermId, TermId)>,
    first: TermId,
    others: &[TermId],
) -> Result<(), AllocError>
    ensures added { OnOk result (found.new.items ≡ found.old.items ++ map (both first) others.now) }
{
    let mut rest = others;
    while let [next, more @ ..] = rest {
        found.push((first, *next))?;
        rest = more;
    }
    Ok(())
}

/// Each term with each later one.
pub(crate) fn pairs_of(alloc: Global, args: &[TermId]) -> Result<Vec<(TermId, TermId)>, AllocError>
    ensures pairs { IfOk result (λ found. found.items ≡ pairs both args.now) }
{
    let mut found = Vec::new(alloc);
    let mut rest = args;
    while let [first, others @ ..] = rest {
        add_pairs(&mut found, *first, others)?;
        rest = others;
    }
    Ok(found)
}

// That two terms of one sort are different, or that they are equal.
fn compare(
    sig: &Signature,
    table: &mut TermTable,
    different: bool,
    pair: (TermId, TermId),
) -> Result<TermId, TermError>
    requires kept { IsSoundTable sig.now table.old }
    requires pair { (side : SortId) × IsPair sig.now table.old side pair }
    ensures core { IfOk result (λ t. Stands table.new t (compared_as sig.now different (term_at table.old pair.0) (term_at table.old pair.1))) }
    ensures effect { (allowed : List CoreTree)
        → Within allowed (compared_as sig.now different (term_at table.old pair.0) (term_at table.old pair.1))
        → Effect sig.now allowed table.old table.new (IsErrOf result TermError.Full) }
{
    if different {
        inequality(sig, table, pair.0, pair.1)
    } else {
        equality(sig, table, pair.0, pair.1)
    }
}

/// The same of several pairs, in order.
pub(crate) fn compared(
    alloc: Global,
    sig: &Signature,
    table: &mut TermTable,
    different: bool,
    pairs: &[(TermId, TermId)],
) -> Result<Args, TermError>
    requires kept { IsSoundTable sig.now table.old }
    requires pairs { (side : SortId) × AllByRecursion (IsPair sig.now table.old side) pairs.now }
    ensures core { IfOk result (λ args. AllStand table.new args (compared_all sig.now different (term_at table.old) pairs.now)) }
    ensures effect { (allowed : List CoreTree)
        → AllWithin allowed (compared_all sig.now different (term_at table.old) pairs.now)
        → Effect sig.now allowed table.old table.new (IsErrOf result TermError.Full) }
    ensures order { IfOk result (λ args. MakesInOrder table.old (made_for (made_compared_all sig.now different (term_at table.old) pairs.now)) table.new) }
{
    let mut args = Args::new(alloc);
    let mut rest = pairs;
    while let [pair, more @ ..] = rest {
        let term = compare(sig, table, different, *pair)?;
        args.push(term)?;
        rest = more;
    }
    Ok(args)
}

// Each of one or more terms with the one after it.
fn neighbours_all(alloc: Global, args: &[TermId]) -> Result<Vec<(TermId, TermId)>, AllocError>
    ensures pairs { IfOk result (λ found. found.items ≡ neighbours both args.now) }
{
    match args {
        [] => Ok(Vec::new(alloc)),
        [first, others @ ..] => neighbours_of(alloc, *first, others),
    }
}

// The conjunction of what comparing the pairs gives; one alone is itself.
fn conjoin(
    alloc: Global,
    sig: &Signature,
    table: &mut TermTable,
    different: bool,
    pairs: &[(TermId, TermId)],
) -> Result<TermId, TermError>
    requires kept { IsSoundTable sig.now table.old }
    requires pairs { (side : SortId) × AllByRecursion (IsPair sig.now table.old side) pairs.now }
    requires some { 0 < length pairs.now }
    ensures core { IfOk result (λ t. Stands table.new t (conjunction_of (compared_all sig.now different (term_at table.old) pairs.now))) }
    ensures effect { (allowed : List CoreTree)
        → Within allowed (conjunction_of (compared_all sig.now different (term_at table.old) pairs.now))
        → Effect sig.now allowed table.old table.new (IsErrOf result TermError.Full) }
    ensures order { IfOk result (λ t. MakesInOrder table.old (made_all (made_compared_all sig.now different (term_at table.old) pairs.now)).making table.new) }
{
    let parts = compared(alloc, sig, table, different, pairs)?;
    all_of(sig, table, parts)
}

/// Equality of each term with the next.
pub(crate) fn equal_of(
    alloc: Global,
    sig: &Signature,
    table: &mut TermTable,
    args: &[TermId],
) -> Result<TermId, TermError>
    requires kept { IsSoundTable sig.now table.old }
    requires below { AllByRecursion (λ t. t.0 < length table.old) args.now }
    requires operands { (side : SortId) × (1 < length args.now) × AllHaveSort sig.now side (map (term_at table.old) args.now) }
    ensures core { IfOk result (λ t. Stands table.new t (conjunction_of (neighbours (equality_of sig.now) (map (term_at table.old) args.now)))) }
    ensures effect { (allowed : List CoreTree)
        → Within allowed (conjunction_of (neighbours (equality_of sig.now) (map (term_at table.old) args.now)))
        → Effect sig.now allowed table.old table.new (IsErrOf result TermError.Full) }
{
    let pairs = neighbours_all(alloc, args)?;
    conjoin(alloc, sig, table, false, &pairs)
}

/// Inequality of all pairs of terms.
pub(crate) fn distinct_of(
    alloc: Global,
    sig: &Signature,
    table: &mut TermTable,
    args: &[TermId],
) -> Result<TermId, TermError>
    requires kept { IsSoundTable sig.now table.old }
    requires below { AllByRecursion (λ t. t.0 < length table.old) args.now }
    requires operands { (side : SortId) × (1 < length args.now) × AllHaveSort sig.now side (map (term_at table.old) args.now) }
    ensures core { IfOk result (λ t. Stands table.new t (conjunction_of (pairs (inequality_of sig.now) (map (term_at table.old) args.now)))) }
    ensures effect { (allowed : List CoreTree)
        → Within allowed (conjunction_of (pairs (inequality_of sig.now) (map (term_at table.old) args.now)))
        → Effect sig.now allowed table.old table.new (IsErrOf result TermError.Full) }
    ensures order { IfOk result (λ t. MakesInOrder table.old (made_all (pairs (made_inequality sig.now) (map leaf (map (term_at table.old) args.now)))).making table.new) }
{
    let found = pairs_of(alloc, args)?;
    conjoin(alloc, sig, table, true, &found)
}
