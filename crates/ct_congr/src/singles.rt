//! The rule that two terms of a sort with one value are equal.
ghost use Rattle.std.specs.Prelude.{◌≡◌, [], List, length, IfOk, OnOk, MatchBool};
ghost use Rattle.ct_sorts.specs.Declarations.{Declarations};
ghost use Rattle.ct_terms.specs.declared.ids.Lit.{Lit};
ghost use Rattle.ct_card.specs.declared.size.Size.TheVariants.{One};
ghost use Rattle.ct_card.specs.Sizes.{AreSizes};
ghost use Rattle.ct_congr.specs.Partition.{InOneClass};
ghost use Rattle.ct_congr.specs.Needed.{AreNeeded};
ghost use Rattle.ct_congr.specs.Rules.{IsSingular, AreSingleSorts, IsFirst};

use crate::error::CongrError;
use crate::merge::{Merge, Reason};
use crate::needed::need;
use ct_card::{Size, Sizes, unique_sizes};
use ct_sorts::{Signature, SortId};
use ct_terms::{TermId, TermTable};
use std::alloc::Global;

/// The merges that sorts with one value ask for: each term of such a sort with the first one.
pub(crate) fn singles(
    alloc: Global,
    table: &TermTable,
    single: &[bool],
    reps: &[TermId],
    found: &mut Vec<Merge>,
) -> Result<(), CongrError>
    requires long { length reps.now ≡ length table.now }
    ensures needed { OnOk result ((d : Declarations) (hyps : List Lit)
        → AreSingleSorts d single.now
        → AreNeeded d table.now hyps reps.now found.old.items
        → AreNeeded d table.now hyps reps.now found.new.items) }
    ensures closed { OnOk result (found.new.items ≡ [] → (found.old.items ≡ [])
        × ((d : Declarations) → AreSingleSorts d single.now → IsSingular d table.now (InOneClass reps.now))) }
{
    let mut firsts = vec![in alloc; None; single.len()]?;
    for t in 0..table.len() {
        let t = TermId(t);
        let first = first_of_sort(single, &mut firsts, table.sort(t), t);
        need(reps, found, t, first, Reason::Single)?;
    }
    Ok(())
}

/// The first term of the sort, if the sort has one value; else the term itself.
pub(crate) fn first_of_sort(
    single: &[bool],
    firsts: &mut Vec<Option<TermId>>,
    s: SortId,
    t: TermId,
) -> TermId
    requires long { length firsts.old.items ≡ length single.now }
    ensures long { length firsts.new.items ≡ length single.now }
    ensures first { IsFirst single.now firsts.old.items firsts.new.items s t result }
{
    match single.get(s.0 as usize) {
        Some(true) => {}
        _ => return t,
    }
    match firsts[s.0 as usize] {
        Some(first) => first,
        None => {
            firsts[s.0 as usize] = Some(t);
            t
        }
    }
}

/// Whether each sort has one value.
pub(crate) fn single_sorts(
    alloc: Global,
    sig: &Signature,
    sizes: &Sizes,
) -> Result<Vec<bool>, CongrError>
    requires sizes { AreSizes sig.now sizes.now }
    ensures single { IfOk result (λ single. AreSingleSorts sig.now single.items) }
{
    unique_sizes();
    let mut single = Vec::with_capacity(alloc, sig.sorts() as usize)?;
    for s in 0..sig.sorts() {
        single.push(is_one(sizes.size_of(SortId(s))))?;
    }
    Ok(single)
}

// Whether the size is one.
fn is_one(size: Size) -> bool
    ensures one { MatchBool result (size ≡ One) (size ≡ One → ⊥) }
{
    match size {
        Size::One => true,
        _ => false,
    }
}
