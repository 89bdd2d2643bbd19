//! Closing classes under the rules: rounds that collect the merges that all rules ask for, until none
//! is asked for.
ghost use Rattle.std.specs.Prelude.{◌≡◌, ◌<◌, [], List, length, IfOk, OnOk, Some, slice_get};
ghost use Rattle.ct_sorts.specs.Declarations.{Declarations};
ghost use Rattle.ct_terms.specs.declared.ids.TermId.{TermId};
ghost use Rattle.ct_terms.specs.declared.ids.Lit.{Lit};
ghost use Rattle.ct_terms.specs.Terms.{Terms, AreSorted};
ghost use Rattle.ct_rules.specs.declared.equation.Equation.{Equation};
ghost use Rattle.ct_congr.specs.Partition.{InOneClass};
ghost use Rattle.ct_congr.specs.Needed.{AreNeeded};
ghost use Rattle.ct_congr.specs.Index.{IsConIndex};
ghost use Rattle.ct_congr.specs.Rules.{IsInjective, AreClosedBelow, AreShapes, AreSingleSorts, AreRulesClosed, AreClosedOf};
ghost use Rattle.ct_congr.specs.Sound.{roots, IsSound};
ghost use Rattle.ct_equivalence.specs.Over.{AreGroupingsOf};
ghost use Rattle.ct_congr.specs.History.{IsExtended};
ghost use Rattle.ct_congr.specs.Grown.{IsLater, AreInside, AreApart};

use crate::congruence::congruences;
use crate::constructors::{Shape, constructor_index, injections, shapes};
use crate::error::CongrError;
use crate::index::TermIndex;
use crate::merge::Merge;
use crate::rules::{equal_in, equal_out, expand, negate, select, test_false, test_true};
use crate::singles::singles;
use crate::store::{Store, add, reps};
use ct_rules::derivations;
use ct_sorts::Signature;
use ct_terms::{Core, TermId, TermTable};
use std::alloc::Global;

/// Makes classes one by all rules until none applies.
pub(crate) fn saturate(
    alloc: Global,
    sig: &Signature,
    table: &TermTable,
    single: &[bool],
    store: &mut Store,
) -> Result<(), CongrError>
    requires sorted { AreSorted sig.now table.now }
    requires single { AreSingleSorts sig.now single.now }
    requires long { length store.old.parts.now.reps ≡ length table.now }
    requires cons_long { length store.old.parts.now.cons ≡ length table.now }
    ensures later { IsLater store.old.parts.now.reps store.new.parts.now.reps store.old.merges.items store.new.merges.items }
    ensures extended { IsExtended store.old.parts store.new.parts store.old.merges.items store.new.merges.items }
    ensures of { AreGroupingsOf table.now store.old.parts → AreGroupingsOf table.now store.new.parts }
    ensures sound { (hyps : List Lit) (given : List Equation)
        → IsSound sig.now table.now hyps given store.old.parts.now.reps store.old.parts.now.cons store.old.merges.items
        → IsSound sig.now table.now hyps given store.new.parts.now.reps store.new.parts.now.cons store.new.merges.items }
    ensures closed { OnOk result (AreRulesClosed sig.now table.now (InOneClass store.new.parts.now.reps)) }
{
    let mut found = needed(alloc, sig, table, single, reps(store))?;
    while !found.is_empty() {
        apply(store, found)?;
        found = needed(alloc, sig, table, single, reps(store))?;
    }
    Ok(())
}

// The merges that the rules ask for.
fn needed(
    alloc: Global,
    sig: &Signature,
    table: &TermTable,
    single: &[bool],
    reps: &[TermId],
) -> Result<Vec<Merge>, CongrError>
    requires sorted { AreSorted sig.now table.now }
    requires single { AreSingleSorts sig.now single.now }
    requires long { length reps.now ≡ length table.now }
    requires own { (x r : TermId) → slice_get reps.now x.0 ≡ Some r → slice_get reps.now r.0 ≡ Some r }
    ensures needed { IfOk result (λ found. (hyps : List Lit) → AreNeeded sig.now table.now hyps reps.now found.items) }
    ensures closed { IfOk result (λ found. found.items ≡ [] → AreRulesClosed sig.now table.now (InOneClass reps.now)) }
{
    let mut found = Vec::new(alloc);
    let index = constructor_index(alloc, table, reps)?;
    let shapes = shapes(alloc, table, reps)?;
    congruences(alloc, table, reps, &mut found)?;
    injections(sig, table, reps, &index, &mut found)?;
    at_terms(alloc, sig, table, reps, &index, &shapes, &mut found)?;
    singles(alloc, table, single, reps, &mut found)?;
    Ok(found)
}

// The merges of the rules that begin at one term, for all terms.
fn at_terms(
    alloc: Global,
    sig: &Signature,
    table: &TermTable,
    reps: &[TermId],
    index: &TermIndex,
    shapes: &[Shape],
    found: &mut Vec<Merge>,
) -> Result<(), CongrError>
    requires sorted { AreSorted sig.now table.now }
    requires long { length reps.now ≡ length table.now }
    requires own { (x r : TermId) → slice_get reps.now x.0 ≡ Some r → slice_get reps.now r.0 ≡ Some r }
    requires index { IsConIndex table.now reps.now (length table.now) index.now }
    requires shapes_long { length shapes.now ≡ length reps.now }
    requires shapes { AreShapes table.now reps.now (length table.now) shapes.now }
    ensures needed { OnOk result ((hyps : List Lit)
        → AreNeeded sig.now table.now hyps reps.now found.old.items
        → AreNeeded sig.now table.now hyps reps.now found.new.items) }
    ensures none { OnOk result (found.new.items ≡ [] → found.old.items ≡ []) }
    ensures closed { OnOk result (found.new.items ≡ []
        → IsInjective table.now (InOneClass reps.now)
        → AreClosedBelow sig.now table.now (InOneClass reps.now) (length table.now)) }
{
    for t in 0..table.len() {
        at_term(alloc, sig, table, reps, index, shapes, TermId(t), found)?;
    }
    Ok(())
}

// The same for one term.
fn at_term(
    alloc: Global,
    sig: &Signature,
    table: &TermTable,
    reps: &[TermId],
    index: &TermIndex,
    shapes: &[Shape],
    t: TermId,
    found: &mut Vec<Merge>,
) -> Result<(), CongrError>
    requires sorted { AreSorted sig.now table.now }
    requires long { length reps.now ≡ length table.now }
    requires own { (x r : TermId) → slice_get reps.now x.0 ≡ Some r → slice_get reps.now r.0 ≡ Some r }
    requires index { IsConIndex table.now reps.now (length table.now) index.now }
    requires shapes_long { length shapes.now ≡ length reps.now }
    requires shapes { AreShapes table.now reps.now (length table.now) shapes.now }
    requires inside { t.0 < length table.now }
    ensures needed { OnOk result ((hyps : List Lit)
        → AreNeeded sig.now table.now hyps reps.now found.old.items
        → AreNeeded sig.now table.now hyps reps.now found.new.items) }
    ensures none { OnOk result (found.new.items ≡ [] → found.old.items ≡ []) }
    ensures closed { OnOk result (found.new.items ≡ []
        → IsInjective table.now (InOneClass reps.now)
        → AreClosedOf sig.now table.now (InOneClass reps.now) t) }
{
    match table.core(t) {
        Core::Sel(s, u) => {
            select(sig, table, reps, index, t, *s, *u, found)?;
            Ok(())
        }
        Core::Test(c, u) => {
            test_true(table, reps, index, t, *c, *u, found)?;
            test_false(table, reps, shapes, t, *c, *u, found)?;
            expand(alloc, sig, table, reps, t, *c, *u, found)?;
            Ok(())
        }
        Core::Eq(a, b) => {
            equal_in(table, reps, t, *a, *b, found)?;
            equal_out(table, reps, t, *a, *b, found)?;
            Ok(())
        }
        Core::Not(a) => {
            negate(table, reps, t, *a, true, found)?;
            negate(table, reps, t, *a, false, found)?;
            Ok(())
        }
        _ => Ok(()),
    }
}

// Adds the merges, from the last to the first.
fn apply(store: &mut Store, mut found: Vec<Merge>) -> Result<(), CongrError>
    requires inside { AreInside (length store.old.parts.now.reps) found.items }
    requires cons_long { length store.old.parts.now.cons ≡ length store.old.parts.now.reps }
    ensures later { IsLater store.old.parts.now.reps store.new.parts.now.reps store.old.merges.items store.new.merges.items }
    ensures cons_long { length store.new.parts.now.cons ≡ length store.old.parts.now.cons }
    ensures extended { IsExtended store.old.parts store.new.parts store.old.merges.items store.new.merges.items }
    ensures of { (terms : Terms) → AreGroupingsOf terms store.old.parts → AreGroupingsOf terms store.new.parts }
    ensures sound { (d : Declarations) (terms : Terms) (hyps : List Lit) (given : List Equation)
        → IsSound d terms hyps given store.old.parts.now.reps store.old.parts.now.cons store.old.merges.items
        → AreNeeded d terms hyps store.old.parts.now.reps found.items
        → IsSound d terms hyps given store.new.parts.now.reps store.new.parts.now.cons store.new.merges.items }
    ensures fewer { OnOk result (0 < length found.items
        → AreApart store.old.parts.now.reps found.items
        → roots store.new.parts.now.reps < roots store.old.parts.now.reps) }
{
    derivations();
    while let Some(merge) = found.pop() {
        add(store, merge.left, merge.right, merge.why)?;
    }
    Ok(())
}
