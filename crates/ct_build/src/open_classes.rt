//! Open classes: those of infinite sorts that have no constructor term, whose values are chosen.
ghost use Rattle.std.specs.Prelude.{◌≡◌, ℕ, ◌+◌, ◌<◌, length, Some, slice_get, IfOk, OnOk, MatchBool};
ghost use Rattle.ct_sorts.specs.Declarations.{IsSort};
ghost use Rattle.ct_card.specs.Sizes.{AreSizes};
ghost use Rattle.ct_terms.specs.Terms.{IsOfSort};
ghost use Rattle.ct_terms.specs.declared.ids.TermId.{TermId};
ghost use Rattle.ct_build.specs.declared.open_classes.OpenClass.{OpenClass};
ghost use Rattle.ct_build.specs.OpenClasses.{IsOpenClass, AreOpenClasses, AreFirstOpen, AreCounts, HaveOwnRepresentatives};

use crate::error::BuildError;
use crate::facts::facts;
use ct_card::{Size, Sizes, unique_sizes};
use ct_congr::Classes;
use ct_sorts::SortId;
use ct_terms::TermId;
use std::alloc::Global;

/// An open class.
#[derive(Clone, Copy, Debug)]
pub(crate) struct OpenClass {
    /// The representative.
    pub(crate) rep: TermId,
    /// How many open classes of its sort come before it.
    pub(crate) rank: u64,
}

/// All open classes, each once and with its rank, in the order of their representatives.
pub(crate) fn open_classes(
    alloc: Global,
    sizes: &Sizes,
    classes: &Classes,
) -> Result<Vec<OpenClass>, BuildError>
    requires sizes { AreSizes classes.now.declarations sizes.now }
    ensures classes { IfOk result (λ list. AreOpenClasses classes.now list.items) }
    ensures own { IfOk result (λ list. HaveOwnRepresentatives classes.now) }
{
    facts(classes);
    let mut counts = vec![in alloc; 0u64; classes.signature().sorts() as usize]?;
    let mut list = Vec::new(alloc);
    for t in 0..classes.table().len() {
        add_if_open(sizes, classes, TermId(t), &mut counts, &mut list)?;
    }
    Ok(list)
}

// Adds the class that the term represents, if it is an open one, and counts it for its sort.
fn add_if_open(
    sizes: &Sizes,
    classes: &Classes,
    rep: TermId,
    counts: &mut Vec<u64>,
    list: &mut Vec<OpenClass>,
) -> Result<(), BuildError>
    requires sizes { AreSizes classes.now.declarations sizes.now }
    requires inside { rep.0 < length classes.now.terms }
    requires long { length counts.old.items ≡ length classes.now.declarations.sorts }
    requires counts { AreCounts classes.now list.old.items counts.old.items }
    requires first { AreFirstOpen classes.now rep.0 list.old.items }
    ensures long { OnOk result (length counts.new.items ≡ length classes.now.declarations.sorts) }
    ensures counts { OnOk result (AreCounts classes.now list.new.items counts.new.items) }
    ensures first { OnOk result (AreFirstOpen classes.now (rep.0 + 1) list.new.items) }
{
    if !is_open(sizes, classes, rep) {
        return Ok(());
    }
    let s = term_sort(classes, rep).0 as usize;
    let rank = counts[s];
    list.push(OpenClass { rep, rank })?;
    counts[s] = rank.saturating_add(1);
    Ok(())
}

// Whether the term represents an open class.
fn is_open(sizes: &Sizes, classes: &Classes, t: TermId) -> bool
    requires sizes { AreSizes classes.now.declarations sizes.now }
    requires inside { t.0 < length classes.now.terms }
    ensures class { MatchBool result ((rank : ℕ) → IsOpenClass classes.now (record { rep = t; rank = rank })) ((class : OpenClass) → class.rep ≡ t → IsOpenClass classes.now class → ⊥) }
    ensures own { (r : TermId) → slice_get classes.now.reps t.0 ≡ Some r → slice_get classes.now.reps r.0 ≡ Some r }
{
    let s = term_sort(classes, t);
    let rep = classes.rep(t);
    if rep != t {
        return false;
    }
    if classes.con_of(t).is_some() {
        return false;
    }
    unique_sizes();
    match sizes.size_of(s) {
        Size::Infinite => true,
        Size::One => false,
        Size::Finite => false,
    }
}

/// The sort of the term, which is declared.
pub(crate) fn term_sort(classes: &Classes, t: TermId) -> SortId
    requires inside { t.0 < length classes.now.terms }
    ensures sort { IsOfSort classes.now.terms t result }
    ensures declared { IsSort classes.now.declarations result }
{
    facts(classes);
    let table = classes.table();
    table.sort(t)
}
