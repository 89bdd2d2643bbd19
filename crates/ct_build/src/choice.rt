//! Chooses values for open classes such that no two classes have the same value.
//!
//! Two classes of one value lead down to an open class and another class with its value, or to two classes that a
//! bisimulation relates, which are one. For two classes at most one value of an open class makes them have one value
//! (Reynolds and Blanchette 2015, section 4, on models). So a search that gives open classes their values one after the
//! other, while those that have none yet are told from everything else, need not go back.
ghost use Rattle.std.specs.Prelude.{◌≡◌, ℕ, ◌+◌, ◌<◌, ◌≤◌, ◌⊎◌, ◌∷◌, [], ◌++◌, length, IfOk, OnOk, MatchBool};
ghost use Rattle.ct_sorts.specs.declared.ids.SortId.{SortId};
ghost use Rattle.ct_terms.specs.declared.ids.TermId.{TermId};
ghost use Rattle.ct_card.specs.Made.{IsPrepared};
ghost use Rattle.ct_card.specs.Nth.{IsNth};
ghost use Rattle.ct_acyclic.specs.Order.{IsClassOrder};
ghost use Rattle.ct_build.specs.ClassValues.{AreApartWith};
ghost use Rattle.ct_build.specs.OpenClasses.{AreOpenClasses};
ghost use Rattle.ct_build.specs.Chosen.{AreChosen, AreSpread};
ghost use Rattle.ct_build.specs.Buildable.{AreBuildable};
ghost use Rattle.ct_build.specs.Trials.{AreAllChosen, IsNext, IsRefusedNext};

use crate::chosen::{Chosen, copy, push_value};
use crate::collision::collision;
use crate::error::BuildError;
use crate::facts::known;
use crate::open_classes::OpenClass;
use ct_card::{Sizes, different_values};
use ct_congr::Classes;
use ct_terms::TermId;
use ct_values::NodeId;
use std::alloc::Global;

/// The differences between the numbers of values with which all open classes are tried at once.
const GAPS: [u64; 13] = [1, 2, 4, 8, 16, 32, 64, 128, 256, 512, 1024, 2048, 4096];

/// Chooses a value for each open class: for all at once, with numbers that are further and further from one another, since
/// values of neighbouring numbers are often built from each other; and else for one after the other.
pub(crate) fn choose(
    alloc: Global,
    sizes: &Sizes,
    classes: &Classes,
    order: &[TermId],
    defaults: &[NodeId],
    unbuilt: &[OpenClass],
    chosen: &mut Chosen,
) -> Result<(), BuildError>
    requires buildable { AreBuildable classes.now sizes.now }
    requires ordered { IsClassOrder classes.now order.now }
    requires classes { AreOpenClasses classes.now unbuilt.now }
    requires chosen { AreChosen classes.now chosen.old.graph defaults.now unbuilt.now chosen.old.nodes.items }
    requires none { chosen.old.nodes.items ≡ [] }
    requires prepared { IsPrepared classes.now.declarations sizes.now chosen.old.graph chosen.old.prepared }
    ensures all { OnOk result (AreAllChosen classes.now defaults.now unbuilt.now chosen.new.graph chosen.new.nodes.items) }
{
    if unbuilt.is_empty() {
        return Ok(());
    }
    for gap in &GAPS {
        if is_all_at_once(
            alloc, sizes, classes, order, defaults, unbuilt, *gap, chosen,
        )? {
            return Ok(());
        }
    }
    start(alloc, sizes, classes, order, defaults, unbuilt, chosen)?;
    while chosen.nodes.len() < unbuilt.len() {
        settle(alloc, sizes, classes, order, defaults, unbuilt, chosen)?;
    }
    Ok(())
}

// No two classes have one value where all open classes are told from everything else.
fn start(
    alloc: Global,
    sizes: &Sizes,
    classes: &Classes,
    order: &[TermId],
    defaults: &[NodeId],
    unbuilt: &[OpenClass],
    chosen: &Chosen,
) -> Result<(), BuildError>
    requires buildable { AreBuildable classes.now sizes.now }
    requires ordered { IsClassOrder classes.now order.now }
    requires classes { AreOpenClasses classes.now unbuilt.now }
    requires chosen { AreChosen classes.now chosen.now.graph defaults.now unbuilt.now chosen.now.nodes.items }
    requires none { chosen.now.nodes.items ≡ [] }
    ensures apart { OnOk result (AreApartWith classes.now chosen.now.graph defaults.now unbuilt.now chosen.now.nodes.items) }
{
    known(classes);
    match collision(alloc, classes, order, defaults, unbuilt, chosen)? {
        None => Ok(()),
        Some(_) => unreachable!(),
    }
}

// Whether no two classes have one value where each open class has the value whose number is its rank times the gap, and half
// of the gap: so that also the first of a sort gets another number with another gap. If so these values are chosen.
fn is_all_at_once(
    alloc: Global,
    sizes: &Sizes,
    classes: &Classes,
    order: &[TermId],
    defaults: &[NodeId],
    unbuilt: &[OpenClass],
    gap: u64,
    chosen: &mut Chosen,
) -> Result<bool, BuildError>
    requires buildable { AreBuildable classes.now sizes.now }
    requires ordered { IsClassOrder classes.now order.now }
    requires classes { AreOpenClasses classes.now unbuilt.now }
    requires chosen { AreChosen classes.now chosen.old.graph defaults.now unbuilt.now chosen.old.nodes.items }
    requires prepared { IsPrepared classes.now.declarations sizes.now chosen.old.graph chosen.old.prepared }
    ensures done { IfOk result (λ done. MatchBool done
        (AreAllChosen classes.now defaults.now unbuilt.now chosen.new.graph chosen.new.nodes.items)
        (chosen.new ≡ chosen.old)) }
{
    let mut next = copy(alloc, chosen)?;
    push_all(sizes, classes, defaults, unbuilt, gap, &mut next)?;
    match collision(alloc, classes, order, defaults, unbuilt, &next)? {
        None => {
            *chosen = next;
            Ok(true)
        }
        Some(_) => {
            drop(next);
            Ok(false)
        }
    }
}

// Chooses these values for all open classes that have none: with its rank times the gap, and half of the gap, as the number of each.
fn push_all(
    sizes: &Sizes,
    classes: &Classes,
    defaults: &[NodeId],
    unbuilt: &[OpenClass],
    gap: u64,
    chosen: &mut Chosen,
) -> Result<(), BuildError>
    requires buildable { AreBuildable classes.now sizes.now }
    requires classes { AreOpenClasses classes.now unbuilt.now }
    requires chosen { AreChosen classes.now chosen.old.graph defaults.now unbuilt.now chosen.old.nodes.items }
    requires prepared { IsPrepared classes.now.declarations sizes.now chosen.old.graph chosen.old.prepared }
    ensures prepared { OnOk result (IsPrepared classes.now.declarations sizes.now chosen.new.graph chosen.new.prepared) }
    ensures chosen { OnOk result (AreChosen classes.now chosen.new.graph defaults.now unbuilt.now chosen.new.nodes.items) }
    ensures all { OnOk result (length chosen.new.nodes.items ≡ length unbuilt.now) }
    ensures spread { OnOk result (AreSpread classes.now (λ s n p. IsNth classes.now.declarations sizes.now s.0 n p) gap unbuilt.now (length chosen.old.nodes.items) chosen.new.graph chosen.new.nodes.items) }
{
    known(classes);
    different_values();
    while chosen.nodes.len() < unbuilt.len() {
        let rank = unbuilt[chosen.nodes.len()].rank;
        let number = rank.saturating_mul(gap).saturating_add(gap / 2);
        push_value(sizes, classes, unbuilt, number, chosen)?;
    }
    Ok(())
}

// Chooses a value for the next open class: of as many as there are pairs of terms, and one more, one serves.
fn settle(
    alloc: Global,
    sizes: &Sizes,
    classes: &Classes,
    order: &[TermId],
    defaults: &[NodeId],
    unbuilt: &[OpenClass],
    chosen: &mut Chosen,
) -> Result<(), BuildError>
    requires buildable { AreBuildable classes.now sizes.now }
    requires ordered { IsClassOrder classes.now order.now }
    requires classes { AreOpenClasses classes.now unbuilt.now }
    requires chosen { AreChosen classes.now chosen.old.graph defaults.now unbuilt.now chosen.old.nodes.items }
    requires apart { AreApartWith classes.now chosen.old.graph defaults.now unbuilt.now chosen.old.nodes.items }
    requires more { length chosen.old.nodes.items < length unbuilt.now }
    requires prepared { IsPrepared classes.now.declarations sizes.now chosen.old.graph chosen.old.prepared }
    ensures prepared { OnOk result (IsPrepared classes.now.declarations sizes.now chosen.new.graph chosen.new.prepared) }
    ensures next { OnOk result (IsNext classes.now defaults.now unbuilt.now chosen.old.nodes.items chosen.new.graph chosen.new.nodes.items) }
{
    known(classes);
    different_values();
    let count = classes.table().len() as u64;
    for number in 0..count * count + 1 {
        if is_next(
            alloc, sizes, classes, order, defaults, unbuilt, number, chosen,
        )? {
            return Ok(());
        }
    }
    unreachable!()
}

// Whether no two classes have one value where the next open class has the value with this number. If so it is chosen.
fn is_next(
    alloc: Global,
    sizes: &Sizes,
    classes: &Classes,
    order: &[TermId],
    defaults: &[NodeId],
    unbuilt: &[OpenClass],
    number: u64,
    chosen: &mut Chosen,
) -> Result<bool, BuildError>
    requires buildable { AreBuildable classes.now sizes.now }
    requires ordered { IsClassOrder classes.now order.now }
    requires classes { AreOpenClasses classes.now unbuilt.now }
    requires chosen { AreChosen classes.now chosen.old.graph defaults.now unbuilt.now chosen.old.nodes.items }
    requires more { length chosen.old.nodes.items < length unbuilt.now }
    requires prepared { IsPrepared classes.now.declarations sizes.now chosen.old.graph chosen.old.prepared }
    ensures prepared { OnOk result (IsPrepared classes.now.declarations sizes.now chosen.new.graph chosen.new.prepared) }
    ensures next { IfOk result (λ done. MatchBool done
        (IsNext classes.now defaults.now unbuilt.now chosen.old.nodes.items chosen.new.graph chosen.new.nodes.items)
        ((chosen.new ≡ chosen.old) × IsRefusedNext classes.now (λ s n p. IsNth classes.now.declarations sizes.now s.0 n p) chosen.old.graph defaults.now unbuilt.now chosen.old.nodes.items number)) }
{
    let mut next = copy(alloc, chosen)?;
    push_value(sizes, classes, unbuilt, number, &mut next)?;
    match collision(alloc, classes, order, defaults, unbuilt, &next)? {
        None => {
            *chosen = next;
            Ok(true)
        }
        Some(_) => {
            drop(next);
            Ok(false)
        }
    }
}
