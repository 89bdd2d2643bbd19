//! An interpretation of classes in which values are as small as can be.
ghost use Rattle.std.specs.Prelude.{◌≡◌, length, IfOk, IfSome};
ghost use Rattle.ct_card.specs.Sizes.{AreSizes};
ghost use Rattle.ct_congr.specs.State.{IsQuiet};
ghost use Rattle.ct_build.specs.OpenClasses.{AreOpenClasses, HaveOwnRepresentatives};
ghost use Rattle.ct_acyclic.specs.Order.{IsClassOrder};
ghost use Rattle.ct_eval.specs.Interpretation.{IsProper};
ghost use Rattle.ct_build.specs.Rounds.{IsProperRound};

use crate::compacting::{compact_tables, if_proper};
use crate::demands::Demands;
use crate::differences::{Differences, ask};
use crate::error::BuildError;
use crate::functions::function_tables;
use crate::open_classes::{OpenClass, open_classes};
use crate::selectors::selector_tables;
use crate::small_values::{SmallValues, small_values};
use ct_acyclic::Order;
use ct_card::Sizes;
use ct_congr::Classes;
use ct_eval::{Interp, Tables};
use ct_terms::TermId;
use std::alloc::Global;

// How often more may be asked of the values of open classes, and the round from which elements of sorts without constructors have
// numbers of their own where something is asked of them.
const ROUNDS: u32 = 12;

const SPREAD: u32 = 2;

/// What a round comes to.
#[derive(Drop)]
pub(crate) enum Round {
    /// All that must be different is.
    Done(Option<Interp>),
    /// More was asked.
    Again,
}

/// A well-formed interpretation of classes in which open classes have small values, different ones only where an equation that is false
/// or applications with different values want that, and tables few rows. Nothing says that terms of different classes have different
/// values in it: whoever asks for it looks whether the assertions hold. `None` where no such values were found soon. The only error is
/// out of memory.
pub fn build_small(
    alloc: Global,
    sizes: &Sizes,
    classes: &Classes,
    order: &Order,
) -> Result<Option<Interp>, BuildError>
    requires sizes { AreSizes classes.now.declarations sizes.now }
    requires quiet { IsQuiet classes.now }
    requires ordered { IsClassOrder classes.now order.now.reps.items }
    ensures proper { IfOk result (λ found. IfSome found (IsProper classes.now.declarations)) }
{
    let unbuilt = open_classes(alloc, sizes, classes)?;
    let mut demands = Demands::new(alloc, classes, &unbuilt)?;
    for round in 0..ROUNDS {
        if round >= SPREAD {
            demands.spread(classes, &unbuilt);
        }
        match attempt(
            alloc,
            sizes,
            classes,
            &order.reps,
            &unbuilt,
            round,
            &mut demands,
        )? {
            Round::Done(found) => return Ok(found),
            Round::Again => {}
        }
    }
    Ok(None)
}

// The interpretation with the smallest values that meet the demands, or more demands.
fn attempt(
    alloc: Global,
    sizes: &Sizes,
    classes: &Classes,
    order: &[TermId],
    unbuilt: &[OpenClass],
    round: u32,
    demands: &mut Demands,
) -> Result<Round, BuildError>
    requires sizes { AreSizes classes.now.declarations sizes.now }
    requires quiet { IsQuiet classes.now }
    requires own { HaveOwnRepresentatives classes.now }
    requires ordered { IsClassOrder classes.now order.now }
    requires classes { AreOpenClasses classes.now unbuilt.now }
    ensures proper { IfOk result (IsProperRound classes.now.declarations) }
{
    let numbers = demands.numbers(alloc)?;
    let small = small_values(alloc, sizes, classes, order, unbuilt, &numbers)?;
    match ask(alloc, classes, &small, &numbers, round, demands)? {
        Differences::Stand => {
            let found = interpretation(alloc, classes, small)?;
            Ok(Round::Done(found))
        }
        Differences::Asked => Ok(Round::Again),
        Differences::Lack => Ok(Round::Done(None)),
    }
}

// The interpretation in which classes have these values, if it is well formed.
fn interpretation(
    alloc: Global,
    classes: &Classes,
    small: SmallValues,
) -> Result<Option<Interp>, BuildError>
    requires quiet { IsQuiet classes.now }
    requires nodes { length small.nodes.items ≡ length classes.now.terms }
    requires defaults { length small.defaults.items ≡ length classes.now.declarations.sorts }
    ensures proper { IfOk result (λ found. IfSome found (IsProper classes.now.declarations)) }
{
    let SmallValues {
        shared,
        nodes,
        defaults,
    } = small;
    let sig = classes.signature();
    let funs = function_tables(alloc, sig, classes.table(), &nodes, &defaults)?;
    let offs = selector_tables(alloc, classes, &nodes, &defaults)?;
    let funs = compact_tables(alloc, &funs)?;
    let offs = compact_tables(alloc, &offs)?;
    if_proper(
        sig,
        Interp {
            graph: shared.into_graph(),
            funs: Tables::new(funs),
            offs: Tables::new(offs),
        },
    )
}
