//! Second values: for each sort of several values one that is not the same as its default value. The sorts come in the
//! order in which they are known to have several values, so that the second values of fields are there already.
ghost use Rattle.std.specs.Prelude.{◌≡◌, ℕ, ◌+◌, ◌<◌, ◌^◌, length, get_or, IfOk};
ghost use Rattle.ct_sorts.specs.Grown.{Begins};
ghost use Rattle.ct_values.specs.Agreement.{node_point, AgreeAlways};
ghost use Rattle.ct_values.specs.WellFormed.{IsWellFormedGraph};
ghost use Rattle.ct_card.specs.Rules.{IsDerived, IsOrder};
ghost use Rattle.ct_card.specs.Ranked.{AreSeveral};
ghost use Rattle.ct_card.specs.Defaults.{AreChosen, AreRanked, node_of_sort};
ghost use Rattle.ct_card.specs.Departures.{AreSeconds};
ghost use Rattle.ct_card.specs.Signs.{HasAllDefaults, HasAllSeconds};

use crate::built::push_end;
use crate::departure::{Departure, departure_at};
use crate::error::CardError;
use ct_sorts::{CtorId, Signature, structure};
use ct_values::{Graph, agreement};
use std::alloc::Global;

/// Puts a second value for each sort of several values after the graph, which has the default values of all sorts from the
/// base on, and gives the number of the first node. That of a sort whose rank among those of several values is r stands
/// r - 1 later.
pub(crate) fn append_seconds(
    alloc: Global,
    sig: &Signature,
    several: &[usize],
    queue: &[usize],
    ranks: &[usize],
    ctors: &[CtorId],
    seconds: &[Departure],
    base: u64,
    g: &mut Graph,
) -> Result<u64, CardError>
    requires several { AreSeveral sig.now several.now }
    requires queued { IsOrder several.now queue.now }
    requires departures { AreSeconds sig.now several.now ctors.now seconds.now }
    requires long { length ranks.now ≡ length sig.now.sorts }
    requires ranked { AreRanked ranks.now base }
    requires chosen { AreChosen sig.now ranks.now ctors.now }
    requires defaults { HasAllDefaults sig.now ranks.now ctors.now base g.old }
    ensures grown { Begins g.old g.new }
    ensures well_formed { IsWellFormedGraph sig.now g.old → IsWellFormedGraph sig.now g.new }
    ensures defaults { IfOk result (λ second. HasAllDefaults sig.now ranks.now ctors.now base g.new) }
    ensures seconds { IfOk result (λ second. HasAllSeconds sig.now several.now ctors.now seconds.now second g.new) }
    ensures differ { IfOk result (λ second. (s : ℕ) → IsDerived several.now s → AgreeAlways (node_point g.new (node_of_sort base ranks.now s)) (node_point g.new (node_of_sort second several.now s)) → ⊥) }
    ensures room { IfOk result (λ second. (s : ℕ) → IsDerived several.now s → second + get_or several.now s 0 < 2 ^ 64) }
{
    structure();
    agreement();
    prove!(sig.sorts() > 0);
    let second = g.len();
    if second >= u64::MAX - queue.len() as u64 {
        return Err(CardError);
    }
    for s in queue {
        prove!(g.len() <= u64::MAX);
        let departure = departure_at(seconds, *s);
        push_end(
            alloc, sig, several, ranks, base, second, g, *s, 1, departure,
        )?;
    }
    Ok(second)
}
