//! The n-th value of an infinite sort: its layers, from the innermost one outward, or from a value that was made before.
ghost use Rattle.std.specs.Prelude.{◌≡◌, ℕ, ◌+◌, ◌<◌, ◌^◌, false, List, length, get_or, Some, None, IfOk};
ghost use Rattle.ct_sorts.specs.declared.ids.CtorId.{CtorId};
ghost use Rattle.ct_sorts.specs.Grown.{Begins};
ghost use Rattle.ct_values.specs.Agreement.{node_point};
ghost use Rattle.ct_values.specs.Fitting.{HasNodeSort};
ghost use Rattle.ct_values.specs.WellFormed.{IsWellFormedGraph};
ghost use Rattle.ct_card.specs.declared.departure.Departure.{Departure};
ghost use Rattle.ct_card.specs.Cardinality.{IsInfinite};
ghost use Rattle.ct_card.specs.Rules.{IsDerived};
ghost use Rattle.ct_card.specs.Ranked.{AreSeveral};
ghost use Rattle.ct_card.specs.Defaults.{AreRanked, node_of_sort};
ghost use Rattle.ct_card.specs.Departures.{AreSeconds, AreLayers};
ghost use Rattle.ct_card.specs.Built.{HaveTheirSorts};
ghost use Rattle.ct_card.specs.Signs.{HasAllDefaults, HasAllSeconds};
ghost use Rattle.ct_values.specs.declared.node.NodeId.{NodeId};
ghost use Rattle.ct_card.specs.Descent.{IsWanted, HasComeDown};
ghost use Rattle.ct_card.specs.Made.{IsMade, HaveMadeSorts, AreMadeNth};
ghost use Rattle.ct_card.specs.Nth.{IsNthIn};

use crate::built::{push_end, push_layer};
use crate::departure::{Layer, layer_at};
use crate::descent::{Descent, descend};
use crate::error::CardError;
use crate::made::Made;
use ct_sorts::{Signature, structure};
use ct_values::{Graph, NodeId, agreement};
use std::alloc::Global;

/// Puts the n-th value of an infinite sort after the graph, which has the default values of all sorts from the base on, the
/// second values of all sorts of several values from the second number on, and the values that were made before.
pub(crate) fn append_nth(
    alloc: Global,
    sig: &Signature,
    several: &[usize],
    ranks: &[usize],
    layers: &[Layer],
    base: u64,
    second: u64,
    made: &[Option<Made>],
    g: &mut Graph,
    s: usize,
    n: u64,
) -> Result<NodeId, CardError>
    requires inside { s < length sig.now.sorts }
    requires infinite { IsInfinite sig.now s }
    requires several { AreSeveral sig.now several.now }
    requires layered { AreLayers sig.now several.now layers.now }
    requires long { length ranks.now ≡ length sig.now.sorts }
    requires ranked { AreRanked ranks.now base }
    requires sorted { HaveTheirSorts sig.now ranks.now base g.old }
    requires seconds { (t : ℕ) → IsDerived several.now t → HasNodeSort sig.now g.old (node_of_sort second several.now t) (record { 0 = t }) }
    requires room { (t : ℕ) → IsDerived several.now t → second + get_or several.now t 0 < 2 ^ 64 }
    requires made { HaveMadeSorts sig.now g.old made.now }
    ensures grown { Begins g.old g.new }
    ensures well_formed { IsWellFormedGraph sig.now g.old → IsWellFormedGraph sig.now g.new }
    ensures sorted { IfOk result (λ k. HasNodeSort sig.now g.new k (record { 0 = s })) }
    ensures nth { IfOk result (λ k. (ctors : List CtorId) (seconds : List Departure)
        → AreSeconds sig.now several.now ctors seconds
        → HasAllDefaults sig.now ranks.now ctors base g.old
        → HasAllSeconds sig.now several.now ctors seconds second g.old
        → AreMadeNth sig.now ctors seconds layers.now g.old made.now
        → IsNthIn sig.now ctors seconds layers.now s n (node_point g.new k)) }
{
    structure();
    agreement();
    prove!(sig.sorts() > 0);
    prove!(g.len() <= u64::MAX);
    let mut down = descend(alloc, sig, several, layers, made, s, n)?;
    let mut top = innermost(
        alloc, sig, several, ranks, layers, base, second, made, g, &down,
    )?;
    while let Some(passed) = down.way.pop() {
        prove!(g.len() <= u64::MAX);
        let layer = layer_at(layers, passed.sort);
        top = push_layer(
            alloc, sig, several, ranks, base, second, g, layer.step, passed.set, top,
        )?;
    }
    Ok(top)
}

// The value to which the way down led: the one that was made before, or one more node.
fn innermost(
    alloc: Global,
    sig: &Signature,
    several: &[usize],
    ranks: &[usize],
    layers: &[Layer],
    base: u64,
    second: u64,
    made: &[Option<Made>],
    g: &mut Graph,
    down: &Descent,
) -> Result<NodeId, CardError>
    requires inside { down.now.wanted.sort < length sig.now.sorts }
    requires infinite { IsInfinite sig.now down.now.wanted.sort }
    requires several { AreSeveral sig.now several.now }
    requires layered { AreLayers sig.now several.now layers.now }
    requires long { length ranks.now ≡ length sig.now.sorts }
    requires ranked { AreRanked ranks.now base }
    requires sorted { HaveTheirSorts sig.now ranks.now base g.old }
    requires seconds { (t : ℕ) → IsDerived several.now t → HasNodeSort sig.now g.old (node_of_sort second several.now t) (record { 0 = t }) }
    requires room { (t : ℕ) → IsDerived several.now t → second + get_or several.now t 0 < 2 ^ 64 }
    requires made { HaveMadeSorts sig.now g.old made.now }
    requires end { down.now.top ≡ None → HasComeDown sig.now layers.now down.now.wanted }
    requires found { (k : NodeId) → down.now.top ≡ Some k → (down.now.wanted.turn ≡ false) × IsMade made.now down.now.wanted.sort down.now.wanted.number k }
    ensures grown { Begins g.old g.new }
    ensures well_formed { IsWellFormedGraph sig.now g.old → IsWellFormedGraph sig.now g.new }
    ensures sorted { IfOk result (λ k. HasNodeSort sig.now g.new k (record { 0 = down.now.wanted.sort })) }
    ensures nth { IfOk result (λ k. (ctors : List CtorId) (seconds : List Departure)
        → AreSeconds sig.now several.now ctors seconds
        → HasAllDefaults sig.now ranks.now ctors base g.old
        → HasAllSeconds sig.now several.now ctors seconds second g.old
        → AreMadeNth sig.now ctors seconds layers.now g.old made.now
        → IsWanted sig.now ctors seconds layers.now down.now.wanted (node_point g.new k)) }
{
    structure();
    agreement();
    prove!(sig.sorts() > 0);
    if let Some(top) = down.top {
        return Ok(top);
    }
    let last = layer_at(layers, down.wanted.sort);
    prove!(g.len() <= u64::MAX);
    let top = push_end(
        alloc,
        sig,
        several,
        ranks,
        base,
        second,
        g,
        down.wanted.sort,
        down.wanted.number,
        last.departure,
    )?;
    Ok(top)
}
