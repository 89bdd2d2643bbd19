//! Nodes over default values, and nodes that differ from them.
ghost use Rattle.std.specs.Prelude.{◌≡◌, ℕ, ◌+◌, ◌<◌, ◌^◌, ◌++◌, [], ◌∷◌, false, Some, length, get_or, slice_get, IfOk, OnErr};
ghost use Rattle.ct_sorts.specs.Declarations.{IsConstructor};
ghost use Rattle.ct_values.specs.declared.node.Node.{Node};
ghost use Rattle.ct_values.specs.Fitting.{HasNodeSort, FitsNode};
ghost use Rattle.ct_card.specs.Fields.{ctor_fields};
ghost use Rattle.ct_card.specs.Rules.{IsDerived};
ghost use Rattle.ct_card.specs.Defaults.{node_of_sort, is_free_sort, AreRanked};
ghost use Rattle.ct_card.specs.Built.{HaveTheirSorts, node_over, node_of_layer, with_second, IsEndNode, IsDepartingNode, CanDepart, CanSet};

use crate::choice::rank_of;
use crate::defaults::{default_children, is_free};
use crate::departure::{Departure, Step};
use crate::error::CardError;
use ct_sorts::{CtorId, Signature, SortId, structure};
use ct_values::{Graph, Node, NodeId, NodeIds};
use std::alloc::Global;

/// One more node: the constructor over the default values of its fields, which stand from the base on.
pub(crate) fn push_over(
    alloc: Global,
    sig: &Signature,
    ranks: &[usize],
    base: u64,
    g: &mut Graph,
    c: CtorId,
) -> Result<NodeId, CardError>
    requires inside { IsConstructor sig.now c }
    requires long { length ranks.now ≡ length sig.now.sorts }
    requires ranked { AreRanked ranks.now base }
    requires sorted { HaveTheirSorts sig.now ranks.now base g.old }
    ensures number { IfOk result (λ n. n.0 ≡ length g.old) }
    ensures pushed { IfOk result (λ n. g.new ≡ g.old ++ node_over sig.now ranks.now base c ∷ []) }
    ensures fits { IfOk result (λ n. FitsNode sig.now g.old (node_over sig.now ranks.now base c)) }
    ensures err { OnErr result (g.new ≡ g.old) }
{
    structure();
    prove!(sig.sorts() > 0);
    let children = default_children(alloc, sig, ranks, base, c)?;
    let n = g.push(Node::Con(c, NodeIds::new(children)))?;
    Ok(n)
}

/// One more node: the constructor of the step over the default values of its fields, but with this node in the place of the
/// step, and with the second value in the field that is set, if one is. Second values stand from the second number on.
pub(crate) fn push_layer(
    alloc: Global,
    sig: &Signature,
    several: &[usize],
    ranks: &[usize],
    base: u64,
    second: u64,
    g: &mut Graph,
    step: Step,
    set: Option<Step>,
    child: NodeId,
) -> Result<NodeId, CardError>
    requires inside { IsConstructor sig.now step.ctor }
    requires long { length ranks.now ≡ length sig.now.sorts }
    requires ranked { AreRanked ranks.now base }
    requires sorted { HaveTheirSorts sig.now ranks.now base g.old }
    requires field { slice_get (ctor_fields sig.now step.ctor) step.place ≡ Some step.next }
    requires child { HasNodeSort sig.now g.old child (record { 0 = step.next }) }
    requires set { (other : Step) → set ≡ Some other → CanSet sig.now several.now second g.old step other }
    ensures number { IfOk result (λ n. n.0 ≡ length g.old) }
    ensures pushed { IfOk result (λ n. g.new ≡ g.old ++ node_of_layer sig.now several.now ranks.now base second step set child ∷ []) }
    ensures fits { IfOk result (λ n. FitsNode sig.now g.old (node_of_layer sig.now several.now ranks.now base second step set child)) }
    ensures err { OnErr result (g.new ≡ g.old) }
{
    structure();
    prove!(sig.sorts() > 0);
    let mut children = default_children(alloc, sig, ranks, base, step.ctor)?;
    children[step.place] = child;
    set_second(several, second, set, &mut children);
    let n = g.push(Node::Con(step.ctor, NodeIds::new(children)))?;
    Ok(n)
}

// Puts the second value into the place of the field that is set, if one is.
fn set_second(several: &[usize], second: u64, set: Option<Step>, children: &mut Vec<NodeId>)
    requires inside { (other : Step) → set ≡ Some other → other.place < length children.old.items }
    requires derived { (other : Step) → set ≡ Some other → IsDerived several.now other.next }
    requires room { (other : Step) → set ≡ Some other → second + get_or several.now other.next 0 < 2 ^ 64 }
    ensures set { children.new.items ≡ with_second several.now second set children.old.items }
{
    if let Some(other) = set {
        children[other.place] = second_node(several, second, other.next);
    }
}

/// One more node: the element with this number where the sort is uninterpreted, and else a node that departs so from default
/// values. Second values stand from the second number on.
pub(crate) fn push_end(
    alloc: Global,
    sig: &Signature,
    several: &[usize],
    ranks: &[usize],
    base: u64,
    second: u64,
    g: &mut Graph,
    s: usize,
    number: u64,
    departure: Departure,
) -> Result<NodeId, CardError>
    requires inside { s < length sig.now.sorts }
    requires long { length ranks.now ≡ length sig.now.sorts }
    requires ranked { AreRanked ranks.now base }
    requires sorted { HaveTheirSorts sig.now ranks.now base g.old }
    requires can { is_free_sort sig.now s ≡ false → CanDepart sig.now several.now second g.old departure }
    ensures number { IfOk result (λ n. n.0 ≡ length g.old) }
    ensures pushed { IfOk result (λ n. (node : Node) × IsEndNode sig.now several.now ranks.now base second s number departure node × FitsNode sig.now g.old node × (g.new ≡ g.old ++ node ∷ [])) }
    ensures err { OnErr result (g.new ≡ g.old) }
{
    structure();
    prove!(s < sig.sorts() as usize);
    let id = SortId(s as u32);
    if is_free(sig.kind(id)) {
        let n = g.push(Node::Elem(id, number))?;
        return Ok(n);
    }
    push_departing(alloc, sig, several, ranks, base, second, g, departure)
}

// One more node, which departs so from default values.
fn push_departing(
    alloc: Global,
    sig: &Signature,
    several: &[usize],
    ranks: &[usize],
    base: u64,
    second: u64,
    g: &mut Graph,
    departure: Departure,
) -> Result<NodeId, CardError>
    requires long { length ranks.now ≡ length sig.now.sorts }
    requires ranked { AreRanked ranks.now base }
    requires sorted { HaveTheirSorts sig.now ranks.now base g.old }
    requires can { CanDepart sig.now several.now second g.old departure }
    ensures number { IfOk result (λ n. n.0 ≡ length g.old) }
    ensures pushed { IfOk result (λ n. (node : Node) × IsDepartingNode sig.now several.now ranks.now base second departure node × FitsNode sig.now g.old node × (g.new ≡ g.old ++ node ∷ [])) }
    ensures err { OnErr result (g.new ≡ g.old) }
{
    match departure {
        Departure::Constructor(other) => push_over(alloc, sig, ranks, base, g, other),
        Departure::Field(step) => {
            let child = second_node(several, second, step.next);
            push_layer(
                alloc, sig, several, ranks, base, second, g, step, None, child,
            )
        }
        // No caller asks for it.
        Departure::Nowhere => {
            prove!(false);
            Err(CardError)
        }
    }
}

/// The node of the second value of a sort.
pub(crate) fn second_node(several: &[usize], second: u64, s: usize) -> NodeId
    requires derived { IsDerived several.now s }
    requires room { second + get_or several.now s 0 < 2 ^ 64 }
    ensures value { result ≡ node_of_sort second several.now s }
{
    NodeId(second + (rank_of(several, s) as u64 - 1))
}
