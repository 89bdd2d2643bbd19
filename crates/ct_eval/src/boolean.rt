//! The values of Boolean terms: the answer to a question about the terms under them, as the node of a truth value.
ghost use Rattle.std.specs.Prelude.{◌≡◌, ◌<◌, All, IfOk, not, if◌then◌else◌};
ghost use Rattle.std.specs.List.{list_all, list_any};
ghost use Rattle.ct_sorts.specs.Declarations.{Declarations, bool_sort};
ghost use Rattle.ct_sorts.specs.Consistent.{IsConsistent};
ghost use Rattle.ct_values.specs.Value.{reference, construct, no_values};
ghost use Rattle.ct_values.specs.Fitting.{FitsGraph};
ghost use Rattle.ct_eval.specs.declared.interp.Interp.{Interp};
ghost use Rattle.ct_values.specs.TruthValue.{truth, is_true};
ghost use Rattle.ct_eval.specs.EvaluationStep.{IsGrown, HasNode, node_under, IsEvaluable, IsResult, IsNodeFor};

use crate::error::EvalError;
use crate::interp::Interp;
use crate::nodes::{closed, is_built, node_at, theorems};
use ct_sorts::CtorId;
use ct_terms::{Core, TermId};
use ct_values::{NodeId, NodeIds, SharedGraph};
use std::alloc::Global;

/// The constructor `true`.
pub(crate) const TRUE: CtorId = CtorId(0);

/// The constructor `false`.
const FALSE: CtorId = CtorId(1);

/// The node of whether a term is built by a constructor.
pub(crate) fn test(
    alloc: Global,
    shared: &mut SharedGraph,
    nodes: &[NodeId],
    c: CtorId,
    t: TermId,
) -> Result<NodeId, EvalError>
    requires ready { (d : Declarations) × (i : Interp) × IsEvaluable d i shared.old nodes.now (Core.Test c t) }
    ensures grown { IfOk result (IsGrown shared.old shared.new) }
    ensures value { (d : Declarations) (i : Interp)
        → IsConsistent d
        → FitsGraph d shared.old
        → IfOk result (IsNodeFor d i shared.old shared.new nodes.now (Core.Test c t)) }
{
    theorems(shared);
    let answer = is_built(shared.graph(), c, node_at(shared, nodes, t));
    truth(alloc, shared, answer)
}

/// The node of whether two terms are equal values: they have one representative.
pub(crate) fn equate(
    alloc: Global,
    interp: &Interp,
    shared: &mut SharedGraph,
    nodes: &[NodeId],
    a: TermId,
    b: TermId,
) -> Result<NodeId, EvalError>
    requires ready { (d : Declarations) × IsEvaluable d interp.now shared.old nodes.now (Core.Eq a b) }
    ensures grown { IfOk result (IsGrown shared.old shared.new) }
    ensures value { (d : Declarations)
        → IsConsistent d
        → FitsGraph d shared.old
        → IfOk result (IsNodeFor d interp.now shared.old shared.new nodes.now (Core.Eq a b)) }
{
    theorems(shared);
    closed(interp);
    let answer = node_at(shared, nodes, a) == node_at(shared, nodes, b);
    truth(alloc, shared, answer)
}

/// The node of a negation.
pub(crate) fn negate(
    alloc: Global,
    shared: &mut SharedGraph,
    nodes: &[NodeId],
    t: TermId,
) -> Result<NodeId, EvalError>
    requires ready { (d : Declarations) × (i : Interp) × IsEvaluable d i shared.old nodes.now (Core.Not t) }
    ensures grown { IfOk result (IsGrown shared.old shared.new) }
    ensures value { (d : Declarations) (i : Interp)
        → IsConsistent d
        → FitsGraph d shared.old
        → IfOk result (IsNodeFor d i shared.old shared.new nodes.now (Core.Not t)) }
{
    theorems(shared);
    let answer = !is_true(shared, nodes, t);
    truth(alloc, shared, answer)
}

/// The node of a conjunction.
pub(crate) fn conjoin(
    alloc: Global,
    shared: &mut SharedGraph,
    nodes: &[NodeId],
    args: &[TermId],
) -> Result<NodeId, EvalError>
    requires ready { (d : Declarations) × (i : Interp) × IsEvaluable d i shared.old nodes.now (Core.And args.now) }
    ensures grown { IfOk result (IsGrown shared.old shared.new) }
    ensures value { (d : Declarations) (i : Interp)
        → IsConsistent d
        → FitsGraph d shared.old
        → IfOk result (IsNodeFor d i shared.old shared.new nodes.now (Core.And args.now)) }
{
    theorems(shared);
    let answer = are_true(shared, nodes, args);
    truth(alloc, shared, answer)
}

/// The node of a disjunction.
pub(crate) fn disjoin(
    alloc: Global,
    shared: &mut SharedGraph,
    nodes: &[NodeId],
    args: &[TermId],
) -> Result<NodeId, EvalError>
    requires ready { (d : Declarations) × (i : Interp) × IsEvaluable d i shared.old nodes.now (Core.Or args.now) }
    ensures grown { IfOk result (IsGrown shared.old shared.new) }
    ensures value { (d : Declarations) (i : Interp)
        → IsConsistent d
        → FitsGraph d shared.old
        → IfOk result (IsNodeFor d i shared.old shared.new nodes.now (Core.Or args.now)) }
{
    theorems(shared);
    let answer = is_one_true(shared, nodes, args);
    truth(alloc, shared, answer)
}

/// The node of whether two Boolean terms have one value.
pub(crate) fn compare(
    alloc: Global,
    shared: &mut SharedGraph,
    nodes: &[NodeId],
    a: TermId,
    b: TermId,
) -> Result<NodeId, EvalError>
    requires ready { (d : Declarations) × (i : Interp) × IsEvaluable d i shared.old nodes.now (Core.Iff a b) }
    ensures grown { IfOk result (IsGrown shared.old shared.new) }
    ensures value { (d : Declarations) (i : Interp)
        → IsConsistent d
        → FitsGraph d shared.old
        → IfOk result (IsNodeFor d i shared.old shared.new nodes.now (Core.Iff a b)) }
{
    theorems(shared);
    let answer = is_one_value(is_true(shared, nodes, a), is_true(shared, nodes, b));
    truth(alloc, shared, answer)
}

// Whether both are true or neither is.
fn is_one_value(a: bool, b: bool) -> bool
    ensures value { result ≡ (if a then b else not b) }
{
    a == b
}

// The node of a truth value.
fn truth(alloc: Global, shared: &mut SharedGraph, value: bool) -> Result<NodeId, EvalError>
    ensures grown { IfOk result (IsGrown shared.old shared.new) }
    ensures value { (d : Declarations) (i : Interp)
        → IsConsistent d
        → FitsGraph d shared.old
        → IfOk result (IsResult d i shared.new (truth value) bool_sort) }
{
    theorems(shared);
    Ok(shared.construct(truth_ctor(value), NodeIds::new(Vec::new(alloc)))?)
}

// The constructor of a truth value.
fn truth_ctor(value: bool) -> CtorId
    ensures value { truth value ≡ construct result no_values }
    ensures few { result.0 < 2 }
{
    if value { TRUE } else { FALSE }
}

/// Whether the node of this term is `true`.
pub(crate) fn is_true(shared: &SharedGraph, nodes: &[NodeId], t: TermId) -> bool
    requires there { HasNode shared.now nodes.now t }
    ensures value { result ≡ is_true shared.now (reference (node_under nodes.now t)) }
{
    is_built(shared.graph(), TRUE, node_at(shared, nodes, t))
}

// Whether the nodes of these terms are all `true`.
fn are_true(shared: &SharedGraph, nodes: &[NodeId], terms: &[TermId]) -> bool
    requires there { All (HasNode shared.now nodes.now) terms.now }
    ensures value { result ≡ list_all (λ t. is_true shared.now (reference (node_under nodes.now t))) terms.now }
{
    for t in terms {
        if !is_true(shared, nodes, *t) {
            return false;
        }
    }
    true
}

// Whether the node of one of these terms is `true`.
fn is_one_true(shared: &SharedGraph, nodes: &[NodeId], terms: &[TermId]) -> bool
    requires there { All (HasNode shared.now nodes.now) terms.now }
    ensures value { result ≡ list_any (λ t. is_true shared.now (reference (node_under nodes.now t))) terms.now }
{
    for t in terms {
        if is_true(shared, nodes, *t) {
            return true;
        }
    }
    false
}
