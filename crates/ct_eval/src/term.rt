//! The value of one term, over the nodes of the terms under it.
//!
//! Every node is the representative of its value in its graph, so that two values are equal where
//! their nodes are one. Each kind of term has a function of its own, and `node_of_term` calls the
//! one of the term.
ghost use Rattle.std.specs.Prelude.{length, IfOk};
ghost use Rattle.ct_sorts.specs.declared.ids.SortId.{SortId};
ghost use Rattle.ct_sorts.specs.Declarations.{Declarations};
ghost use Rattle.ct_values.specs.Value.{Value};
ghost use Rattle.ct_values.specs.Fitting.{FitsGraph};
ghost use Rattle.ct_terms.specs.declared.ids.TermId.{TermId};
ghost use Rattle.ct_terms.specs.Terms.{Terms, HasSort, HasArgumentsBelow};
ghost use Rattle.ct_eval.specs.declared.interp.Interp.{Interp};
ghost use Rattle.ct_eval.specs.Interpretation.{IsProper};
ghost use Rattle.ct_eval.specs.Evaluation.{core_value};
ghost use Rattle.ct_eval.specs.Index.{IsIndex};
ghost use Rattle.ct_eval.specs.Valued.{IsLonger};
ghost use Rattle.ct_eval.specs.EvaluationStep.{HasValue, AreValued, IsGrown, IsEvaluable, IsNodeFor};

use crate::application::apply;
use crate::boolean::{compare, conjoin, disjoin, equate, is_true, negate, test};
use crate::error::EvalError;
use crate::index::Index;
use crate::interp::Interp;
use crate::nodes::{node_at, nodes_of, theorems};
use crate::selection::select;
use ct_sorts::{CtorId, Signature};
use ct_terms::{Core, TermId};
use ct_values::{NodeId, NodeIds, SharedGraph};
use std::alloc::Global;

/// The node of a term. `nodes` has those of the terms under it, by their numbers, and the two maps have the rows of the
/// interpretation's tables.
pub fn node_of_term(
    alloc: Global,
    sig: &Signature,
    interp: &Interp,
    funs: &Index,
    offs: &Index,
    shared: &mut SharedGraph,
    nodes: &[NodeId],
    core: &Core,
) -> Result<NodeId, EvalError>
    requires proper { IsProper sig.now interp.now }
    requires longer { IsLonger interp.now.graph shared.old }
    requires fits { FitsGraph sig.now shared.old }
    requires funs { IsIndex interp.now.graph interp.now.funs funs.now }
    requires offs { IsIndex interp.now.graph interp.now.offs offs.now }
    requires below { HasArgumentsBelow (length nodes.now) core.now }
    requires ready { IsEvaluable sig.now interp.now shared.old nodes.now core.now }
    ensures grown { IfOk result (IsGrown shared.old shared.new) }
    ensures value { (terms : Terms) (value : TermId → Value) (sort : SortId)
        → AreValued sig.now interp.now terms shared.old nodes.now value
        → HasSort sig.now terms core.now sort
        → IfOk result (λ n. FitsGraph sig.now shared.new
        × HasValue sig.now interp.now shared.new (core_value sig.now interp.now value core.now) sort n) }
{
    prove!(sig.sorts() > 0);
    match core {
        Core::Con(c, args) => construct(alloc, shared, nodes, *c, args.as_slice()),
        Core::Sel(s, t) => select(alloc, sig, interp, offs, shared, nodes, *s, *t),
        Core::Test(c, t) => test(alloc, shared, nodes, *c, *t),
        Core::Apply(f, args) => apply(alloc, interp, funs, shared, nodes, *f, args.as_slice()),
        Core::Eq(a, b) => equate(alloc, interp, shared, nodes, *a, *b),
        Core::Not(t) => negate(alloc, shared, nodes, *t),
        Core::And(args) => conjoin(alloc, shared, nodes, args.as_slice()),
        Core::Or(args) => disjoin(alloc, shared, nodes, args.as_slice()),
        Core::Iff(a, b) => compare(alloc, shared, nodes, *a, *b),
        Core::Ite(c, a, b) => Ok(choose(shared, nodes, *c, *a, *b)),
    }
}

// The node of a constructor over the nodes of its arguments.
fn construct(
    alloc: Global,
    shared: &mut SharedGraph,
    nodes: &[NodeId],
    c: CtorId,
    args: &[TermId],
) -> Result<NodeId, EvalError>
    requires ready { (d : Declarations) × (i : Interp) × IsEvaluable d i shared.old nodes.now (Core.Con c args.now) }
    ensures grown { IfOk result (IsGrown shared.old shared.new) }
    ensures value { (d : Declarations) (i : Interp)
        → FitsGraph d shared.old
        → IfOk result (IsNodeFor d i shared.old shared.new nodes.now (Core.Con c args.now)) }
{
    theorems(shared);
    let children = nodes_of(alloc, nodes, args)?;
    Ok(shared.construct(c, NodeIds::new(children))?)
}

// The node of the second term where the first is true, and else of the third.
fn choose(shared: &SharedGraph, nodes: &[NodeId], c: TermId, a: TermId, b: TermId) -> NodeId
    requires ready { (d : Declarations) × (i : Interp) × IsEvaluable d i shared.now nodes.now (Core.Ite c a b) }
    ensures value { (d : Declarations) (i : Interp)
        → FitsGraph d shared.now
        → IsNodeFor d i shared.now shared.now nodes.now (Core.Ite c a b) result }
{
    theorems(shared);
    if is_true(shared, nodes, c) {
        return node_at(shared, nodes, a);
    }
    node_at(shared, nodes, b)
}
