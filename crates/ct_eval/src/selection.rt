//! The value of a selector: a field if the selector's constructor built the term, otherwise the entry of its table.
ghost use Rattle.std.specs.Prelude.{◌≡◌, ◌<◌, [], ◌∷◌, List, length, slice_get, option_map, Some, IsTrue, IfOk};
ghost use Rattle.ct_sorts.specs.declared.ids.SortId.{SortId};
ghost use Rattle.ct_sorts.specs.Declarations.{Declarations, Selector};
ghost use Rattle.ct_values.specs.declared.node.NodeId.{NodeId};
ghost use Rattle.ct_values.specs.Graph.{Nodes, node_children};
ghost use Rattle.ct_values.specs.Value.{Value, reference};
ghost use Rattle.ct_values.specs.Agreement.{point, children_of};
ghost use Rattle.ct_values.specs.Fitting.{FitsGraph, HasNodeSort};
ghost use Rattle.ct_values.specs.Sharing.{IsRepresentative};
ghost use Rattle.ct_eval.specs.declared.interp.Table.{Table};
ghost use Rattle.ct_eval.specs.Interpretation.{IsProper, FitsTable};
ghost use Rattle.ct_values.specs.TruthValue.{is_built};
ghost use Rattle.ct_eval.specs.LookUp.{look_up};
ghost use Rattle.ct_eval.specs.Index.{IsIndex};
ghost use Rattle.ct_eval.specs.Valued.{IsLonger};
ghost use Rattle.ct_eval.specs.EvaluationStep.{HasValue, IsEvaluable, IsNodeFor};

use crate::application::given;
use crate::error::EvalError;
use crate::index::Index;
use crate::interp::Interp;
use crate::nodes::{closed, is_built, node_at, theorems};
use ct_sorts::{SelId, Signature, structure};
use ct_terms::{Core, TermId};
use ct_values::{NodeId, NodeIds, SharedGraph};
use std::alloc::Global;

/// The node of a selector: of the child at its place where its constructor builds the term, and else of what the table
/// gives.
pub(crate) fn select(
    alloc: Global,
    sig: &Signature,
    interp: &Interp,
    offs: &Index,
    shared: &SharedGraph,
    nodes: &[NodeId],
    s: SelId,
    t: TermId,
) -> Result<NodeId, EvalError>
    requires proper { IsProper sig.now interp.now }
    requires longer { IsLonger interp.now.graph shared.now }
    requires fits { FitsGraph sig.now shared.now }
    requires offs { IsIndex interp.now.graph interp.now.offs offs.now }
    requires ready { IsEvaluable sig.now interp.now shared.now nodes.now (Core.Sel s t) }
    ensures value { IfOk result (IsNodeFor sig.now interp.now shared.now shared.now nodes.now (Core.Sel s t)) }
{
    theorems(shared);
    let n = node_at(shared, nodes, t);
    if is_built(shared.graph(), sig.sel_ctor(s), n) {
        return Ok(field(sig, shared, s, n));
    }
    wrongly_applied(alloc, interp, offs, shared, s, n)
}

// The node of the field that a selector of its constructor gives.
fn field(sig: &Signature, shared: &SharedGraph, s: SelId, n: NodeId) -> NodeId
    requires fits { FitsGraph sig.now shared.now }
    requires within { n.0 < length shared.now }
    requires built { (selector : Selector) × (slice_get sig.now.sels s.0 ≡ Some selector)
        × IsTrue (is_built shared.now selector.ctor (reference n)) }
    ensures value { (selector : Selector) (g : Nodes) (v : Value)
        → slice_get sig.now.sels s.0 ≡ Some selector
        → IsRepresentative shared.now (point g v) n
        → (w : Value) × (slice_get (children_of g v) selector.place ≡ Some w)
        × IsRepresentative shared.now (point g w) result
        × HasNodeSort sig.now shared.now result selector.sort }
{
    prove!(sig.sorts() > 0);
    structure();
    theorems(shared);
    shared.first(child_at(shared, n, sig.sel_place(s)))
}

// The child of a node at an index.
fn child_at(shared: &SharedGraph, n: NodeId, position: u32) -> NodeId
    requires within { n.0 < length shared.now }
    requires there { (children : List NodeId)
        × (option_map node_children (slice_get shared.now n.0) ≡ Some children)
        × (position < length children) }
    ensures value { (children : List NodeId)
        → option_map node_children (slice_get shared.now n.0) ≡ Some children
        → slice_get children position ≡ Some result }
    ensures within { result.0 < length shared.now }
{
    shared.graph().children(n)[position as usize]
}

// The node of what the table of a selector gives where it is wrongly applied.
fn wrongly_applied(
    alloc: Global,
    interp: &Interp,
    offs: &Index,
    shared: &SharedGraph,
    s: SelId,
    n: NodeId,
) -> Result<NodeId, EvalError>
    requires longer { IsLonger interp.now.graph shared.now }
    requires offs { IsIndex interp.now.graph interp.now.offs offs.now }
    requires fits { (d : Declarations) × (args : List SortId) × (sort : SortId) × (table : Table) × (v : Value)
        × (slice_get interp.now.offs s.0 ≡ Some table)
        × FitsTable d interp.now.graph args sort table
        × IsRepresentative shared.now (point interp.now.graph v) n }
    ensures value { (d : Declarations) (args : List SortId) (sort : SortId) (table : Table) (v : Value)
        → slice_get interp.now.offs s.0 ≡ Some table
        → FitsTable d interp.now.graph args sort table
        → IsRepresentative shared.now (point interp.now.graph v) n
        → IfOk result (HasValue d interp.now shared.now (reference (look_up interp.now.graph table (v ∷ []))) sort) }
{
    closed(interp);
    let args = NodeIds::from_slice(alloc, &[n])?;
    Ok(given(offs, &interp.offs, s.0, shared, args))
}
