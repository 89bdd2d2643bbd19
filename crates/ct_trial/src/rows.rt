//! The row for an application that has none.
ghost use Rattle.std.specs.Prelude.{◌≡◌, ◌<◌, length, map, All, slice_get, Some, IsTrue, IfSome, IfOk, OnOk};
ghost use Rattle.ct_sorts.specs.declared.ids.SortId.{SortId};
ghost use Rattle.indexmap.specs.IndexMap.{get};
ghost use Rattle.ct_sorts.specs.Declarations.{Declarations, Function};
ghost use Rattle.ct_values.specs.declared.node.NodeId.{NodeId};
ghost use Rattle.ct_eval.specs.Index.{same_row_key};
ghost use Rattle.ct_values.specs.Fitting.{HasNodeSort};
ghost use Rattle.ct_terms.specs.Terms.{Terms, Applies};
ghost use Rattle.ct_eval.specs.Interpretation.{IsProper};
ghost use Rattle.ct_eval.specs.Evaluation.{value_of};
ghost use Rattle.ct_eval.specs.EvaluationStep.{node_under};
ghost use Rattle.ct_trial.specs.Growth.{HasRow};
ghost use Rattle.ct_trial.specs.Trial.{IsTried};

use crate::error::TrialError;
use crate::supply::{Supply, is_free};
use crate::tables::{add_row, default_of};
use crate::theorems::growth_theorems;
use ct_eval::{Index, Interp, Row, RowKey, insert_row, known};
use ct_sorts::{FunId, Signature};
use ct_terms::TermId;
use ct_values::{Graph, NodeId, NodeIds, has_sort};
use std::alloc::Global;

/// Puts a row for these arguments at the end of the function's table, unless there is one. It gives the value that is wanted, where
/// that is of the function's sort; and else a new element, or the table's default.
pub(crate) fn row_for(
    alloc: Global,
    sig: &Signature,
    interp: &mut Interp,
    funs: &mut Index,
    supply: &mut Supply,
    nodes: &[NodeId],
    f: FunId,
    args: &[TermId],
    wanted: Option<NodeId>,
    fresh: bool,
) -> Result<(), TrialError>
    requires ready { (terms : Terms) × (sort : SortId) × IsProper sig.now interp.old × Applies sig.now terms f.0 args.now sort
        × All (λ t. t.0 < length nodes.now) args.now }
    ensures graph { OnOk result (interp.new.graph ≡ interp.old.graph) }
    ensures offs { OnOk result (interp.new.offs ≡ interp.old.offs) }
    ensures tried { (terms : Terms) (sort : SortId)
        → Applies sig.now terms f.0 args.now sort
        → IsTried sig.now terms interp.old funs.old nodes.now
        → OnOk result (IsTried sig.now terms interp.new funs.new nodes.now
        × HasRow interp.new.graph (slice_get interp.new.funs f.0) (map (value_of sig.now interp.new terms) args.now)) }
{
    growth_theorems();
    prove!(sig.sorts() > 0);
    prove!(interp.graph.len() >= 0);
    let list = nodes_of(alloc, nodes, args)?;
    let key = RowKey {
        table: f.0 as u64,
        args: list,
    };
    if has_row(funs, &key) {
        return Ok(());
    }
    let node = node_for(sig, interp, supply, f, wanted, fresh)?;
    let copy = NodeIds::from_slice(alloc, key.args.as_slice())?;
    let row = Row {
        args: copy,
        result: node,
    };
    add_row(alloc, &mut interp.funs, f.0, row)?;
    insert_row(funs, key, node)?;
    Ok(())
}

// Whether the map has a row with this key.
fn has_row(funs: &Index, key: &RowKey) -> bool
    ensures found { IsTrue result → (n : NodeId) × (get same_row_key funs.now key.now ≡ Some n) }
{
    match known(funs, key) {
        Some(_) => true,
        None => false,
    }
}

// What a new row of the function gives.
fn node_for(
    sig: &Signature,
    interp: &Interp,
    supply: &mut Supply,
    f: FunId,
    wanted: Option<NodeId>,
    fresh: bool,
) -> Result<NodeId, TrialError>
    requires proper { IsProper sig.now interp.now }
    requires declared { f.0 < length sig.now.functions }
    ensures sorted { IfOk result (λ n. (function : Function) → slice_get sig.now.functions f.0 ≡ Some function
        → HasNodeSort sig.now interp.now.graph n function.result) }
{
    if let Some(n) = sorted(sig, &interp.graph, f, wanted) {
        return Ok(n);
    }
    if !fresh || !is_free(sig, sig.fun_result(f)) {
        return Ok(default(interp, f));
    }
    let n = supply.fresh(sig.fun_result(f));
    match sorted(sig, &interp.graph, f, n) {
        Some(n) => Ok(n),
        None => Err(TrialError::Exhausted),
    }
}

// What the function's table gives where no row does.
fn default(interp: &Interp, f: FunId) -> NodeId
    requires proper { (d : Declarations) × IsProper d interp.now × (f.0 < length d.functions) }
    ensures sorted { (d : Declarations) (function : Function) → IsProper d interp.now → slice_get d.functions f.0 ≡ Some function
        → HasNodeSort d interp.now.graph result function.result }
{
    default_of(&interp.funs, f.0)
}

// The node, if there is one, and it is of the sort of the function's result.
fn sorted(sig: &Signature, graph: &Graph, f: FunId, n: Option<NodeId>) -> Option<NodeId>
    requires declared { f.0 < length sig.now.functions }
    ensures sorted { IfSome result (λ m. (function : Function) → slice_get sig.now.functions f.0 ≡ Some function
        → HasNodeSort sig.now graph.now m function.result) }
{
    let Some(n) = n else {
        return None;
    };
    if has_sort(sig, graph, n, sig.fun_result(f)) {
        return Some(n);
    }
    None
}

// The nodes of these terms.
fn nodes_of(alloc: Global, nodes: &[NodeId], terms: &[TermId]) -> Result<NodeIds, TrialError>
    requires within { All (λ t. t.0 < length nodes.now) terms.now }
    ensures value { IfOk result (λ list. list ≡ map (node_under nodes.now) terms.now) }
{
    let mut list = Vec::with_capacity(alloc, terms.len())?;
    for t in terms {
        list.push(nodes[t.0 as usize])?;
    }
    Ok(NodeIds::new(list))
}

/// The node of a term.
pub(crate) fn node_of(nodes: &[NodeId], t: TermId) -> NodeId
    requires within { t.0 < length nodes.now }
    ensures value { result ≡ node_under nodes.now t }
{
    nodes[t.0 as usize]
}
