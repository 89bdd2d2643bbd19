//! Whether an interpretation is one of the declarations of a signature, as evaluation asks.
ghost use Rattle.std.specs.Prelude.{◌≡◌, ℕ, ◌<◌, ◌↔◌, [], ◌∷◌, length, Some, slice_get, IsTrue};
ghost use Rattle.ct_sorts.specs.Declarations.{Sort};
ghost use Rattle.ct_sorts.specs.declared.ids.Kind.TheVariants as Kind;
ghost use Rattle.ct_values.specs.declared.node.Node.{Node};
ghost use Rattle.ct_values.specs.Graph.{node_children};
ghost use Rattle.ct_values.specs.WellFormed.{IsData, AreBefore, AreFinite};
ghost use Rattle.ct_eval.specs.Interpretation.{FitsRow, FitsTable, HasFunctions, HasSelectors, IsProper};

use crate::fitting::{are_nodes_of_sorts, kind_of};
use crate::interp::{Interp, Row, Table};
use ct_sorts::{FunId, Kind, SelId, Signature, SortId};
use ct_values::{Graph, NodeId, fits, has_sort, sort_of};

/// Whether the interpretation is one of the signature's declarations, as `evaluate` and `holds` ask: its graph fits them,
/// under each node of a datatype the nodes of datatypes have smaller numbers, so that values of datatypes are finite, and
/// there is a table for each function and each selector, over its sorts. A graph that `minimise` gives has parents before
/// their children, and so is seldom that of such an interpretation.
pub fn is_proper(sig: &Signature, interp: &Interp) -> bool
    ensures proper { IsTrue result ↔ IsProper sig.now interp.now }
{
    let graph = &interp.graph;
    if !fits(sig, graph) {
        return false;
    }
    if !are_finite(sig, graph) {
        return false;
    }
    if !has_functions(sig, graph, interp.funs.as_slice()) {
        return false;
    }
    has_selectors(sig, graph, interp.offs.as_slice())
}

// Whether under each node of a datatype the nodes of datatypes have smaller numbers.
fn are_finite(sig: &Signature, graph: &Graph) -> bool
    ensures finite { IsTrue result ↔ AreFinite sig.now graph.now }
{
    for n in 0..graph.len() {
        if !is_finite(sig, graph, NodeId(n)) {
            return false;
        }
    }
    true
}

// Whether the nodes of datatypes under the node have smaller numbers, where it is of a datatype.
fn is_finite(sig: &Signature, graph: &Graph, n: NodeId) -> bool
    requires within { n.0 < length graph.now }
    ensures finite { (node : Node) → slice_get graph.now n.0 ≡ Some node
        → IsTrue result ↔ (IsData sig.now graph.now n → AreBefore sig.now graph.now n.0 (node_children node)) }
{
    if !is_data(sig, graph, n) {
        return true;
    }
    are_before(sig, graph, graph.children(n), n.0)
}

// Whether the nodes of datatypes among these have numbers below the bound.
fn are_before(sig: &Signature, graph: &Graph, nodes: &[NodeId], bound: u64) -> bool
    ensures before { IsTrue result ↔ AreBefore sig.now graph.now bound nodes.now }
{
    for n in nodes {
        if !is_before(sig, graph, *n, bound) {
            return false;
        }
    }
    true
}

// Whether the node has a number below the bound, where it is of a datatype.
fn is_before(sig: &Signature, graph: &Graph, n: NodeId, bound: u64) -> bool
    ensures before { IsTrue result ↔ (IsData sig.now graph.now n → n.0 < bound) }
{
    if n.0 < bound {
        return true;
    }
    !is_data(sig, graph, n)
}

// Whether the node is of a datatype.
fn is_data(sig: &Signature, graph: &Graph, n: NodeId) -> bool
    ensures datatype { IsTrue result ↔ IsData sig.now graph.now n }
{
    match sort_of(sig, graph, n) {
        Some(sort) => is_data_sort(sig, sort),
        None => false,
    }
}

// Whether it is a datatype.
fn is_data_sort(sig: &Signature, s: SortId) -> bool
    ensures datatype { IsTrue result
        ↔ ((sort : Sort) × (slice_get sig.now.sorts s.0 ≡ Some sort) × (sort.kind ≡ Kind.Data)) }
{
    match kind_of(sig, s) {
        Some(Kind::Data) => true,
        _ => false,
    }
}

// Whether there is a table for each function, over the sorts of its arguments and its result.
fn has_functions(sig: &Signature, graph: &Graph, funs: &[Table]) -> bool
    ensures functions { IsTrue result ↔ HasFunctions sig.now graph.now funs.now }
{
    let count = sig.funs();
    if funs.len() != count as usize {
        return false;
    }
    for f in 0..count {
        let id = FunId(f);
        if !fits_table(
            sig,
            graph,
            sig.fun_args(id),
            sig.fun_result(id),
            &funs[f as usize],
        ) {
            return false;
        }
    }
    true
}

// Whether there is a table for each selector, over the sort of its constructor.
fn has_selectors(sig: &Signature, graph: &Graph, offs: &[Table]) -> bool
    ensures selectors { IsTrue result ↔ HasSelectors sig.now graph.now offs.now }
{
    let count = sig.mark().sels();
    if offs.len() != count as usize {
        return false;
    }
    for s in 0..count {
        let id = SelId(s);
        let of = sig.ctor_sort(sig.sel_ctor(id));
        if !fits_table(sig, graph, &[of], sig.sel_sort(id), &offs[s as usize]) {
            return false;
        }
    }
    true
}

// Whether all rows of the table take nodes of these sorts and give one of this sort, and its default is of this sort.
fn fits_table(sig: &Signature, graph: &Graph, args: &[SortId], sort: SortId, table: &Table) -> bool
    ensures fits { IsTrue result ↔ FitsTable sig.now graph.now args.now sort table.now }
{
    let rows = table.rows.as_slice();
    for r in 0..rows.len() {
        if !fits_row(sig, graph, args, sort, &rows[r]) {
            return false;
        }
    }
    has_sort(sig, graph, table.default, sort)
}

// Whether the row takes nodes of these sorts and gives one of this sort.
fn fits_row(sig: &Signature, graph: &Graph, args: &[SortId], sort: SortId, row: &Row) -> bool
    ensures fits { IsTrue result ↔ FitsRow sig.now graph.now args.now sort row.now }
{
    are_nodes_of_sorts(sig, graph, row.args.as_slice(), args)
        && has_sort(sig, graph, row.result, sort)
}
