//! Which sorts nodes have.
ghost use Rattle.std.specs.Prelude.{◌≡◌, ◌↔◌, option_map, slice_get, IsTrue};
ghost use Rattle.std.specs.List.{AllZip};
ghost use Rattle.ct_values.specs.Fitting.{HasNodeSort};

use ct_sorts::{Kind, Signature, SortId};
use ct_values::{Graph, NodeId, has_sort};

/// The kind of a sort, where there is one of this number.
pub(crate) fn kind_of(sig: &Signature, s: SortId) -> Option<Kind>
    ensures kind { result ≡ option_map (λ sort. sort.kind) (slice_get sig.now.sorts s.0) }
{
    if s.0 >= sig.sorts() {
        return None;
    }
    Some(sig.kind(s))
}

/// Whether the nodes are of these sorts, one for one.
pub(crate) fn are_nodes_of_sorts(
    sig: &Signature,
    graph: &Graph,
    nodes: &[NodeId],
    sorts: &[SortId],
) -> bool
    ensures sorted { IsTrue result ↔ AllZip (HasNodeSort sig.now graph.now) nodes.now sorts.now }
{
    if nodes.len() != sorts.len() {
        return false;
    }
    for i in 0..nodes.len() {
        if !has_sort(sig, graph, nodes[i], sorts[i]) {
            return false;
        }
    }
    true
}
