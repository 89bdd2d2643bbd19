//! The node of each term, which is that of its class.
ghost use Rattle.std.specs.Prelude.{◌≡◌, ℕ, ◌+◌, ◌<◌, ◌^◌, length, Some, slice_get, IfOk};
ghost use Rattle.ct_terms.specs.declared.ids.TermId.{TermId};
ghost use Rattle.ct_values.specs.declared.node.NodeId.{NodeId};
ghost use Rattle.ct_build.specs.Nodes.{AreNumbered, IsReserved};

use crate::error::BuildError;
use crate::facts::facts;
use ct_congr::Classes;
use ct_terms::TermId;
use ct_values::NodeId;
use std::alloc::Global;

/// For each term the node of its class: the classes of the list have nodes with numbers from the base on.
pub(crate) fn numbered(
    alloc: Global,
    classes: &Classes,
    values: &[NodeId],
    list: &[TermId],
    base: u64,
) -> Result<Vec<NodeId>, BuildError>
    requires long { length values.now ≡ length classes.now.terms }
    requires inside { (i : ℕ) (r : TermId) → slice_get list.now i ≡ Some r → r.0 < length classes.now.terms }
    requires room { base + length list.now < 2 ^ 64 }
    ensures numbered { IfOk result (λ nodes. AreNumbered classes.now list.now base nodes.items) }
{
    let mut reserved = Vec::from_slice(alloc, values)?;
    reserve(list, base, &mut reserved);
    facts(classes);
    let mut nodes = Vec::new(alloc);
    for t in 0..classes.table().len() {
        let rep = classes.rep(TermId(t));
        nodes.push(reserved[rep.0 as usize])?;
    }
    Ok(nodes)
}

// Gives each of the list the next number from the base on.
fn reserve(list: &[TermId], base: u64, nodes: &mut Vec<NodeId>)
    requires inside { (i : ℕ) (r : TermId) → slice_get list.now i ≡ Some r → r.0 < length nodes.old.items }
    requires room { base + length list.now < 2 ^ 64 }
    ensures long { length nodes.new.items ≡ length nodes.old.items }
    ensures reserved { (i : ℕ) (r : TermId)
        → slice_get list.now i ≡ Some r
        → (n : NodeId) × (slice_get nodes.new.items r.0 ≡ Some n) × IsReserved list.now base r n }
{
    for i in 0..list.len() {
        nodes[list[i].0 as usize] = NodeId(base + i as u64);
    }
}
