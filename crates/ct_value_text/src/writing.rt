//! Writes the text of a value.
ghost use Rattle.std.specs.Prelude.{◌<◌, length, IfOk};
ghost use Rattle.ct_values.specs.Fitting.{FitsGraph};
ghost use Rattle.ct_value_text.specs.ValueText.{IsValueText};

use crate::graph_text::graph_text;
use crate::tree_text::tree_text;
use ct_sorts::Signature;
use ct_values::{Graph, NodeId, ValueError, minimal};
use std::alloc::Global;

/// The text of the value at the root, for printing and for distinguishing values: two nodes have the same text exactly
/// if they are equal values.
///
/// A finite tree of at most 1,000 nodes, each counted as often as it occurs, is written as a
/// constructor term: `C` for a constructor without arguments, `(C v ..)` for one with arguments,
/// and `(as @U_3 U)` for the element 3 of the sort `U`. Any other value, infinite or not, is
/// written as its minimal graph, whose nodes are numbered breadth first from the root: `(@graph
/// ((@0 node) (@1 node) ..) @0)`, where a node is `C`, `(C @1 ..)` or `(as @U_3 U)`. A name is
/// quoted where it is no symbol or is reserved, as in `(as |@my sort_3| |my sort|)`. The only error
/// is out of memory.
pub fn value_text(
    alloc: Global,
    sig: &Signature,
    g: &Graph,
    root: NodeId,
) -> Result<Vec<u8>, ValueError>
    requires within { root.0 < length g.now }
    requires fits { FitsGraph sig.now g.now }
    ensures text { IfOk result (λ text. IsValueText sig.now g.now root text.items) }
{
    if let Some(text) = tree_text(alloc, sig, g, root)? {
        return Ok(text);
    }
    let minimal = minimal(alloc, g, root)?;
    graph_text(alloc, sig, &minimal)
}
