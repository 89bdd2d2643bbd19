//! The text of a graph, node by node.
ghost use Rattle.std.specs.Prelude.{◌≡◌, ◌<◌, ◌++◌, length, map, slice_get, Some, OnOk, IfOk};
ghost use Rattle.ct_sorts.specs.Declarations.{IsConstructor};
ghost use Rattle.ct_sexpr.specs.Written.{written};
ghost use Rattle.ct_values.specs.declared.node.Node as spec_node;
ghost use Rattle.ct_values.specs.Value.{reference, node_value, values_of};
ghost use Rattle.ct_values.specs.Fitting.{FitsGraph};
ghost use Rattle.ct_value_text.specs.Separation.{gap};
ghost use Rattle.ct_value_text.specs.ValueText as spec;

use crate::text::{write_ctor, write_element, write_node_name};
use ct_sorts::{CtorId, Signature};
use ct_values::{Head, NodeId, PackedGraph, ValueError};
use std::alloc::Global;

/// The graph as `(@graph ((@0 node) (@1 node) ..) @0)`.
pub(crate) fn graph_text(
    alloc: Global,
    sig: &Signature,
    g: &PackedGraph,
) -> Result<Vec<u8>, ValueError>
    requires fits { FitsGraph sig.now g.now }
    ensures text { IfOk result (λ text. text.items ≡ written (spec.graph_text sig.now g.now)) }
{
    let mut out = Vec::new(alloc);
    out.extend_from_slice(b"(@graph (")?;
    for n in 0..g.len() {
        write_row(alloc, sig, g, NodeId(n), &mut out)?;
    }
    out.extend_from_slice(b") @0)")?;
    Ok(out)
}

// Writes a node after its name, as `(@3 node)`, and a space before it where it is not the first.
fn write_row(
    alloc: Global,
    sig: &Signature,
    g: &PackedGraph,
    n: NodeId,
    out: &mut Vec<u8>,
) -> Result<(), ValueError>
    requires within { n.0 < length g.now }
    requires fits { FitsGraph sig.now g.now }
    ensures ok { OnOk result ((node : spec_node.Node) → slice_get g.now n.0 ≡ Some node
        → out.new.items ≡ out.old.items ++ (gap n.0 ++ written (spec.row sig.now n.0 node))) }
{
    write_gap(n, out)?;
    out.push(b'(')?;
    write_node_name(alloc, n, out)?;
    out.push(b' ')?;
    write_node(alloc, sig, g, n, out)?;
    Ok(out.push(b')')?)
}

// Writes a space before each row but the first.
fn write_gap(n: NodeId, out: &mut Vec<u8>) -> Result<(), ValueError>
    ensures ok { OnOk result (out.new.items ≡ out.old.items ++ gap n.0) }
{
    if n.0 == 0 {
        return Ok(());
    }
    Ok(out.push(b' ')?)
}

// Writes what stands at the node.
fn write_node(
    alloc: Global,
    sig: &Signature,
    g: &PackedGraph,
    n: NodeId,
    out: &mut Vec<u8>,
) -> Result<(), ValueError>
    requires within { n.0 < length g.now }
    requires fits { FitsGraph sig.now g.now }
    ensures ok { OnOk result ((node : spec_node.Node) → slice_get g.now n.0 ≡ Some node
        → out.new.items ≡ out.old.items ++ written (spec.expression sig.now (node_value node))) }
{
    match g.head(n) {
        Head::Con(c) => write_constructor(alloc, sig, c, g.children(n), out),
        Head::Elem(s, number) => write_element(alloc, sig, s, number, out),
    }
}

// Writes the constructor over nodes, each by its name.
fn write_constructor(
    alloc: Global,
    sig: &Signature,
    c: CtorId,
    children: &[NodeId],
    out: &mut Vec<u8>,
) -> Result<(), ValueError>
    requires declared { IsConstructor sig.now c }
    ensures ok { OnOk result (out.new.items
        ≡ out.old.items ++ written (spec.applied (spec.ctor_expression sig.now c) (spec.expressions sig.now (values_of (map reference children.now))))) }
{
    if children.is_empty() {
        return write_ctor(sig, c, out);
    }
    out.push(b'(')?;
    write_ctor(sig, c, out)?;
    for child in children {
        out.push(b' ')?;
        write_node_name(alloc, *child, out)?;
    }
    Ok(out.push(b')')?)
}
