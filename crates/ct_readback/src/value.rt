//! Values in models, in either form.
ghost use Rattle.std.specs.Prelude.{◌≡◌, IfOk};
ghost use Rattle.ct_sorts.specs.Declarations.{IsSort};
ghost use Rattle.ct_sorts.specs.Grown.{Begins};
ghost use Rattle.ct_values.specs.WellFormed.{IsWellFormedGraph};
ghost use Rattle.ct_readback.specs.ValueAt.{IsValueAt, IsGraphValue};
ghost use Rattle.ct_readback.specs.Said.{IsSaid};
ghost use Rattle.ct_sexpr.specs.View.{expression_of};
ghost use Rattle.ct_readback.specs.ValueAt as spec;

use crate::error::BackError;
use crate::graph_text::{graph_at, is_graph};
use crate::parts::parts_after;
use crate::placing::place;
use crate::pool::Pool;
use crate::trees::{is_tree, push_tree};
use ct_sexpr::Sexpr;
use ct_sorts::{Signature, SortId};
use ct_values::NodeId;
use std::alloc::Global;

/// What a value text says.
#[derive(Clone, Copy, Debug)]
pub(crate) enum Said {
    /// No value of the sort.
    Nothing,
    /// A graph with a cycle of nodes of datatypes.
    Cycle,
    /// The value at this node.
    Value(NodeId),
}

// Whether the expression is a list that begins with `@graph`.
fn begins_graph(expr: &Sexpr) -> bool
    ensures value { result ≡ spec.begins_graph (expression_of expr.now) }
{
    parts_after(b"@graph", expr).is_some()
}

/// Whether the expression has the form of a value.
pub(crate) fn is_value(expr: &Sexpr) -> bool
    ensures value { result ≡ spec.is_value (expression_of expr.now) }
{
    if begins_graph(expr) {
        return is_graph(expr);
    }
    is_tree(expr)
}

/// What the expression says as a value of this sort. A value is put after the graph; in each case the graph may have grown.
pub(crate) fn push_value(
    alloc: Global,
    sig: &Signature,
    s: SortId,
    expr: &Sexpr,
    graph: &mut Pool,
) -> Result<Said, BackError>
    requires inside { IsSort sig.now s }
    requires well_formed { IsWellFormedGraph sig.now graph.old }
    ensures grown { Begins graph.old graph.new }
    ensures well_formed { IsWellFormedGraph sig.now graph.new }
    ensures said { IfOk result (IsSaid sig.now graph.new (IsValueAt sig.now s (expression_of expr.now)) s) }
{
    if begins_graph(expr) {
        return push_graph(alloc, sig, s, expr, graph);
    }
    match push_tree(alloc, sig, s, expr, graph)? {
        None => Ok(Said::Nothing),
        Some(n) => Ok(Said::Value(n)),
    }
}

// The same for a graph.
fn push_graph(
    alloc: Global,
    sig: &Signature,
    s: SortId,
    expr: &Sexpr,
    graph: &mut Pool,
) -> Result<Said, BackError>
    requires inside { IsSort sig.now s }
    requires well_formed { IsWellFormedGraph sig.now graph.old }
    ensures grown { Begins graph.old graph.new }
    ensures well_formed { IsWellFormedGraph sig.now graph.new }
    ensures said { IfOk result (IsSaid sig.now graph.new (IsGraphValue sig.now s (expression_of expr.now)) s) }
{
    let Some(read) = graph_at(alloc, sig, s, expr)? else {
        return Ok(Said::Nothing);
    };
    let placed = place(alloc, sig, &read.graph, &read.reached, graph)?;
    drop(read);
    match placed {
        None => Ok(Said::Cycle),
        Some(n) => Ok(Said::Value(n)),
    }
}
