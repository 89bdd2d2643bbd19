//! Texts of models: `(model INTERPRETATION)` shows the text of the whole model,
//! `(function FUNCTION INTERPRETATION)` the table of a function as its definition, and
//! `(pairs INTERPRETATION (EXPRESSION ..) (NODE ..))` expressions beside nodes of the graph.
ghost use Rattle.std.specs.Prelude.{All, IfOk, IsTrue};
ghost use Rattle.ct_sorts.specs.Declarations.{IsFunction};
ghost use Rattle.ct_eval.specs.Interpretation.{IsProper};
ghost use Rattle.ct_model.specs.Within.{IsNode};

use crate::interpretation::interp_of;
use ct_cases::{CaseError, items_of, number_of, show_bytes, symbol_of};
use ct_eval::{Interp, is_proper};
use ct_model::{model_text, table_text, value_pairs_text};
use ct_sexpr::Sexpr;
use ct_sorts::{FunId, Signature, Symbol};
use ct_values::{Graph, NodeId};
use std::alloc::Global;

/// Answers a case of texts of models.
pub fn answer(
    alloc: Global,
    sig: &Signature,
    kind: &str,
    parts: &[Sexpr],
    out: &mut String,
) -> Result<bool, CaseError> {
    match (kind, parts) {
        ("model", [interp]) => {
            let interp = proper(alloc, sig, interp)?;
            show(alloc, model_text(alloc, sig, &interp).ok(), out)?;
        }
        ("function", [name, interp]) => {
            let interp = proper(alloc, sig, interp)?;
            let f = function_of(alloc, sig, name)?;
            show(alloc, table_text(alloc, sig, &interp, f).ok(), out)?;
        }
        ("pairs", [interp, exprs, nodes]) => {
            let interp = proper(alloc, sig, interp)?;
            let nodes = nodes_of(alloc, items_of(nodes)?)?;
            show_pairs(alloc, sig, &interp, items_of(exprs)?, &nodes, out)?;
        }
        _ => return Ok(false),
    }
    Ok(true)
}

/// The interpretation, which fits the declarations.
fn proper(alloc: Global, sig: &Signature, part: &Sexpr) -> Result<Box<Interp>, CaseError>
    ensures proper { IfOk result (λ interp. IsProper sig.now interp.value) }
{
    let interp = interp_of(alloc, sig, part)?;
    if !is_proper(sig, &interp) {
        return Err(CaseError::Bad);
    }
    Ok(interp)
}

/// The function of this name.
fn function_of(alloc: Global, sig: &Signature, part: &Sexpr) -> Result<FunId, CaseError>
    ensures declared { IfOk result (IsFunction sig.now) }
{
    match symbol_of(alloc, sig, part)? {
        Some(Symbol::Fun(f)) if f.0 < sig.funs() => Ok(f),
        _ => Err(CaseError::Bad),
    }
}

/// The nodes of these numbers.
fn nodes_of(alloc: Global, parts: &[Sexpr]) -> Result<Vec<NodeId>, CaseError> {
    let mut nodes = Vec::new(alloc);
    for part in parts {
        nodes.push(NodeId(number_of(part)?))?;
    }
    Ok(nodes)
}

/// Whether these are nodes of the graph.
fn are_nodes(graph: &Graph, nodes: &[NodeId]) -> bool
    ensures within { IsTrue result → All (IsNode graph.now) nodes.now }
{
    for n in nodes {
        if !is_node(graph, *n) {
            return false;
        }
    }
    true
}

/// Whether this is a node of the graph.
fn is_node(graph: &Graph, n: NodeId) -> bool
    ensures within { IsTrue result → IsNode graph.now n }
{
    n.0 < graph.len()
}

/// Shows expressions beside values.
fn show_pairs(
    alloc: Global,
    sig: &Signature,
    interp: &Interp,
    exprs: &[Sexpr],
    nodes: &[NodeId],
    out: &mut String,
) -> Result<(), CaseError>
    requires proper { IsProper sig.now interp.now }
{
    if !are_nodes(&interp.graph, nodes) {
        return Err(CaseError::Bad);
    }
    if exprs.len() != nodes.len() {
        return Err(CaseError::Bad);
    }
    show(
        alloc,
        value_pairs_text(alloc, sig, exprs, &interp.graph, nodes).ok(),
        out,
    )
}

/// Shows the text, where there was memory for it.
fn show(alloc: Global, text: Option<Vec<u8>>, out: &mut String) -> Result<(), CaseError> {
    match text {
        Some(text) => {
            out.push(' ')?;
            show_bytes(alloc, &text, out)
        }
        None => Err(CaseError::NoMemory),
    }
}
