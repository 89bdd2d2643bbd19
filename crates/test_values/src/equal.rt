//! Equality and minimal graphs: `(same GRAPH (NODE NODE) ..)`, `(minimal GRAPH NODE ..)`,
//! `(closed (NODE ..) ..)`.
use crate::nodes::{graph_of, nodes_of, pair_of, root_of};
use crate::show::{show_bool, show_graph, show_number};
use ct_cases::{CaseError, items_of, number_of};
use ct_sexpr::Sexpr;
use ct_sorts::Signature;
use ct_value_text::value_texts;
use ct_values::{
    Graph, NodeId, NodeIds, ValueError, agreement, are_closed, minimal_graph, minimise,
    representative_nodes, same,
};
use std::alloc::Global;

/// Answers a case of equality.
pub fn answer(
    alloc: Global,
    sig: &Signature,
    kind: &str,
    parts: &[Sexpr],
    out: &mut String,
) -> Result<bool, CaseError> {
    match (kind, parts) {
        ("same", [graph, pairs @ ..]) => {
            let g = graph_of(alloc, sig, graph)?;
            show_same(alloc, &g, pairs, out)?;
        }
        ("minimal", [graph, roots @ ..]) => {
            let g = graph_of(alloc, sig, graph)?;
            show_minimal(alloc, sig, &g, roots, out)?;
        }
        ("closed", graphs) => show_closed(alloc, sig, graphs, out)?,
        ("ids", numbers) => show_ids(alloc, numbers, out)?,
        ("theorems", []) => call_theorems(out)?,
        _ => return Ok(false),
    }
    Ok(true)
}

/// Calls the functions that do nothing.
fn call_theorems(out: &mut String) -> Result<(), CaseError> {
    agreement();
    minimal_graph();
    representative_nodes();
    value_texts();
    Ok(out.push_str(" ok")?)
}

/// What a call on values gave.
pub fn given<T>(value: Result<T, ValueError>) -> Result<T, CaseError> {
    value.map_err(|_| CaseError::NoMemory)
}

/// Shows which pairs of nodes are equal values.
pub fn show_same(
    alloc: Global,
    g: &Graph,
    pairs: &[Sexpr],
    out: &mut String,
) -> Result<(), CaseError> {
    for pair in pairs {
        let (a, b) = pair_of(pair)?;
        let a = root_of(g, a)?;
        let b = root_of(g, b)?;
        show_bool(given(same(alloc, g, a, b))?, out)?;
    }
    Ok(())
}

/// Shows the minimal graph of each node, after the number that its root has.
fn show_minimal(
    alloc: Global,
    sig: &Signature,
    g: &Graph,
    roots: &[Sexpr],
    out: &mut String,
) -> Result<(), CaseError> {
    for root in roots {
        let root = root_of(g, root)?;
        let (minimal, first) = given(minimise(alloc, g, root))?;
        show_number(alloc, first.0, out)?;
        show_graph(alloc, sig, &minimal, out)?;
    }
    Ok(())
}

/// Shows of each list of nodes whether all children are there.
fn show_closed(
    alloc: Global,
    sig: &Signature,
    graphs: &[Sexpr],
    out: &mut String,
) -> Result<(), CaseError> {
    for graph in graphs {
        show_bool(are_closed(&nodes_of(alloc, sig, items_of(graph)?)?), out)?;
    }
    Ok(())
}

/// Shows numbers that were copied, and the vector that they give back.
fn show_ids(alloc: Global, numbers: &[Sexpr], out: &mut String) -> Result<(), CaseError> {
    let mut ids = Vec::new(alloc);
    for number in numbers {
        ids.push(NodeId(number_of(number)?))?;
    }
    let copied = NodeIds::from_slice(alloc, &ids)?;
    for id in copied.as_slice() {
        show_number(alloc, id.0, out)?;
    }
    for id in &copied.into_vec() {
        show_number(alloc, id.0, out)?;
    }
    Ok(())
}
