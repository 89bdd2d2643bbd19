//! Graphs that grow: `(grow GRAPH STEP ..)` with `(push NODE)`, `(append NODE ..)`, `copy`, which
//! goes on with a copy, `len`, `show` and `(same NODE NODE)`; and shared graphs:
//! `(share GRAPH STEP ..)` with `(first NODE)`, `(construct CONSTRUCTOR NODE ..)` and `len`.
use crate::equal::{given, show_same};
use crate::nodes::{children_of, ctor_of, graph_of, node_of, nodes_of, root_of};
use crate::show::{show_graph, show_number};
use ct_cases::{CaseError, is_word, split_word};
use ct_sexpr::Sexpr;
use ct_sorts::Signature;
use ct_values::{Graph, SharedGraph, are_below, has_children_below, have_children_below};
use std::alloc::Global;

/// Answers a case of graphs that grow.
pub fn answer(
    alloc: Global,
    sig: &Signature,
    kind: &str,
    parts: &[Sexpr],
    out: &mut String,
) -> Result<bool, CaseError> {
    match (kind, parts) {
        ("grow", [graph, steps @ ..]) => {
            let mut g = graph_of(alloc, sig, graph)?;
            answer_steps(alloc, sig, &mut g, steps, out)?;
        }
        ("share", [graph, steps @ ..]) => {
            let g = graph_of(alloc, sig, graph)?;
            let mut shared = given(SharedGraph::new(alloc, g))?;
            for step in steps {
                answer_shared(alloc, sig, &mut shared, step, out)?;
            }
            show_number(alloc, shared.into_graph().len(), out)?;
        }
        _ => return Ok(false),
    }
    Ok(true)
}

/// Answers the steps over a graph.
fn answer_steps(
    alloc: Global,
    sig: &Signature,
    g: &mut Graph,
    steps: &[Sexpr],
    out: &mut String,
) -> Result<(), CaseError> {
    for step in steps {
        if is_word(step, "show") {
            show_graph(alloc, sig, g, out)?;
        } else if is_word(step, "len") {
            show_number(alloc, g.len(), out)?;
        } else if is_word(step, "copy") {
            *g = given(g.copy())?;
        } else {
            answer_step(alloc, sig, g, step, out)?;
        }
    }
    Ok(())
}

/// Answers a step over a graph.
fn answer_step(
    alloc: Global,
    sig: &Signature,
    g: &mut Graph,
    step: &Sexpr,
    out: &mut String,
) -> Result<(), CaseError> {
    match split_word(step)? {
        ("push", [node]) => push(alloc, sig, g, node, out),
        ("append", nodes) => append(alloc, sig, g, nodes),
        ("same", pairs) => show_same(alloc, g, pairs, out),
        _ => Err(CaseError::Bad),
    }
}

/// Appends a node, and shows its number.
fn push(
    alloc: Global,
    sig: &Signature,
    g: &mut Graph,
    part: &Sexpr,
    out: &mut String,
) -> Result<(), CaseError> {
    let node = node_of(alloc, sig, part, 0)?;
    if !has_children_below(&node, g.len()) {
        return Err(CaseError::Bad);
    }
    show_number(alloc, given(g.push(node))?.0, out)
}

/// Appends nodes, whose children may be among them.
fn append(alloc: Global, sig: &Signature, g: &mut Graph, parts: &[Sexpr]) -> Result<(), CaseError> {
    let nodes = nodes_of(alloc, sig, parts)?;
    let count = nodes.len() as u64;
    if count > 1_000 || g.len() > 1_000 {
        return Err(CaseError::Bad);
    }
    if !have_children_below(&nodes, g.len() + count) {
        return Err(CaseError::Bad);
    }
    given(g.append(nodes))
}

/// Answers a step over a shared graph.
fn answer_shared(
    alloc: Global,
    sig: &Signature,
    shared: &mut SharedGraph,
    step: &Sexpr,
    out: &mut String,
) -> Result<(), CaseError> {
    if is_word(step, "len") {
        return show_number(alloc, shared.graph().len(), out);
    }
    match split_word(step)? {
        ("first", [n]) => {
            let n = root_of(shared.graph(), n)?;
            show_number(alloc, shared.first(n).0, out)
        }
        ("construct", [ctor, children @ ..]) => {
            let ctor = ctor_of(alloc, sig, ctor)?;
            let children = children_of(alloc, children, 0)?;
            if !are_below(children.as_slice(), shared.graph().len()) {
                return Err(CaseError::Bad);
            }
            show_number(alloc, given(shared.construct(ctor, children))?.0, out)
        }
        _ => Err(CaseError::Bad),
    }
}
