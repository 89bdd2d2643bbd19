//! Graphs over declarations: `(fits GRAPH ..)`, `(has-sort GRAPH (NODE SORT) ..)`,
//! `(sort-of GRAPH NODE ..)`; and texts of values: `(text GRAPH NODE ..)`, and
//! `(text-sum GRAPH NODE)` for the length of a long text and the sum that `text_sum` makes of its
//! bytes.
use crate::equal::given;
use crate::nodes::{graph_of, pair_of, root_of, sort_of};
use crate::show::{show_bool, show_number};
use ct_cases::{CaseError, number_of, show_bytes};
use ct_sexpr::Sexpr;
use ct_sorts::Signature;
use ct_value_text::value_text;
use ct_values::{Graph, NodeId, fits, has_sort};
use std::alloc::Global;

/// Answers a case of declarations or texts.
pub fn answer(
    alloc: Global,
    sig: &Signature,
    kind: &str,
    parts: &[Sexpr],
    out: &mut String,
) -> Result<bool, CaseError> {
    match (kind, parts) {
        ("fits", graphs) => show_fits(alloc, sig, graphs, out)?,
        ("has-sort", [graph, pairs @ ..]) => {
            let g = graph_of(alloc, sig, graph)?;
            show_have_sorts(alloc, sig, &g, pairs, out)?;
        }
        ("sort-of", [graph, nodes @ ..]) => {
            let g = graph_of(alloc, sig, graph)?;
            show_sorts(alloc, sig, &g, nodes, out)?;
        }
        ("text", [graph, roots @ ..]) => {
            let g = graph_of(alloc, sig, graph)?;
            show_texts(alloc, sig, &g, roots, out)?;
        }
        ("text-sum", [graph, root]) => {
            let g = graph_of(alloc, sig, graph)?;
            show_sum(alloc, sig, &g, root, out)?;
        }
        _ => return Ok(false),
    }
    Ok(true)
}

/// Shows which graphs fit.
fn show_fits(
    alloc: Global,
    sig: &Signature,
    graphs: &[Sexpr],
    out: &mut String,
) -> Result<(), CaseError> {
    for graph in graphs {
        show_bool(fits(sig, &graph_of(alloc, sig, graph)?), out)?;
    }
    Ok(())
}

/// Shows which nodes have which sorts.
fn show_have_sorts(
    alloc: Global,
    sig: &Signature,
    g: &Graph,
    pairs: &[Sexpr],
    out: &mut String,
) -> Result<(), CaseError> {
    for pair in pairs {
        let (n, sort) = pair_of(pair)?;
        let sort = sort_of(alloc, sig, sort)?;
        show_bool(has_sort(sig, g, NodeId(number_of(n)?), sort), out)?;
    }
    Ok(())
}

/// Shows the numbers of the sorts of nodes.
fn show_sorts(
    alloc: Global,
    sig: &Signature,
    g: &Graph,
    nodes: &[Sexpr],
    out: &mut String,
) -> Result<(), CaseError> {
    for n in nodes {
        match ct_values::sort_of(sig, g, NodeId(number_of(n)?)) {
            Some(sort) => show_number(alloc, u64::from(sort.0), out)?,
            None => out.push_str(" -")?,
        }
    }
    Ok(())
}

/// The text of the value at a node, where the graph fits.
fn text_of(alloc: Global, sig: &Signature, g: &Graph, root: &Sexpr) -> Result<Vec<u8>, CaseError> {
    let root = root_of(g, root)?;
    if !fits(sig, g) {
        return Err(CaseError::Bad);
    }
    given(value_text(alloc, sig, g, root))
}

/// Shows the text of the value at each node.
fn show_texts(
    alloc: Global,
    sig: &Signature,
    g: &Graph,
    roots: &[Sexpr],
    out: &mut String,
) -> Result<(), CaseError> {
    for root in roots {
        out.push(' ')?;
        show_bytes(alloc, &text_of(alloc, sig, g, root)?, out)?;
    }
    Ok(())
}

/// Shows the length of the text of the value at a node, and its sum.
fn show_sum(
    alloc: Global,
    sig: &Signature,
    g: &Graph,
    root: &Sexpr,
    out: &mut String,
) -> Result<(), CaseError> {
    let text = text_of(alloc, sig, g, root)?;
    show_number(alloc, text.len() as u64, out)?;
    show_number(alloc, text_sum(&text), out)
}

/// The 64-bit FNV-1a hash of the bytes (RFC 9923).
fn text_sum(bytes: &[u8]) -> u64 {
    let mut sum = 0xcbf2_9ce4_8422_2325u64;
    for byte in bytes {
        sum = (sum ^ u64::from(*byte)).wrapping_mul(0x0000_0100_0000_01b3);
    }
    sum
}
