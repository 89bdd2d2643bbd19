//! What answers show: nodes as a case writes them, numbers, and whether something is so.
use ct_cases::{CaseError, show_bytes};
use ct_sorts::{CtorId, Signature};
use ct_values::{Graph, Head, NodeId};
use std::alloc::Global;

/// Shows whether it is so.
pub fn show_bool(value: bool, out: &mut String) -> Result<(), CaseError> {
    out.push_str(if value { " yes" } else { " no" })?;
    Ok(())
}

/// Shows a number.
pub fn show_number(alloc: Global, number: u64, out: &mut String) -> Result<(), CaseError> {
    out.push_str(format!(in alloc; " {number}")?.as_str())?;
    Ok(())
}

/// Shows the nodes of a graph, between brackets.
pub fn show_graph(
    alloc: Global,
    sig: &Signature,
    g: &Graph,
    out: &mut String,
) -> Result<(), CaseError> {
    out.push_str(" [")?;
    for n in 0..g.len() {
        if n > 0 {
            out.push(' ')?;
        }
        out.push('(')?;
        show_head(alloc, sig, g.head(NodeId(n)), out)?;
        for child in g.children(NodeId(n)) {
            show_number(alloc, child.0, out)?;
        }
        out.push(')')?;
    }
    out.push(']')?;
    Ok(())
}

/// Shows a constructor by its name, and an element by its sort and its number.
fn show_head(
    alloc: Global,
    sig: &Signature,
    head: Head,
    out: &mut String,
) -> Result<(), CaseError> {
    match head {
        Head::Con(c) => show_ctor(alloc, sig, c, out),
        Head::Elem(sort, number) => {
            out.push_str(format!(in alloc; "elem {} {number}", sort.0)?.as_str())?;
            Ok(())
        }
    }
}

/// Shows a constructor by its name.
pub fn show_ctor(
    alloc: Global,
    sig: &Signature,
    c: CtorId,
    out: &mut String,
) -> Result<(), CaseError> {
    if c.0 >= sig.mark().ctors() {
        return Err(CaseError::Bad);
    }
    show_bytes(alloc, sig.ctor_name(c), out)
}
