//! Terms with their values.
ghost use Rattle.std.specs.Prelude.{◌≡◌, ℕ, List, ◌++◌, length, All, OnOk, IfOk};
ghost use Rattle.ct_values.specs.Fitting.{FitsGraph};
ghost use Rattle.ct_model.specs.Within.{IsNode};
ghost use Rattle.ct_model.specs.PairsText.{IsPairText, IsPairsText};

use crate::error::ModelError;
use crate::words::{write_gap, write_value};
use ct_sexpr::{Sexpr, sexpr_text};
use ct_sorts::Signature;
use ct_values::{Graph, NodeId};
use std::alloc::Global;

/// Each term with its value, as `get-value` answers (SMT-LIB 2.7, section 4.2.6): `((t v) ..)`. The terms are written
/// as `sexpr_text` of `ct_sexpr` writes expressions, and the values as `value_text` of `ct_values`. The node at an
/// index has the value of the term there. The only error is out of memory.
pub fn value_pairs_text(
    alloc: Global,
    sig: &Signature,
    exprs: &[Sexpr],
    graph: &Graph,
    nodes: &[NodeId],
) -> Result<Vec<u8>, ModelError>
    requires one_each { length exprs.now ≡ length nodes.now }
    requires within { All (IsNode graph.now) nodes.now }
    requires fits { FitsGraph sig.now graph.now }
    ensures text { IfOk result (λ text. IsPairsText sig.now graph.now exprs.now nodes.now text.items) }
{
    let mut out = Vec::new(alloc);
    out.push(b'(')?;
    for index in 0..exprs.len() {
        write_gap(index, &mut out)?;
        write_pair(alloc, sig, &exprs[index], graph, nodes[index], &mut out)?;
    }
    out.push(b')')?;
    Ok(out)
}

// Writes the term and its value, as `(t v)`.
fn write_pair(
    alloc: Global,
    sig: &Signature,
    expr: &Sexpr,
    graph: &Graph,
    n: NodeId,
    out: &mut Vec<u8>,
) -> Result<(), ModelError>
    requires within { IsNode graph.now n }
    requires fits { FitsGraph sig.now graph.now }
    ensures ok { OnOk result ((text : List ℕ) × IsPairText sig.now graph.now expr.now n text
        × (out.new.items ≡ out.old.items ++ text)) }
{
    let term = sexpr_text(alloc, expr)?;
    out.push(b'(')?;
    out.extend_from_slice(term.as_slice())?;
    out.push(b' ')?;
    write_value(alloc, sig, graph, n, out)?;
    Ok(out.push(b')')?)
}
