//! Interpretations that a case names: `((NODE ..) (TABLE ..) (TABLE ..))` with the nodes of the
//! graph, a table for each function, and one for each selector off its constructor. A node is
//! `(CONSTRUCTOR CHILD ..)` or `(elem SORT NUMBER)`, and a table `(DEFAULT (RESULT ARGUMENT ..) ..)`, over the numbers of
//! nodes.
use crate::cores::ctor_of;
use ct_cases::{CaseError, is_word, items_of, number_of, sort_of};
use ct_eval::{Interp, Row, Rows, Table, Tables};
use ct_sexpr::Sexpr;
use ct_sorts::Signature;
use ct_values::{Graph, Node, NodeId, NodeIds, are_closed};
use std::alloc::Global;

/// The interpretation.
pub fn interp_of(alloc: Global, sig: &Signature, part: &Sexpr) -> Result<Box<Interp>, CaseError> {
    match items_of(part)? {
        [nodes, funs, offs] => {
            let graph = graph_of(alloc, sig, nodes)?;
            let funs = tables_of(alloc, funs)?;
            let offs = tables_of(alloc, offs)?;
            Ok(Box::new(alloc, Interp { graph, funs, offs })?)
        }
        _ => Err(CaseError::Bad),
    }
}

/// The graph of these nodes.
fn graph_of(alloc: Global, sig: &Signature, part: &Sexpr) -> Result<Graph, CaseError> {
    let mut nodes = Vec::new(alloc);
    for node in items_of(part)? {
        nodes.push(node_of(alloc, sig, node)?)?;
    }
    if !are_closed(&nodes) {
        return Err(CaseError::Bad);
    }
    Ok(Graph::from_nodes(nodes))
}

/// A constructor over nodes, or an element.
fn node_of(alloc: Global, sig: &Signature, part: &Sexpr) -> Result<Node, CaseError> {
    match items_of(part)? {
        [] => Err(CaseError::Bad),
        [word, sort, number] if is_word(word, "elem") => {
            Ok(Node::Elem(sort_of(alloc, sig, sort)?, number_of(number)?))
        }
        [ctor, children @ ..] => {
            let ctor = ctor_of(alloc, sig, ctor)?;
            Ok(Node::Con(ctor, ids_of(alloc, children)?))
        }
    }
}

/// The nodes of these numbers.
fn ids_of(alloc: Global, parts: &[Sexpr]) -> Result<NodeIds, CaseError> {
    let mut ids = Vec::new(alloc);
    for part in parts {
        ids.push(NodeId(number_of(part)?))?;
    }
    Ok(NodeIds::new(ids))
}

/// The tables.
pub fn tables_of(alloc: Global, part: &Sexpr) -> Result<Tables, CaseError> {
    let mut tables = Vec::new(alloc);
    for table in items_of(part)? {
        tables.push(table_of(alloc, table)?)?;
    }
    Ok(Tables::new(tables))
}

/// A table.
fn table_of(alloc: Global, part: &Sexpr) -> Result<Table, CaseError> {
    match items_of(part)? {
        [] => Err(CaseError::Bad),
        [default, rows @ ..] => {
            let default = NodeId(number_of(default)?);
            let rows = Rows::new(rows_of(alloc, rows)?);
            Ok(Table { rows, default })
        }
    }
}

/// The rows of a table.
fn rows_of(alloc: Global, parts: &[Sexpr]) -> Result<Vec<Row>, CaseError> {
    let mut rows = Vec::new(alloc);
    for part in parts {
        rows.push(row_of(alloc, part)?)?;
    }
    Ok(rows)
}

/// A row: its result, and then its arguments.
fn row_of(alloc: Global, part: &Sexpr) -> Result<Row, CaseError> {
    match items_of(part)? {
        [] => Err(CaseError::Bad),
        [value, args @ ..] => {
            let args = ids_of(alloc, args)?;
            let value = NodeId(number_of(value)?);
            Ok(Row {
                args,
                result: value,
            })
        }
    }
}
