//! Whether the fields of a constructor determine the arguments of its generic: each parameter occurs in them.
ghost use Rattle.std.specs.Prelude.{◌≡◌, ◌↔◌, ◌<◌, ◌+◌, ℕ, List, length, Some, slice_get, IsTrue, IfOk, IfErr};
ghost use Rattle.std.specs.List.{AllZip};
ghost use Rattle.ct_generics.specs.Declarations.{Declared, Head};
ghost use Rattle.ct_generics.specs.Expression.{Expression};
ghost use Rattle.ct_generics.specs.Nodes.{AreWithin, StandFor};
ghost use Rattle.ct_generics.specs.Occurrence.{ArePartMarks, OccurAll, OccursIn};
ghost use Rattle.ct_generics.specs.Stored.{AreDeclared};

use crate::error::GenericError;
use crate::generics::Generics;
use crate::graph::is_marked;
use crate::nodes::{ExprId, Expressions, HeadId, Node};
use std::alloc::Global;

/// For each constructor of a sort or generic, whether each of its parameters occurs in the fields. The only error is
/// `NoMemory`.
pub fn determined(alloc: Global, g: &Generics, h: HeadId) -> Result<Vec<bool>, GenericError>
    requires within { (d : Declared) × AreDeclared g.now d × (h.0 < length d.heads) }
    ensures marks { IfOk result (λ marks. (d : Declared) (head : Head) → AreDeclared g.now d → slice_get d.heads h.0 ≡ Some head
        → AllZip (λ mark row. IsTrue mark ↔ OccurAll head.params row) marks.items head.ctors) }
    ensures err { IfErr result (λ e. e ≡ GenericError.NoMemory) }
{
    let template = g.template(h);
    let params = g.head_params(h);
    let rows = g.rows(h);
    let mut marks = Vec::with_capacity(alloc, rows.len())?;
    for row in rows {
        let mark = occur_all(alloc, template, row.as_slice(), params)?;
        marks.push(mark)?;
    }
    Ok(marks)
}

// Whether each of so many parameters occurs in one of these expressions.
fn occur_all(
    alloc: Global,
    template: &Expressions,
    fields: &[ExprId],
    params: u64,
) -> Result<bool, GenericError>
    requires within { AreWithin template.now fields.now }
    ensures mark { IfOk result (λ mark. (row : List Expression) → StandFor template.now fields.now row → IsTrue mark ↔ OccurAll params row) }
    ensures err { IfErr result (λ e. e ≡ GenericError.NoMemory) }
{
    let mut marks = field_marks(alloc, template, fields)?;
    mark_parts(template, marks.as_mut_slice());
    Ok(are_params_marked(template, marks.as_slice(), params))
}

// Marks for the nodes: those of these expressions.
fn field_marks(
    alloc: Global,
    template: &Expressions,
    fields: &[ExprId],
) -> Result<Vec<bool>, GenericError>
    requires within { AreWithin template.now fields.now }
    ensures long { IfOk result (λ marks. length marks.items ≡ length template.now) }
    ensures marks { IfOk result (λ marks. (row : List Expression) → StandFor template.now fields.now row → ArePartMarks template.now row (length template.now) marks.items) }
    ensures err { IfErr result (λ e. e ≡ GenericError.NoMemory) }
{
    let mut marks = vec![in alloc; false; template.len()]?;
    for field in fields {
        marks[field.0 as usize] = true;
    }
    Ok(marks)
}

// Marks what the marked nodes are made of, from the last node down.
fn mark_parts(template: &Expressions, marks: &mut [bool])
    requires long { length marks.old ≡ length template.now }
    ensures marks { (row : List Expression) → ArePartMarks template.now row (length template.now) marks.old → ArePartMarks template.now row 0 marks.new }
{
    let count = template.len();
    for step in 0..count {
        mark_node_parts(template, count - 1 - step, marks);
    }
}

// Marks what a node is made of, where it is marked.
fn mark_node_parts(template: &Expressions, k: usize, marks: &mut [bool])
    requires long { length marks.old ≡ length template.now }
    requires within { k < length template.now }
    ensures marks { (row : List Expression) → ArePartMarks template.now row (k + 1) marks.old → ArePartMarks template.now row k marks.new }
{
    let _ordered = template.len();
    if !marks[k] {
        return;
    }
    match template.node(ExprId(k as u64)) {
        Node::Param(_) => {}
        Node::Head(_) => {}
        Node::Apply(m, l) => {
            marks[m.0 as usize] = true;
            marks[l.0 as usize] = true;
        }
    }
}

// Whether the node of each of so many parameters is marked.
fn are_params_marked(template: &Expressions, marks: &[bool], params: u64) -> bool
    requires long { length marks.now ≡ length template.now }
    ensures all { (row : List Expression) → ArePartMarks template.now row 0 marks.now → IsTrue result ↔ OccurAll params row }
{
    for i in 0..params {
        if !is_param_marked(template, marks, i) {
            return false;
        }
    }
    true
}

// Whether the node of a parameter is marked.
fn is_param_marked(template: &Expressions, marks: &[bool], i: u64) -> bool
    requires long { length marks.now ≡ length template.now }
    ensures occurs { (row : List Expression) → ArePartMarks template.now row 0 marks.now → IsTrue result ↔ OccursIn row i }
{
    match template.find(Node::Param(i)) {
        None => false,
        Some(n) => is_marked(marks, n.0 as usize),
    }
}
