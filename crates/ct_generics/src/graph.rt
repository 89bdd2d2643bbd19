//! Graphs of expressions: which vertices are well founded, which a vertex leads to, and whether a datatype goes through a
//! codatatype back to itself.
ghost use Rattle.std.specs.Prelude.{◌≡◌, ◌↔◌, ◌<◌, ℕ, true, false, List, length, slice_get, Some, IfOk, IfErr, IsTrue, if◌then◌else◌};
ghost use Rattle.std.specs.Bool.{OnTrue, OnFalse};
ghost use Rattle.std.specs.List.{list_all, list_any};
ghost use Rattle.ct_generics.specs.Graph.{IsFoundedAt};
ghost use Rattle.ct_generics.specs.Marks.{AreMarksSound, IsClosedSet, is_built, marked, unmarked};

use crate::error::GenericError;
use crate::items::Items;
use crate::kind::Kind;
use crate::order::order_of;
use std::alloc::Global;

/// A vertex: the kind of its expression, none for a parameter, and for each constructor the vertices of its fields.
#[derive(Debug, Drop)]
pub struct Vertex {
    /// The kind of the expression's head.
    pub kind: Option<Kind>,
    /// The vertices of the fields of each constructor.
    pub ctors: Items<Items<usize>>,
}

/// Whether each vertex is well founded. The only error is `NoMemory`.
pub fn founded(alloc: Global, graph: &[Vertex]) -> Result<Vec<bool>, GenericError>
    ensures long { IfOk result (λ marks. length marks.items ≡ length graph.now) }
    ensures founded { IfOk result (λ marks. (i : ℕ) → (marked marks.items i ≡ true) ↔ IsFoundedAt graph.now i) }
    ensures err { IfErr result (λ e. e ≡ GenericError.NoMemory) }
{
    let mut marks = vec![in alloc; false; graph.len()]?;
    let order = order_of(alloc, graph)?;
    let slots = marks.as_mut_slice();
    mark_in_order(graph, order.as_slice(), slots);
    while mark_round(graph, slots) {}
    Ok(marks)
}

// Marks the vertices in this order, each where it is built from marked ones.
fn mark_in_order(graph: &[Vertex], order: &[usize], marks: &mut [bool])
    requires len { length marks.old ≡ length graph.now }
    ensures sound { AreMarksSound graph.now marks.old → AreMarksSound graph.now marks.new }
{
    for i in order {
        mark_one(graph, *i, marks);
    }
}

// Marks a vertex where it is built from marked ones.
fn mark_one(graph: &[Vertex], i: usize, marks: &mut [bool])
    requires len { length marks.old ≡ length graph.now }
    ensures sound { AreMarksSound graph.now marks.old → AreMarksSound graph.now marks.new }
{
    if i >= graph.len() {
        return;
    }
    if !is_built(&graph[i], marks) {
        return;
    }
    marks[i] = true;
}

// One round over all vertices. Whether one was marked.
fn mark_round(graph: &[Vertex], marks: &mut [bool]) -> bool
    requires len { length marks.old ≡ length graph.now }
    ensures sound { AreMarksSound graph.now marks.old → AreMarksSound graph.now marks.new }
    ensures fewer { OnTrue result (unmarked marks.new < unmarked marks.old) }
    ensures stable { OnFalse result (IsClosedSet graph.now (marked marks.new)) }
{
    let mut changed = false;
    for i in 0..graph.len() {
        if !marks[i] && is_built(&graph[i], marks) {
            marks[i] = true;
            changed = true;
        }
    }
    changed
}

// Whether the vertex is no datatype, or has a constructor all of whose fields are marked.
fn is_built(vertex: &Vertex, marks: &[bool]) -> bool
    ensures value { result ≡ is_built (marked marks.now) vertex.now }
{
    match vertex.kind {
        Some(Kind::Data) => has_marked_ctor(vertex.ctors.as_slice(), marks),
        Some(Kind::Bool | Kind::Free | Kind::Codata) | None => true,
    }
}

// Whether there is a constructor all of whose fields are marked.
fn has_marked_ctor(ctors: &[Items<usize>], marks: &[bool]) -> bool
    ensures value { result ≡ list_any (list_all (marked marks.now)) ctors.now }
{
    ctors
        .iter()
        .any(|fields| are_marked(fields.as_slice(), marks))
}

// Whether all these vertices are marked.
fn are_marked(fields: &[usize], marks: &[bool]) -> bool
    ensures value { result ≡ list_all (marked marks.now) fields.now }
{
    fields.iter().all(|field| is_marked(marks, *field))
}

/// Whether the vertex is marked.
pub(crate) fn is_marked(marks: &[bool], i: usize) -> bool
    ensures value { result ≡ marked marks.now i }
{
    i < marks.len() && marks[i]
}
