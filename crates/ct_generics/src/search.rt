//! Which vertices a vertex of a graph of expressions leads to, and whether a datatype goes through a codatatype back to
//! itself.
ghost use Rattle.std.specs.Prelude.{◌≡◌, ◌↔◌, ◌<◌, ℕ, ◌==◌, true, List, [], ◌∷◌, ◌++◌, length, slice_get, Some, IfOk, IfErr, OnOk, IsTrue, MatchOption};
ghost use Rattle.std.specs.List.{flat_map, list_any};
ghost use Rattle.ct_generics.specs.declared.kind.Kind.TheVariants.{Data, Codata};
ghost use Rattle.ct_generics.specs.Graph.{Leads, HasArc, HasPlainEnds, IsClosedGraph, IsMixedGraph, IsVertexOf, arcs_of};
ghost use Rattle.ct_generics.specs.Marks.{marked};
ghost use Rattle.ct_generics.specs.Search.{IsMarking, IsBack, IsSource, On};

use crate::error::GenericError;
use crate::graph::{Vertex, is_marked};
use crate::items::Items;
use crate::kind::Kind;
use std::alloc::Global;

/// Whether a datatype and a codatatype lead to each other. The only error is `NoMemory`.
pub fn is_mixed(alloc: Global, graph: &[Vertex]) -> Result<bool, GenericError>
    requires closed { IsClosedGraph graph.now }
    requires ends { HasPlainEnds graph.now }
    ensures mixed { IfOk result (λ found. IsTrue found ↔ IsMixedGraph graph.now) }
    ensures err { IfErr result (λ e. e ≡ GenericError.NoMemory) }
{
    for y in 0..graph.len() {
        if is_back(alloc, graph, y)? {
            return Ok(true);
        }
    }
    Ok(false)
}

// Whether the vertex is a codatatype that leads to a datatype with a field of it.
fn is_back(alloc: Global, graph: &[Vertex], y: usize) -> Result<bool, GenericError>
    requires within { y < length graph.now }
    requires closed { IsClosedGraph graph.now }
    ensures back { IfOk result (λ found. IsTrue found ↔ IsBack graph.now y) }
    ensures err { IfErr result (λ e. e ≡ GenericError.NoMemory) }
{
    if !is_codata(&graph[y]) {
        return Ok(false);
    }
    let marks = reached(alloc, graph, y)?;
    Ok(has_source(graph, marks.as_slice(), y))
}

// Whether the vertex is a codatatype.
fn is_codata(vertex: &Vertex) -> bool
    ensures codata { IsTrue result ↔ (vertex.now.kind ≡ Some Codata) }
{
    match vertex.kind {
        Some(Kind::Codata) => true,
        Some(Kind::Bool | Kind::Free | Kind::Data) | None => false,
    }
}

// Whether there is a marked datatype with a field of this vertex.
fn has_source(graph: &[Vertex], marks: &[bool], y: usize) -> bool
    requires long { length marks.now ≡ length graph.now }
    ensures source { IsTrue result ↔ ((x : ℕ) × IsSource graph.now marks.now y x) }
{
    for x in 0..graph.len() {
        if is_marked(marks, x) && is_data_over(&graph[x], y) {
            return true;
        }
    }
    false
}

// Whether the vertex is a datatype with a field of this one.
fn is_data_over(vertex: &Vertex, y: usize) -> bool
    ensures source { IsTrue result ↔ ((vertex.now.kind ≡ Some Data) × On (arcs_of vertex.now) y) }
{
    if !is_data(vertex) {
        return false;
    }
    has_arc(vertex.ctors.as_slice(), y)
}

// Whether the vertex is a datatype.
fn is_data(vertex: &Vertex) -> bool
    ensures data_kind { IsTrue result ↔ (vertex.now.kind ≡ Some Data) }
{
    match vertex.kind {
        Some(Kind::Data) => true,
        Some(Kind::Bool | Kind::Free | Kind::Codata) | None => false,
    }
}

// Whether a field of these constructors is this vertex.
fn has_arc(ctors: &[Items<usize>], y: usize) -> bool
    ensures value { result ≡ list_any (list_any (λ z. z == y)) ctors.now }
{
    ctors.iter().any(|fields| has_field(fields.as_slice(), y))
}

// Whether one of these fields is this vertex.
fn has_field(fields: &[usize], y: usize) -> bool
    ensures value { result ≡ list_any (λ z. z == y) fields.now }
{
    fields.iter().any(|z| *z == y)
}

/// The vertices that this one leads to, itself among them. The only error is `NoMemory`.
pub fn reached(alloc: Global, graph: &[Vertex], start: usize) -> Result<Vec<bool>, GenericError>
    requires within { start < length graph.now }
    requires closed { IsClosedGraph graph.now }
    ensures long { IfOk result (λ marks. length marks.items ≡ length graph.now) }
    ensures reached { IfOk result (λ marks. (i : ℕ) → (marked marks.items i ≡ true) ↔ Leads graph.now start i) }
    ensures err { IfErr result (λ e. e ≡ GenericError.NoMemory) }
{
    let mut marks = vec![in alloc; false; graph.len()]?;
    let mut stack = Vec::new(alloc);
    mark(start, &mut marks, &mut stack)?;
    while let Some(i) = pop(&mut stack) {
        let vertex = vertex_at(graph, i);
        mark_ctors(vertex.ctors.as_slice(), &mut marks, &mut stack)?;
    }
    Ok(marks)
}

// Takes the vertex that came onto the stack last.
fn pop(stack: &mut Vec<usize>) -> Option<usize>
    ensures popped { MatchOption result (stack.old.items ≡ []) (λ i. stack.old.items ≡ stack.new.items ++ i ∷ []) }
{
    stack.pop()
}

// The vertex at an index.
fn vertex_at(graph: &[Vertex], i: usize) -> &Vertex
    requires within { i < length graph.now }
    ensures value { slice_get graph.now i ≡ Some result.now }
{
    &graph[i]
}

// Marks the vertices of all fields of these constructors, and puts those that were not marked onto the stack.
fn mark_ctors(
    ctors: &[Items<usize>],
    marks: &mut Vec<bool>,
    stack: &mut Vec<usize>,
) -> Result<(), GenericError>
    ensures marks { OnOk result (IsMarking marks.old.items stack.old.items (flat_map (λ fields. fields) ctors.now) marks.new.items stack.new.items) }
    ensures err { IfErr result (λ e. e ≡ GenericError.NoMemory) }
{
    for fields in ctors {
        mark_fields(fields.as_slice(), marks, stack)?;
    }
    Ok(())
}

// Marks these vertices, and puts those that were not marked onto the stack.
fn mark_fields(
    fields: &[usize],
    marks: &mut Vec<bool>,
    stack: &mut Vec<usize>,
) -> Result<(), GenericError>
    ensures marks { OnOk result (IsMarking marks.old.items stack.old.items fields.now marks.new.items stack.new.items) }
    ensures err { IfErr result (λ e. e ≡ GenericError.NoMemory) }
{
    for field in fields {
        mark(*field, marks, stack)?;
    }
    Ok(())
}

// Marks a vertex and puts it onto the stack, unless it is marked already.
fn mark(i: usize, marks: &mut Vec<bool>, stack: &mut Vec<usize>) -> Result<(), GenericError>
    ensures marks { OnOk result (IsMarking marks.old.items stack.old.items (i ∷ []) marks.new.items stack.new.items) }
    ensures err { IfErr result (λ e. e ≡ GenericError.NoMemory) }
{
    if i < marks.len() && !is_marked(marks.as_slice(), i) {
        stack.push(i)?;
        marks[i] = true;
    }
    Ok(())
}
