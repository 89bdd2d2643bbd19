//! An order of the vertices of a graph in which a well-founded datatype comes after the fields from which it is built, so that
//! one round over it marks all of them. Only the time of the rounds depends on it. It takes time nearly linear in the size of
//! the graph: each constructor counts the fields that have not come yet (Dowling and Gallier 1984).
ghost use Rattle.std.specs.Prelude.{◌≡◌, IfErr};

use crate::error::GenericError;
use crate::graph::Vertex;
use crate::items::Items;
use crate::kind::Kind;
use std::alloc::Global;

// A constructor of a vertex, and how many of its fields have not come yet.
#[derive(Clone, Copy, Debug)]
struct Waiting {
    vertex: usize,
    fields: usize,
}

// The constructors, for each vertex those that have it as a field, and the vertices that came.
#[derive(Drop)]
struct Ordering {
    waiting: Vec<Waiting>,
    users: Vec<Items<usize>>,
    order: Vec<usize>,
}

/// The vertices that are well founded, each at least once. The only error is `NoMemory`.
pub(crate) fn order_of(alloc: Global, graph: &[Vertex]) -> Result<Vec<usize>, GenericError>
    ensures err { IfErr result (λ e. e ≡ GenericError.NoMemory) }
{
    let mut ordering = Ordering {
        waiting: Vec::new(alloc),
        users: rows(alloc, graph.len())?,
        order: Vec::new(alloc),
    };
    for i in 0..graph.len() {
        begin(&mut ordering, i, &graph[i])?;
    }
    let mut came = vec![in alloc; false; graph.len()]?;
    for step in 0..usize::MAX {
        if step >= ordering.order.len() {
            break;
        }
        let vertex = ordering.order[step];
        if comes(came.as_mut_slice(), vertex) {
            release_all(alloc, &mut ordering, vertex)?;
        }
    }
    Ok(ordering.order)
}

// So many empty rows.
fn rows(alloc: Global, count: usize) -> Result<Vec<Items<usize>>, GenericError>
    ensures err { IfErr result (λ e. e ≡ GenericError.NoMemory) }
{
    let mut rows = Vec::with_capacity(alloc, count)?;
    for _ in 0..count {
        rows.push(Items::new(Vec::new(alloc)))?;
    }
    Ok(rows)
}

// A vertex comes at once where it is no datatype; else its constructors wait for their fields.
fn begin(ordering: &mut Ordering, i: usize, vertex: &Vertex) -> Result<(), GenericError>
    ensures err { IfErr result (λ e. e ≡ GenericError.NoMemory) }
{
    match vertex.kind {
        Some(Kind::Data) => begin_ctors(ordering, i, vertex.ctors.as_slice()),
        Some(Kind::Bool | Kind::Free | Kind::Codata) | None => {
            ordering.order.push(i)?;
            Ok(())
        }
    }
}

// The constructors of a datatype.
fn begin_ctors(
    ordering: &mut Ordering,
    i: usize,
    ctors: &[Items<usize>],
) -> Result<(), GenericError>
    ensures err { IfErr result (λ e. e ≡ GenericError.NoMemory) }
{
    for fields in ctors {
        begin_ctor(ordering, i, fields.as_slice())?;
    }
    Ok(())
}

// A constructor of a datatype: without fields the datatype comes at once.
fn begin_ctor(ordering: &mut Ordering, i: usize, fields: &[usize]) -> Result<(), GenericError>
    ensures err { IfErr result (λ e. e ≡ GenericError.NoMemory) }
{
    if fields.is_empty() {
        ordering.order.push(i)?;
        return Ok(());
    }
    let number = ordering.waiting.len();
    ordering.waiting.push(Waiting {
        vertex: i,
        fields: fields.len(),
    })?;
    for field in fields {
        if *field < ordering.users.len() {
            ordering.users[*field].push(number)?;
        }
    }
    Ok(())
}

// Marks that the vertex came. Whether it came for the first time.
fn comes(came: &mut [bool], vertex: usize) -> bool {
    if vertex >= came.len() {
        return false;
    }
    let first = !came[vertex];
    came[vertex] = true;
    first
}

// The constructors that have the vertex as a field wait for one field less.
fn release_all(alloc: Global, ordering: &mut Ordering, vertex: usize) -> Result<(), GenericError>
    ensures err { IfErr result (λ e. e ≡ GenericError.NoMemory) }
{
    if vertex >= ordering.users.len() {
        return Ok(());
    }
    let users = Vec::from_slice(alloc, ordering.users[vertex].as_slice())?;
    for number in users.as_slice() {
        release(ordering, *number)?;
    }
    Ok(())
}

// A constructor waits for one field less. Its datatype comes where it waits for none.
fn release(ordering: &mut Ordering, number: usize) -> Result<(), GenericError>
    ensures err { IfErr result (λ e. e ≡ GenericError.NoMemory) }
{
    if number >= ordering.waiting.len() {
        return Ok(());
    }
    let Waiting { vertex, fields } = ordering.waiting[number];
    if fields <= 1 {
        ordering.order.push(vertex)?;
        return Ok(());
    }
    ordering.waiting[number] = Waiting {
        vertex,
        fields: fields - 1,
    };
    Ok(())
}
