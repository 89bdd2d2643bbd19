//! A topological order of a directed graph, or a cycle of it.
//!
//! From each point that was not met a walk goes down, depth first (`search.rt`). A point is put into the order when all of
//! its kids are. Each edge is looked at no more than twice, and nothing recurses, so the time and the memory are linear in
//! the points and their kids.
ghost use Rattle.std.specs.Prelude.{◌≡◌, ◌-◌, ◌<◌, ◌≤◌, [], length, drop, replicate, IfOk, MatchOption};
ghost use Rattle.ct_ordering.specs.declared.search.Colour.TheVariants.{White};
ghost use Rattle.ct_ordering.specs.Graph.{graph, ArePoints};
ghost use Rattle.ct_ordering.specs.Order.{IsCycle, IsOrdered};
ghost use Rattle.ct_ordering.specs.Search.{HasColour, IsUnderWay, IsWalk};

use crate::error::OrderingError;
use crate::hop::Hop;
use crate::search::{Colour, Search, enter, step};
use std::alloc::Global;

/// What there is of a directed graph: an order, or else a cycle.
#[derive(Debug, Drop)]
pub enum Ordered {
    /// Each point once, and its kids before it.
    Order(Vec<usize>),
    /// One hop or more. The point that a hop goes to is that of the next hop, and the last goes to the point of the first.
    Cycle(Vec<Hop>),
}

/// The points of the graph, each once and after its children, or a cycle that prevents this. A point with an edge to
/// itself is a cycle of one hop.
///
/// The points are the numbers from 0, one fewer than `starts` has entries, and the kids of point i are
/// `kids[starts[i]..starts[i + 1]]`, in order (`are_points`). The time and the memory are linear in both. Nothing recurses.
/// The only error is out of memory.
pub fn order(alloc: Global, starts: &[usize], kids: &[usize]) -> Result<Ordered, OrderingError>
    requires formed { ArePoints starts.now kids.now }
    ensures ordered { IfOk result (λ ordered. IsOrdered (graph starts.now kids.now) ordered) }
{
    let count = starts.len() - 1;
    let mut search = Search {
        colours: all_white(alloc, count)?,
        order: Vec::with_capacity(alloc, count)?,
    };
    for point in 0..count {
        let cycle = walk_if_white(alloc, starts, kids, point, &mut search)?;
        if let Some(hops) = cycle {
            return Ok(Ordered::Cycle(hops));
        }
    }
    Ok(Ordered::Order(search.order))
}

// Meets the point and all that it reaches, if it was not met, and puts what was not done into the order; or gives a cycle.
fn walk_if_white(
    alloc: Global,
    starts: &[usize],
    kids: &[usize],
    point: usize,
    search: &mut Search,
) -> Result<Option<Vec<Hop>>, OrderingError>
    requires formed { ArePoints starts.now kids.now }
    requires within { point < length starts.now - 1 }
    requires under_way { IsUnderWay (graph starts.now kids.now) search.old.colours.items
        search.old.order.items [] }
    ensures walk { IfOk result (λ cycle. MatchOption cycle
        (IsWalk (graph starts.now kids.now) point search.old.colours.items
        search.new.colours.items search.new.order.items [])
        (λ hops. IsCycle (graph starts.now kids.now) hops.items)) }
{
    match search.colours[point] {
        Colour::White => walk(alloc, starts, kids, point, search),
        _ => Ok(None),
    }
}

// The same for a point that was not met.
fn walk(
    alloc: Global,
    starts: &[usize],
    kids: &[usize],
    from: usize,
    search: &mut Search,
) -> Result<Option<Vec<Hop>>, OrderingError>
    requires formed { ArePoints starts.now kids.now }
    requires white { HasColour search.old.colours.items from White }
    requires under_way { IsUnderWay (graph starts.now kids.now) search.old.colours.items
        search.old.order.items [] }
    ensures walk { IfOk result (λ cycle. MatchOption cycle
        (IsWalk (graph starts.now kids.now) from search.old.colours.items
        search.new.colours.items search.new.order.items [])
        (λ hops. IsCycle (graph starts.now kids.now) hops.items)) }
{
    let mut stack = Vec::new(alloc);
    enter(from, search, &mut stack)?;
    while let Some(top) = stack.pop() {
        let found = step(starts, kids, top, search, &mut stack)?;
        if let Some(depth) = found {
            return Ok(Some(rest_of(alloc, &stack, depth)?));
        }
    }
    Ok(None)
}

// The hops from this index on.
fn rest_of(alloc: Global, hops: &[Hop], start: usize) -> Result<Vec<Hop>, OrderingError>
    requires within { start ≤ length hops.now }
    ensures value { IfOk result (λ rest. rest.items ≡ drop start hops.now) }
{
    Ok(hops[start..].to_vec(alloc)?)
}

// So many points, none of which was met.
fn all_white(alloc: Global, count: usize) -> Result<Vec<Colour>, OrderingError>
    ensures white { IfOk result (λ colours. colours.items ≡ replicate count White) }
{
    let mut colours = Vec::with_capacity(alloc, count)?;
    for _ in 0..count {
        colours.push(Colour::White)?;
    }
    Ok(colours)
}
