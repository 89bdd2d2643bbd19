//! Depth-first search with a stack of its own: one step of it.
//!
//! A point is white before it is met, grey while it is on the stack, and black when it and all that it reaches are done.
//! The stack is the path from where the walk began: each hop on it has the place of the kid that the next hop is from, and
//! the hop on top that of the kid to be looked at. So a grey kid gives a cycle, from its depth on the stack to the top.
ghost use Rattle.std.specs.Prelude.{◌≡◌, ◌+◌, ◌^◌, ◌<◌, [], ◌∷◌, ◌++◌, length, slice_set, None, Some, OnOk, IfOk};
ghost use Rattle.ct_ordering.specs.declared.search.Colour.TheVariants.{Grey, Black};
ghost use Rattle.ct_ordering.specs.Graph.{graph, ArePoints};
ghost use Rattle.ct_ordering.specs.Search.{first_hop, next_hop, IsUnderWay, IsStepOrCycle};

use crate::error::OrderingError;
use crate::hop::Hop;
use crate::kids::kid_at;

/// How far the search is with a point.
#[derive(Clone, Copy, Debug)]
pub(crate) enum Colour {
    /// It was not met.
    White,
    /// It is on the stack, at this depth.
    Grey(usize),
    /// It stands in the order.
    Black,
}

/// The colour of each point, and the points that are done, each after its kids.
#[derive(Debug, Drop)]
pub(crate) struct Search {
    pub(crate) colours: Vec<Colour>,
    pub(crate) order: Vec<usize>,
}

/// A step from the hop that was on top of the stack. Where a cycle is found, the answer is the depth at which it begins.
pub(crate) fn step(
    starts: &[usize],
    kids: &[usize],
    top: Hop,
    search: &mut Search,
    stack: &mut Vec<Hop>,
) -> Result<Option<usize>, OrderingError>
    requires formed { ArePoints starts.now kids.now }
    requires under_way { IsUnderWay (graph starts.now kids.now) search.old.colours.items
        search.old.order.items (stack.old.items ++ top ∷ []) }
    ensures step { IfOk result (λ found. IsStepOrCycle (graph starts.now kids.now)
        search.old.colours.items search.new.colours.items search.new.order.items
        (stack.old.items ++ top ∷ []) stack.new.items found) }
{
    let Some(kid) = kid_at(starts, kids, top) else {
        return finish(top.point, search);
    };
    match search.colours[kid] {
        Colour::White => descend(top, kid, search, stack),
        Colour::Grey(depth) => close(top, depth, stack),
        Colour::Black => pass(top, stack),
    }
}

/// Puts a white point onto the stack.
pub(crate) fn enter(
    point: usize,
    search: &mut Search,
    stack: &mut Vec<Hop>,
) -> Result<(), OrderingError>
    requires within { point < length search.old.colours.items }
    ensures colours { OnOk result (search.new.colours.items
        ≡ slice_set search.old.colours.items point (Grey (length stack.old.items))) }
    ensures order { OnOk result (search.new.order.items ≡ search.old.order.items) }
    ensures stack { OnOk result (stack.new.items ≡ stack.old.items ++ first_hop point ∷ []) }
{
    search.colours[point] = Colour::Grey(stack.len());
    stack.push(Hop { point, place: 0 })?;
    Ok(())
}

// All kids of the point on top are done, and so is the point.
fn finish(point: usize, search: &mut Search) -> Result<Option<usize>, OrderingError>
    requires within { point < length search.old.colours.items }
    ensures found { IfOk result (λ found. found ≡ None) }
    ensures colours { OnOk result (search.new.colours.items
        ≡ slice_set search.old.colours.items point Black) }
    ensures order { OnOk result (search.new.order.items ≡ search.old.order.items ++ point ∷ []) }
{
    search.colours[point] = Colour::Black;
    search.order.push(point)?;
    Ok(None)
}

// The kid was not met: it goes onto the stack.
fn descend(
    top: Hop,
    kid: usize,
    search: &mut Search,
    stack: &mut Vec<Hop>,
) -> Result<Option<usize>, OrderingError>
    requires within { kid < length search.old.colours.items }
    ensures found { IfOk result (λ found. found ≡ None) }
    ensures colours { OnOk result (search.new.colours.items
        ≡ slice_set search.old.colours.items kid (Grey (length (stack.old.items ++ top ∷ [])))) }
    ensures order { OnOk result (search.new.order.items ≡ search.old.order.items) }
    ensures stack { OnOk result (stack.new.items
        ≡ (stack.old.items ++ top ∷ []) ++ first_hop kid ∷ []) }
{
    stack.push(top)?;
    enter(kid, search, stack)?;
    Ok(None)
}

// The kid is on the stack, at this depth: there a cycle begins.
fn close(top: Hop, depth: usize, stack: &mut Vec<Hop>) -> Result<Option<usize>, OrderingError>
    ensures found { IfOk result (λ found. found ≡ Some depth) }
    ensures stack { OnOk result (stack.new.items ≡ stack.old.items ++ top ∷ []) }
{
    stack.push(top)?;
    Ok(Some(depth))
}

// The kid is done: the one after it is to be looked at.
fn pass(top: Hop, stack: &mut Vec<Hop>) -> Result<Option<usize>, OrderingError>
    requires fits { top.place + 1 < 2 ^ 64 }
    ensures found { IfOk result (λ found. found ≡ None) }
    ensures stack { OnOk result (stack.new.items ≡ stack.old.items ++ next_hop top ∷ []) }
{
    stack.push(Hop {
        point: top.point,
        place: top.place + 1,
    })?;
    Ok(None)
}
