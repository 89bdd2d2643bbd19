//! Orders: point i of `(order (KID ..) (KID ..) ..)` has the i-th list as its kids. Shown is the
//! order as numbers, or `cycle` and the hops from the least point on, each as `POINT/PLACE`.
//! `(ordered (KID ..) ..)` shows only which of both it is.
use crate::show::show_number;
use ct_cases::{CaseError, items_of, number_of};
use ct_ordering::{Hop, Ordered, are_points, order};
use ct_sexpr::Sexpr;
use std::alloc::Global;

/// Answers a case of orders.
pub fn answer(
    alloc: Global,
    kind: &str,
    parts: &[Sexpr],
    out: &mut String,
) -> Result<bool, CaseError> {
    if kind == "order" {
        show_ordered(alloc, &ordered_of(alloc, parts)?, out)?;
        return Ok(true);
    }
    if kind == "ordered" {
        show_which(&ordered_of(alloc, parts)?, out)?;
        return Ok(true);
    }
    Ok(false)
}

/// The order of points with these lists of kids, or a cycle.
fn ordered_of(alloc: Global, parts: &[Sexpr]) -> Result<Ordered, CaseError> {
    let mut kids = Vec::new(alloc);
    let mut starts = Vec::new(alloc);
    starts.push(0)?;
    for part in parts {
        push_kids(items_of(part)?, &mut kids)?;
        starts.push(kids.len())?;
    }
    if !are_points(&starts, &kids) {
        return Err(CaseError::Bad);
    }
    order(alloc, &starts, &kids).map_err(|_| CaseError::NoMemory)
}

/// Appends the kids of a point.
pub fn push_kids(parts: &[Sexpr], kids: &mut Vec<usize>) -> Result<(), CaseError> {
    for part in parts {
        kids.push(number_of(part)? as usize)?;
    }
    Ok(())
}

/// Shows an order or a cycle.
fn show_ordered(alloc: Global, ordered: &Ordered, out: &mut String) -> Result<(), CaseError> {
    match ordered {
        Ordered::Order(points) => show_points(alloc, points, out),
        Ordered::Cycle(hops) => show_cycle(alloc, hops, out),
    }
}

/// Shows whether there is an order or a cycle.
fn show_which(ordered: &Ordered, out: &mut String) -> Result<(), CaseError> {
    match ordered {
        Ordered::Order(_) => Ok(out.push_str(" order")?),
        Ordered::Cycle(_) => Ok(out.push_str(" cycle")?),
    }
}

/// Shows points.
pub fn show_points(alloc: Global, points: &[usize], out: &mut String) -> Result<(), CaseError> {
    for point in points {
        show_number(alloc, *point, out)?;
    }
    Ok(())
}

/// Shows a cycle from its least point on.
fn show_cycle(alloc: Global, hops: &[Hop], out: &mut String) -> Result<(), CaseError> {
    out.push_str(" cycle")?;
    let first = least_hop(hops);
    if first > hops.len() {
        return Err(CaseError::Bad);
    }
    show_hops(alloc, &hops[first..], out)?;
    show_hops(alloc, &hops[..first], out)
}

/// The index of the first hop from the least point.
fn least_hop(hops: &[Hop]) -> usize {
    let mut least = usize::MAX;
    let mut found = 0;
    for i in 0..hops.len() {
        if hops[i].point < least {
            least = hops[i].point;
            found = i;
        }
    }
    found
}

/// Shows hops.
fn show_hops(alloc: Global, hops: &[Hop], out: &mut String) -> Result<(), CaseError> {
    for hop in hops {
        show_hop(alloc, *hop, out)?;
    }
    Ok(())
}

/// Shows a hop.
fn show_hop(alloc: Global, hop: Hop, out: &mut String) -> Result<(), CaseError> {
    let point = hop.point;
    let place = hop.place;
    out.push_str(format!(in alloc; " {point}/{place}")?.as_str())?;
    Ok(())
}
