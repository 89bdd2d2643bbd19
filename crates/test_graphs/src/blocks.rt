//! Partitions: point i of `(blocks (LABEL KID ..) (LABEL KID ..) ..)` has the i-th label and
//! kids. Shown are the numbers of the points' blocks.
use crate::order::{push_kids, show_points};
use ct_cases::{CaseError, items_of, number_of};
use ct_partition::{are_points, coarsest};
use ct_sexpr::Sexpr;
use std::alloc::Global;

/// Answers a case of partitions.
pub fn answer(
    alloc: Global,
    kind: &str,
    parts: &[Sexpr],
    out: &mut String,
) -> Result<bool, CaseError> {
    if kind != "blocks" {
        return Ok(false);
    }
    show_points(alloc, &blocks_of(alloc, parts)?, out)?;
    Ok(true)
}

/// The blocks of points with these labels and kids.
fn blocks_of(alloc: Global, parts: &[Sexpr]) -> Result<Vec<usize>, CaseError> {
    let mut labels = Vec::new(alloc);
    let mut kids = Vec::new(alloc);
    let mut starts = Vec::new(alloc);
    starts.push(0)?;
    for part in parts {
        push_point(items_of(part)?, &mut labels, &mut kids)?;
        starts.push(kids.len())?;
    }
    if !are_points(&labels, &starts, &kids) {
        return Err(CaseError::Bad);
    }
    coarsest(alloc, &labels, &starts, &kids).map_err(|_| CaseError::NoMemory)
}

/// Appends the label of a point, and its kids.
fn push_point(
    parts: &[Sexpr],
    labels: &mut Vec<u64>,
    kids: &mut Vec<usize>,
) -> Result<(), CaseError> {
    match parts {
        [] => Err(CaseError::Bad),
        [label, others @ ..] => {
            labels.push(number_of(label)?)?;
            push_kids(others, kids)
        }
    }
}
