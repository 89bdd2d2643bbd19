//! Answers on the coarsest partition of classes.
ghost use Rattle.std.specs.Prelude.{IfOk};
ghost use Rattle.ct_congr.specs.State.{IsAnswer, IsQuiet};
ghost use Rattle.ct_unique.specs.Partition.{IsCoarsest};

use crate::show::show_numbers;
use ct_cases::CaseError;
use ct_congr::{Classes, Closed};
use ct_terms::TermId;
use ct_unique::{Partition, coarsest, pairs};
use std::alloc::Global;
use std::collections::HashSet;

/// Shows the blocks of two or more classes, each class by its least term, and whether two classes share a block.
pub fn show_blocks(
    alloc: Global,
    classes: &Classes,
    closed: Closed,
    out: &mut String,
) -> Result<(), CaseError>
    requires answer { IsAnswer classes.now closed }
{
    match closed {
        Closed::Clash(_, _) => Ok(out.push_str("clash")?),
        Closed::Quiet => {
            let partition = partition_of(alloc, classes)?;
            let named = named_classes(alloc, classes, &partition)?;
            out.push_str("blocks")?;
            show_all(alloc, &named, out)?;
            match partition.first_pair(classes) {
                Some(_) => Ok(out.push_str(" pair")?),
                None => Ok(out.push_str(" none")?),
            }
        }
    }
}

/// Shows how many pairs show that the classes of the first pair are equal.
pub fn show_pairs(
    alloc: Global,
    classes: &Classes,
    closed: Closed,
    out: &mut String,
) -> Result<(), CaseError>
    requires answer { IsAnswer classes.now closed }
{
    match closed {
        Closed::Clash(_, _) => Ok(out.push_str("clash")?),
        Closed::Quiet => {
            let partition = partition_of(alloc, classes)?;
            let Some((a, b)) = partition.first_pair(classes) else {
                return Ok(out.push_str("none")?);
            };
            let Ok(found) = pairs(alloc, &partition, classes, a, b) else {
                return Err(CaseError::NoMemory);
            };
            let count = found.len();
            Ok(out.push_str(format!(in alloc; "pairs {count}")?.as_str())?)
        }
    }
}

/// The coarsest partition.
fn partition_of(alloc: Global, classes: &Classes) -> Result<Partition, CaseError>
    requires quiet { IsQuiet classes.now }
    ensures coarsest { IfOk result (IsCoarsest classes.now) }
{
    match coarsest(alloc, classes) {
        Ok(partition) => Ok(partition),
        Err(_) => Err(CaseError::NoMemory),
    }
}

/// The classes by their least terms, each with its block.
fn named_classes(
    alloc: Global,
    classes: &Classes,
    partition: &Partition,
) -> Result<Vec<(u32, u32)>, CaseError>
    requires made { IsCoarsest classes.now partition.now }
{
    let mut seen = HashSet::new(alloc);
    let mut named = Vec::new(alloc);
    for t in 0..classes.table().len() {
        let t = TermId(t);
        if seen.insert(classes.rep(t).0)? {
            named.push((t.0, partition.block(t)))?;
        }
    }
    Ok(named)
}

/// Shows each block of two or more of these classes.
fn show_all(alloc: Global, named: &[(u32, u32)], out: &mut String) -> Result<(), CaseError> {
    let mut shown = HashSet::new(alloc);
    for class in named {
        if shown.insert(class.1)? {
            show_block(alloc, named, class.1, out)?;
        }
    }
    Ok(())
}

/// Shows the classes in this block, if they are two or more.
fn show_block(
    alloc: Global,
    named: &[(u32, u32)],
    block: u32,
    out: &mut String,
) -> Result<(), CaseError> {
    let mut members = Vec::new(alloc);
    for class in named {
        if class.1 == block {
            members.push(class.0)?;
        }
    }
    if members.len() < 2 {
        return Ok(());
    }
    show_numbers(alloc, &members, out)
}
