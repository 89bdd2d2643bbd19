//! Classes in text.
use ct_cases::CaseError;
use ct_congr::{Classes, Closed};
use ct_terms::TermId;
use std::alloc::Global;
use std::collections::HashSet;

/// Shows whether two constructors meet, and the classes of two or more terms, by their least members.
pub fn show_classes(
    alloc: Global,
    classes: &Classes,
    closed: Closed,
    out: &mut String,
) -> Result<(), CaseError> {
    match closed {
        Closed::Quiet => out.push_str("quiet")?,
        Closed::Clash(_, _) => out.push_str("clash")?,
    }
    show_members(alloc, classes, out)
}

/// Shows the classes of two or more terms, by their least members.
pub fn show_members(alloc: Global, classes: &Classes, out: &mut String) -> Result<(), CaseError> {
    let mut shown = HashSet::new(alloc);
    for t in 0..classes.table().len() {
        if shown.insert(classes.rep(TermId(t)).0)? {
            show_class(alloc, classes.class(TermId(t)), out)?;
        }
    }
    Ok(())
}

/// Shows these terms of one class, if they are two or more.
fn show_class(alloc: Global, members: &[TermId], out: &mut String) -> Result<(), CaseError> {
    if members.len() < 2 {
        return Ok(());
    }
    let numbers = sorted_numbers(alloc, members)?;
    show_numbers(alloc, &numbers, out)
}

/// The numbers of the terms, in rising order.
fn sorted_numbers(alloc: Global, terms: &[TermId]) -> Result<Vec<u32>, CaseError> {
    let mut numbers = Vec::new(alloc);
    for t in terms {
        numbers.push(t.0)?;
    }
    numbers.sort()?;
    Ok(numbers)
}

/// Shows a list of numbers.
pub fn show_numbers(alloc: Global, numbers: &[u32], out: &mut String) -> Result<(), CaseError> {
    let mut gap = " (";
    for number in numbers {
        out.push_str(gap)?;
        out.push_str(format!(in alloc; "{number}")?.as_str())?;
        gap = " ";
    }
    Ok(out.push(')')?)
}
