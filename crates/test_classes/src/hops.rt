//! Answers on cycles through constructor terms.
ghost use Rattle.ct_congr.specs.State.{IsAnswer};

use ct_acyclic::{OrderError, order};
use ct_cases::CaseError;
use ct_congr::{Classes, Closed};
use ct_terms::TermId;
use std::alloc::Global;

/// Shows the constructor terms of a cycle through datatypes, each with the index of the argument that leads on.
pub fn show_hops(
    alloc: Global,
    classes: &Classes,
    closed: Closed,
    out: &mut String,
) -> Result<(), CaseError>
    requires answer { IsAnswer classes.now closed }
{
    match closed {
        Closed::Clash(_, _) => Ok(out.push_str("clash")?),
        Closed::Quiet => match order(alloc, classes) {
            Ok(_) => Ok(out.push_str("none")?),
            Err(OrderError::Cycle(hops)) => show_each(alloc, &hops, out),
            Err(OrderError::NoMemory) => Err(CaseError::NoMemory),
        },
    }
}

/// Shows these constructor terms.
fn show_each(alloc: Global, hops: &[(TermId, u32)], out: &mut String) -> Result<(), CaseError> {
    out.push_str("hops")?;
    for hop in hops {
        let (con, place) = (hop.0.0, hop.1);
        out.push_str(format!(in alloc; " ({con} {place})")?.as_str())?;
    }
    Ok(())
}
