//! Runs that are cut short at every place where they can be: at each call of the desk, at each write of the sink, after each byte
//! of the script, of the derivation or of the model. What comes of them is shown once for each stretch of places with one outcome.
use crate::outcome::show_outcome;
use crate::setting::{Setting, proof_of};
use ct_cases::CaseError;
use ct_io::{Status, Text};
use std::alloc::Global;

/// The most places that are tried.
const MOST_PLACES: u64 = 1_000_000;

/// Where a run is cut short.
#[derive(Clone, Copy)]
pub enum Cut {
    /// A call of the desk fails.
    Call,
    /// A write of the sink fails.
    Write,
    /// The script ends.
    Script,
    /// The derivation or the model ends.
    Proof,
}

/// The places with one outcome that are being gone through.
#[derive(Drop)]
struct Stretch {
    first: u64,
    outcome: String,
}

/// Shows what comes of the run at each place where it can be cut short so, and of the run that is not.
pub fn show_every(
    alloc: Global,
    cut: Cut,
    words: &[Text],
    script: &[u8],
    setting: Setting<'_>,
    out: &mut String,
) -> Result<(), CaseError> {
    let places = places_of(alloc, cut, script, setting)?;
    let mut stretch = Stretch {
        first: 0,
        outcome: String::new(alloc),
    };
    let mut next = 0;
    for place in 0..places {
        let mut outcome = String::new(alloc);
        let status = run_until(alloc, cut, place, words, script, setting, &mut outcome)?;
        stretch = follow(alloc, stretch, place, outcome, out)?;
        next = place.saturating_add(1);
        if is_whole(cut, status) {
            break;
        }
    }
    show_stretch(alloc, &stretch, next, out)
}

/// How many places there may be.
fn places_of(
    alloc: Global,
    cut: Cut,
    script: &[u8],
    setting: Setting<'_>,
) -> Result<u64, CaseError> {
    match cut {
        Cut::Call | Cut::Write => Ok(MOST_PLACES),
        Cut::Script => Ok((script.len() as u64).saturating_add(1)),
        Cut::Proof => Ok((proof_of(alloc, setting)?.len() as u64).saturating_add(1)),
    }
}

/// Whether the run was not cut short, and no later one will be.
fn is_whole(cut: Cut, status: Status) -> bool {
    match cut {
        Cut::Call => status != Status::InputFault,
        Cut::Write => status != Status::OutputFault,
        Cut::Script | Cut::Proof => false,
    }
}

/// Shows the run that is cut short at this place.
fn run_until(
    alloc: Global,
    cut: Cut,
    place: u64,
    words: &[Text],
    script: &[u8],
    setting: Setting<'_>,
    out: &mut String,
) -> Result<Status, CaseError> {
    let script = match cut {
        Cut::Script => script.get(..place as usize).unwrap_or(script),
        _ => script,
    };
    let setting = match cut {
        Cut::Call => setting.with_desk_failing(place),
        Cut::Write => setting.with_sink_failing(place),
        Cut::Proof => setting.with_proof_ending(place as usize),
        Cut::Script => setting,
    };
    let script = Vec::from_slice(alloc, script)?;
    show_outcome(alloc, words, script, setting, out)
}

/// Goes on to the place with this outcome. Where it is another outcome than before, shows the stretch that it ends.
fn follow(
    alloc: Global,
    stretch: Stretch,
    place: u64,
    outcome: String,
    out: &mut String,
) -> Result<Stretch, CaseError> {
    if place == 0 {
        return Ok(Stretch { first: 0, outcome });
    }
    if stretch.outcome.as_str() == outcome.as_str() {
        return Ok(stretch);
    }
    show_stretch(alloc, &stretch, place, out)?;
    Ok(Stretch {
        first: place,
        outcome,
    })
}

/// Shows the stretch before this place on a line of its own.
fn show_stretch(
    alloc: Global,
    stretch: &Stretch,
    next: u64,
    out: &mut String,
) -> Result<(), CaseError> {
    let first = stretch.first;
    let last = next.saturating_sub(1);
    let outcome = stretch.outcome.as_str();
    out.push_str(format!(in alloc; "\n  {first}-{last}:{outcome}")?.as_str())?;
    Ok(())
}
