//! Before the first decision: adds lemmas on testers and equations, and what the theory implies. A record may add any line of
//! the theory while there is no decision.
ghost use Rattle.std.specs.Prelude.{◌≡◌, true, IfOk, OnOk, IsErrOf};
ghost use Rattle.ct_engine.specs.Progress.{IsOfOneTask, IsTheoryOf, IsAsked};
ghost use Rattle.ct_engine.specs.Opening.{IsOpening, IsBeforeDecisions};

use crate::asked::Asked;
use crate::course::Course;
use crate::error::SolveError;
use crate::implied::implied_drafts;
use crate::learn::add_conflict;
use crate::proposal::{MOST_STEPS, propose_all};
use crate::settle::{propagate, refute};
use crate::testers::lemmas_on;
use ct_card::Sizes;
use ct_explain::Layers;
use ct_log::Room;
use ct_sorts::Signature;
use ct_terms::{TermId, TermTable};
use ct_theory::Theory;
use std::alloc::Global;

/// So many lemmas a term are added at most.
const MOST_LEMMAS: usize = 8;

/// The theory is asked for what it implies so many times, and more often where terms are few, since a round may go over all of them.
const ROUNDS: u32 = 100;

/// Further rounds may go over so many terms together.
const MOST_TERMS: u32 = 50_000_000;

/// Adds lines to a search that has decided nothing.
pub(crate) fn open_search(
    alloc: Global,
    sig: &Signature,
    sizes: &Sizes,
    course: &mut Course,
    theory: &mut Theory,
) -> Result<(), SolveError>
    requires before { IsBeforeDecisions sig.now sizes.now course.old }
    requires theory { IsTheoryOf course.old theory.old }
    ensures before { OnOk result (IsBeforeDecisions sig.now sizes.now course.new) }
    ensures same { OnOk result (IsOfOneTask course.old course.new) }
    ensures theory { OnOk result (IsTheoryOf course.new theory.new) }
    ensures err { IsErrOf result SolveError.TooLarge → ⊥ }
{
    let mut room = Room::with(alloc, course.derivation.rec().table().len(), MOST_STEPS)?;
    add_lemmas(alloc, sig, sizes, course, &mut room)?;
    add_implied(alloc, sig, sizes, course, &mut room, theory)?;
    drop(room);
    Ok(())
}

// Adds the lemmas on all testers and equations, as long as they are not too many.
fn add_lemmas(
    alloc: Global,
    sig: &Signature,
    sizes: &Sizes,
    course: &mut Course,
    room: &mut Room,
) -> Result<(), SolveError>
    requires opening { IsOpening sig.now sizes.now course.old room.old }
    ensures opening { OnOk result (IsOpening sig.now sizes.now course.new room.new) }
    ensures same { OnOk result (IsOfOneTask course.old course.new) }
    ensures err { IsErrOf result SolveError.TooLarge → ⊥ }
{
    let terms = course.derivation.rec().table().len();
    let first = course.derivation.rec().lines().len();
    'terms: for number in 0..terms {
        if is_enough(&*course, first, terms) {
            return Ok(());
        }
        let drafts = lemmas_on(alloc, sig, course.derivation.rec().table(), TermId(number))?;
        propose_all(alloc, sig, sizes, course, room, drafts)?;
    }
    Ok(())
}

// Whether there are so many lemmas, after so many lines.
fn is_enough(course: &Course, first: usize, terms: u32) -> bool {
    let lines = course.derivation.rec().lines().len();
    lines > first && (lines - first) / MOST_LEMMAS > terms as usize
}

// Adds what the theory implies, until it implies no more.
fn add_implied(
    alloc: Global,
    sig: &Signature,
    sizes: &Sizes,
    course: &mut Course,
    room: &mut Room,
    theory: &mut Theory,
) -> Result<(), SolveError>
    requires opening { IsOpening sig.now sizes.now course.old room.old }
    requires theory { IsTheoryOf course.old theory.old }
    ensures opening { OnOk result (IsOpening sig.now sizes.now course.new room.new) }
    ensures same { OnOk result (IsOfOneTask course.old course.new) }
    ensures theory { OnOk result (IsTheoryOf course.new theory.new) }
    ensures err { IsErrOf result SolveError.TooLarge → ⊥ }
{
    let mut asked = Asked::new(alloc, course.derivation.rec().table())?;
    let mut layers = None;
    'rounds: for _ in 0..most_rounds(course.derivation.rec().table()) {
        if !imply(
            alloc,
            sig,
            sizes,
            course,
            room,
            theory,
            &mut asked,
            &mut layers,
        )? {
            return Ok(());
        }
    }
    Ok(())
}

// How many times at most the theory of these terms is asked.
fn most_rounds(table: &TermTable) -> u32 {
    ROUNDS.saturating_add(MOST_TERMS / table.len().saturating_add(1))
}

// Propagates, asks the theory, and adds what it implies. Where it contradicts the trail, this is added. Whether a line was
// added that makes more true.
fn imply(
    alloc: Global,
    sig: &Signature,
    sizes: &Sizes,
    course: &mut Course,
    room: &mut Room,
    theory: &mut Theory,
    asked: &mut Asked,
    layers: &mut Option<Layers>,
) -> Result<bool, SolveError>
    requires opening { IsOpening sig.now sizes.now course.old room.old }
    requires theory { IsTheoryOf course.old theory.old }
    requires asked { IsAsked course.old theory.old asked.old }
    ensures opening { OnOk result (IsOpening sig.now sizes.now course.new room.new) }
    ensures same { OnOk result (IsOfOneTask course.old course.new) }
    ensures theory { OnOk result (IsTheoryOf course.new theory.new) }
    ensures asked { IfOk result (λ found. found ≡ true → IsAsked course.new theory.new asked.new) }
    ensures err { IsErrOf result SolveError.TooLarge → ⊥ }
{
    if let Some(_) = propagate(course) {
        return Ok(false);
    }
    if let Some(conflict) = refute(&*course, theory, asked)? {
        add_conflict(course, conflict)?;
        return Ok(false);
    }
    let drafts = implied_drafts(alloc, &*course, theory.classes(), layers, MOST_STEPS)?;
    let before = course.derivation.rec().lines().len();
    propose_all(alloc, sig, sizes, course, room, drafts)?;
    Ok(course.derivation.rec().lines().len() > before)
}
