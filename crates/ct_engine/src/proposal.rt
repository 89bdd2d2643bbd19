//! Adds proposed lines of the theory if the checker accepts them. So nothing is claimed about how they were found.
ghost use Rattle.std.specs.Prelude.{◌≡◌, OnOk, IsErrOf};
ghost use Rattle.std.specs.Bool.{OnTrue};
ghost use Rattle.ct_log.specs.Acceptance.{IsAccepted, clauses_of};
ghost use Rattle.ct_log.specs.Rooms.{HasRoomFor};
ghost use Rattle.ct_engine.specs.Progress.{IsOfOneTask};
ghost use Rattle.ct_engine.specs.Opening.{IsOpening};

use crate::course::Course;
use crate::error::SolveError;
use crate::taught::add_taught;
use ct_card::Sizes;
use ct_explain::EqProof;
use ct_log::{Close, EqStep, Line, Room, Step, is_accepted};
use ct_sorts::{Items, Signature};
use ct_terms::Lit;
use std::alloc::Global;

/// Lines with more steps than this are not proposed.
pub(crate) const MOST_STEPS: usize = 1024;

/// Adds the lines of these steps, the last ones first, where they are accepted.
pub(crate) fn propose_all(
    alloc: Global,
    sig: &Signature,
    sizes: &Sizes,
    course: &mut Course,
    room: &mut Room,
    drafts: Vec<EqProof>,
) -> Result<(), SolveError>
    requires opening { IsOpening sig.now sizes.now course.old room.old }
    ensures opening { OnOk result (IsOpening sig.now sizes.now course.new room.new) }
    ensures same { OnOk result (IsOfOneTask course.old course.new) }
    ensures trail { OnOk result (course.new.search.trail ≡ course.old.search.trail) }
    ensures err { IsErrOf result SolveError.TooLarge → ⊥ }
{
    let mut drafts = drafts;
    'drafts: while let Some(draft) = drafts.pop() {
        propose(alloc, sig, sizes, course, room, draft)?;
    }
    Ok(())
}

// Adds the line of these steps, of which the last gives two constructor terms as equal, where it is accepted. Its clause has
// the opposites of the literals that the steps name.
fn propose(
    alloc: Global,
    sig: &Signature,
    sizes: &Sizes,
    course: &mut Course,
    room: &mut Room,
    proof: EqProof,
) -> Result<(), SolveError>
    requires opening { IsOpening sig.now sizes.now course.old room.old }
    ensures opening { OnOk result (IsOpening sig.now sizes.now course.new room.new) }
    ensures same { OnOk result (IsOfOneTask course.old course.new) }
    ensures trail { OnOk result (course.new.search.trail ≡ course.old.search.trail) }
    ensures err { IsErrOf result SolveError.TooLarge → ⊥ }
{
    let count = proof.steps.len();
    if count == 0 || count > MOST_STEPS {
        return Ok(());
    }
    let clause = clause_of(alloc, proof.steps.as_slice())?;
    let line = Line {
        clause: Items::new(clause),
        step: Step::Theory(Items::new(proof.steps), Close::Clash(count as u64 - 1)),
    };
    if !is_next(sig, sizes, &*course, &line, room) {
        return Ok(());
    }
    add_taught(course, line)?;
    Ok(())
}

// Whether the line is accepted after those that stand.
fn is_next(sig: &Signature, sizes: &Sizes, course: &Course, line: &Line, room: &mut Room) -> bool
    requires opening { IsOpening sig.now sizes.now course.now room.old }
    requires fits { HasRoomFor room.old line.now.step }
    ensures accepted { OnTrue result (IsAccepted course.now.derivation.declarations course.now.derivation.rec.terms course.now.derivation.asserts (clauses_of course.now.derivation.rec.lines) line.now) }
    ensures room { room.new ≡ room.old }
{
    let rec = course.derivation.rec();
    is_accepted(
        sig,
        sizes,
        rec.table(),
        course.derivation.asserts(),
        rec.lines(),
        line,
        room,
    )
}

// The opposites of the literals that the steps name, each once.
fn clause_of(alloc: Global, steps: &[EqStep]) -> Result<Vec<Lit>, SolveError>
    ensures err { IsErrOf result SolveError.TooLarge → ⊥ }
{
    let mut clause = Vec::new(alloc);
    for step in steps {
        if let EqStep::Hyp(named) = step {
            put(&mut clause, opposite(*named))?;
        }
    }
    Ok(clause)
}

// Puts the literal into the clause, unless it stands there.
fn put(clause: &mut Vec<Lit>, literal: Lit) -> Result<(), SolveError>
    ensures err { IsErrOf result SolveError.TooLarge → ⊥ }
{
    if clause.contains(&literal) {
        return Ok(());
    }
    clause.push(literal)?;
    Ok(())
}

// The literal with the other sign.
fn opposite(literal: Lit) -> Lit {
    Lit {
        term: literal.term,
        positive: !literal.positive,
    }
}
