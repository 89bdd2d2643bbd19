//! The CDCL(T) loop: propagate, ask the theory, decide (Nieuwenhuis, Oliveras and Tinelli 2006). Before a decision the theory
//! is asked for what it finds quickly, and when every variable has a value, for a full answer.
ghost use Rattle.std.specs.Prelude.{◌≡◌, IfOk, IfSome, OnOk, IsErrOf, IsTrue, MatchOption, Some, slice_get};
ghost use Rattle.ct_sorts.specs.Grown.{Begins};
ghost use Rattle.ct_congr.specs.State.{State};
ghost use Rattle.ct_sat.specs.State.{IsConflict, IsQuiet, HaveValues};
ghost use Rattle.ct_theory.specs.Entailment.{IsConflictOf};
ghost use Rattle.ct_theory.specs.Consulting.{IsConsulted, HaveInCommon};
ghost use Rattle.ct_engine.specs.Progress.{IsUnderWay, IsOfOneTask, IsTheoryOf, IsAsked, IsTurn, IsEnded, IsCounted};

use crate::asked::Asked;
use crate::course::Course;
use crate::decide::decide;
use crate::error::SolveError;
use crate::guided::begin_anew;
use crate::learn::{add_conflict, learn};
use crate::outcome::{Ending, Turn};
use ct_sat::Decision;
use ct_terms::Lit;
use ct_theory::{Conflict, Consulted, Theory};
use std::alloc::Global;

/// Decides variables one after the other, each once all conflicts are resolved, until the search ends.
pub(crate) fn run(
    alloc: Global,
    course: &mut Course,
    theory: &mut Theory,
) -> Result<Ending, SolveError>
    requires under_way { IsUnderWay course.old }
    requires theory { IsTheoryOf course.old theory.old }
    ensures same { OnOk result (IsOfOneTask course.old course.new) }
    ensures theory { OnOk result (IsTheoryOf course.new theory.new) }
    ensures ended { IfOk result (IsEnded course.new theory.new) }
    ensures err { IsErrOf result SolveError.TooLarge → ⊥ }
{
    let mut asked = begun(alloc, course, theory)?;
    'decisions: loop {
        match advance(alloc, course, theory, &mut asked)? {
            Some(ending) => return Ok(ending),
            None => {}
        }
    }
}

// Learns from conflicts, of clauses and of the theory, until there is none, and decides the next variable.
fn advance(
    alloc: Global,
    course: &mut Course,
    theory: &mut Theory,
    asked: &mut Asked,
) -> Result<Option<Ending>, SolveError>
    requires under_way { IsUnderWay course.old }
    requires theory { IsTheoryOf course.old theory.old }
    requires asked { IsAsked course.old theory.old asked.old }
    ensures same { OnOk result (IsOfOneTask course.old course.new) }
    ensures theory { OnOk result (IsTheoryOf course.new theory.new) }
    ensures asked { OnOk result (IsAsked course.new theory.new asked.new) }
    ensures decided { IfOk result (λ r. MatchOption r
        (IsUnderWay course.new × IsCounted course.old.search course.new.search)
        (IsEnded course.new theory.new)) }
    ensures err { IsErrOf result SolveError.TooLarge → ⊥ }
{
    'conflicts: loop {
        match take_turn(alloc, course, theory, asked)? {
            Turn::Ended(ending) => return Ok(Some(ending)),
            Turn::Decided => return Ok(None),
            Turn::Learned => {}
        }
    }
}

// Propagates, and learns from the first conflict of clauses or of the theory; where there is none decides a variable.
fn take_turn(
    alloc: Global,
    course: &mut Course,
    theory: &mut Theory,
    asked: &mut Asked,
) -> Result<Turn, SolveError>
    requires under_way { IsUnderWay course.old }
    requires theory { IsTheoryOf course.old theory.old }
    requires asked { IsAsked course.old theory.old asked.old }
    ensures same { OnOk result (IsOfOneTask course.old course.new) }
    ensures theory { OnOk result (IsTheoryOf course.new theory.new) }
    ensures asked { OnOk result (IsAsked course.new theory.new asked.new) }
    ensures turn { IfOk result (IsTurn course.old course.new theory.new) }
    ensures err { IsErrOf result SolveError.TooLarge → ⊥ }
{
    if let Some(conflict) = propagate(course) {
        return learn_from(alloc, course, asked, conflict);
    }
    match refute(&*course, theory, asked)? {
        Some(conflict) => teach(alloc, course, asked, conflict),
        None => proceed(alloc, course, theory, asked),
    }
}

// Takes back all decisions where it is time; else goes on with a decision.
fn proceed(
    alloc: Global,
    course: &mut Course,
    theory: &mut Theory,
    asked: &mut Asked,
) -> Result<Turn, SolveError>
    requires under_way { IsUnderWay course.old }
    requires quiet { IsQuiet course.old.search }
    requires theory { IsTheoryOf course.old theory.old }
    requires asked { IsAsked course.old theory.old asked.old }
    ensures same { OnOk result (IsOfOneTask course.old course.new) }
    ensures theory { OnOk result (IsTheoryOf course.new theory.new) }
    ensures asked { OnOk result (IsAsked course.new theory.new asked.new) }
    ensures turn { IfOk result (IsTurn course.old course.new theory.new) }
    ensures err { IsErrOf result SolveError.TooLarge → ⊥ }
{
    if begin_anew(course) {
        asked.cut_to(course.search.trail().len());
        return Ok(Turn::Learned);
    }
    choose(alloc, course, theory, asked)
}

// Decides a variable, or learns from a full answer of the theory where every variable has a value.
fn choose(
    alloc: Global,
    course: &mut Course,
    theory: &mut Theory,
    asked: &mut Asked,
) -> Result<Turn, SolveError>
    requires under_way { IsUnderWay course.old }
    requires quiet { IsQuiet course.old.search }
    requires theory { IsTheoryOf course.old theory.old }
    requires asked { IsAsked course.old theory.old asked.old }
    ensures same { OnOk result (IsOfOneTask course.old course.new) }
    ensures theory { OnOk result (IsTheoryOf course.new theory.new) }
    ensures asked { OnOk result (IsAsked course.new theory.new asked.new) }
    ensures turn { IfOk result (IsTurn course.old course.new theory.new) }
    ensures err { IsErrOf result SolveError.TooLarge → ⊥ }
{
    match decide(course)? {
        Decision::Took(_) => Ok(Turn::Decided),
        Decision::Spent => Ok(Turn::Ended(Ending::Spent)),
        Decision::All => finish(alloc, course, theory, asked),
    }
}

// Ends the search where the theory agrees with the trail, which has all values; else learns from the conflict.
fn finish(
    alloc: Global,
    course: &mut Course,
    theory: &mut Theory,
    asked: &mut Asked,
) -> Result<Turn, SolveError>
    requires under_way { IsUnderWay course.old }
    requires quiet { IsQuiet course.old.search }
    requires all { HaveValues course.old.search }
    requires theory { IsTheoryOf course.old theory.old }
    requires asked { IsAsked course.old theory.old asked.old }
    ensures same { OnOk result (IsOfOneTask course.old course.new) }
    ensures theory { OnOk result (IsTheoryOf course.new theory.new) }
    ensures asked { OnOk result (IsAsked course.new theory.new asked.new) }
    ensures turn { IfOk result (IsTurn course.old course.new theory.new) }
    ensures err { IsErrOf result SolveError.TooLarge → ⊥ }
{
    match consult(&*course, theory, asked)? {
        Consulted::Saturated(order) => Ok(Turn::Ended(Ending::Saturated(order))),
        Consulted::Conflict(conflict) => teach(alloc, course, asked, conflict),
    }
}

// Adds the clause by which the theory contradicts the trail, and learns from it.
fn teach(
    alloc: Global,
    course: &mut Course,
    asked: &mut Asked,
    conflict: Conflict,
) -> Result<Turn, SolveError>
    requires under_way { IsUnderWay course.old }
    requires quiet { IsQuiet course.old.search }
    requires conflict { IsConflictOf course.old.derivation.declarations course.old.derivation.rec.terms course.old.search.trail conflict.clause conflict.steps conflict.close }
    ensures same { OnOk result (IsOfOneTask course.old course.new) }
    ensures learned { IfOk result (λ turn. (theory : State) → IsTurn course.old course.new theory turn) }
    ensures asked { OnOk result ((theory : State) → IsAsked course.old theory asked.old → IsAsked course.new theory asked.new) }
    ensures err { IsErrOf result SolveError.TooLarge → ⊥ }
{
    let number = add_conflict(course, conflict)?;
    learn_from(alloc, course, asked, number)
}

// Learns from the clause with this number, which is false in the trail, and notes how much of the trail is left.
fn learn_from(
    alloc: Global,
    course: &mut Course,
    asked: &mut Asked,
    number: u64,
) -> Result<Turn, SolveError>
    requires under_way { IsUnderWay course.old }
    requires conflict { IsConflict course.old.search number }
    ensures same { OnOk result (IsOfOneTask course.old course.new) }
    ensures learned { IfOk result (λ turn. (theory : State) → IsTurn course.old course.new theory turn) }
    ensures asked { OnOk result ((theory : State) → IsAsked course.old theory asked.old → IsAsked course.new theory asked.new) }
    ensures err { IsErrOf result SolveError.TooLarge → ⊥ }
{
    let turn = learn(alloc, course, number)?;
    asked.cut_to(course.search.trail().len());
    Ok(turn)
}

/// Makes true what follows by units. Gives the number of a clause that is false then.
pub(crate) fn propagate(course: &mut Course) -> Option<u64>
    requires under_way { IsUnderWay course.old }
    ensures under_way { IsUnderWay course.new }
    ensures same { IsOfOneTask course.old course.new }
    ensures counted { course.new.search.count ≡ course.old.search.count }
    ensures decided { course.new.search.decided ≡ course.old.search.decided }
    ensures trail { Begins course.old.search.trail course.new.search.trail }
    ensures quiet { MatchOption result (IsQuiet course.new.search) (IsConflict course.new.search) }
{
    let _trail = course.search.trail();
    course.search.propagate()
}

/// A contradiction of the theory to the trail, if a quick look finds one. It looks only where there is news for the theory.
pub(crate) fn refute(
    course: &Course,
    theory: &mut Theory,
    asked: &mut Asked,
) -> Result<Option<Conflict>, SolveError>
    requires under_way { IsUnderWay course.now }
    requires theory { IsTheoryOf course.now theory.old }
    requires asked { IsAsked course.now theory.old asked.old }
    ensures theory { OnOk result (IsTheoryOf course.now theory.new) }
    ensures asked { OnOk result (IsAsked course.now theory.new asked.new) }
    ensures conflict { IfOk result (λ found. IfSome found (λ c. IsConflictOf course.now.derivation.declarations course.now.derivation.rec.terms course.now.search.trail c.clause c.steps c.close)) }
    ensures err { IsErrOf result SolveError.TooLarge → ⊥ }
{
    let trail = course.search.trail();
    if !asked.has_news(trail) {
        return Ok(None);
    }
    let found = theory.refute(trail, asked.shared)?;
    asked.note(trail.len());
    Ok(found)
}

// Whether the theory contradicts the trail.
fn consult(course: &Course, theory: &mut Theory, asked: &mut Asked) -> Result<Consulted, SolveError>
    requires under_way { IsUnderWay course.now }
    requires theory { IsTheoryOf course.now theory.old }
    requires asked { IsAsked course.now theory.old asked.old }
    ensures theory { OnOk result (IsTheoryOf course.now theory.new) }
    ensures asked { OnOk result (IsAsked course.now theory.new asked.new) }
    ensures consulted { IfOk result (IsConsulted course.now.derivation.declarations course.now.derivation.rec.terms course.now.search.trail theory.new) }
    ensures err { IsErrOf result SolveError.TooLarge → ⊥ }
{
    let trail = course.search.trail();
    let answer = theory.consult(trail, asked.shared)?;
    asked.note(trail.len());
    Ok(answer)
}

// Of the trail the theory knows so much as it has in common with the literals that the theory was told last.
fn begun(alloc: Global, course: &Course, theory: &Theory) -> Result<Asked, SolveError>
    ensures asked { IfOk result (IsAsked course.now theory.now) }
    ensures err { IsErrOf result SolveError.TooLarge → ⊥ }
{
    let mut asked = Asked::new(alloc, course.derivation.rec().table())?;
    asked.shared = common(theory.classes().hypotheses(), course.search.trail());
    Ok(asked)
}

// How many first literals the two have in common.
fn common(told: &[Lit], trail: &[Lit]) -> usize
    ensures common { HaveInCommon result told.now trail.now }
{
    let mut count = 0;
    'literals: while count < told.len() {
        if !stands_at(trail, count, told[count]) {
            return count;
        }
        count += 1;
    }
    count
}

// Whether the literal stands at this index.
fn stands_at(trail: &[Lit], index: usize, l: Lit) -> bool
    ensures value { IsTrue result → slice_get trail.now index ≡ Some l }
{
    match trail.get(index) {
        Some(other) => *other == l,
        None => false,
    }
}
