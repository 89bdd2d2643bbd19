//! The searches of one check, one after the other, over one derivation. The first is recorded. If its decisions are spent and
//! more are allowed, a guided one follows, whose moves are not recorded. If that one spends its decisions too, a second
//! recorded one follows, which begins with the short clauses that the others learned. Neither a model nor a derivation needs a
//! record: the order of decisions is free until a record is owed.
ghost use Rattle.std.specs.Prelude.{◌≡◌, true, IfOk, OnOk, IsErrOf, MatchOption};
ghost use Rattle.ct_engine.specs.Progress.{IsUnderWay, IsTheoryOf, IsEnded, IsOnRecord, IsOfOneClosure};
ghost use Rattle.ct_engine.specs.Keeping.{AddsFirst, HasFirst};

use crate::again::{add_again, add_first, begin_again, short_lines};
use crate::course::{Course, first_count};
use crate::error::SolveError;
use crate::guide::Guide;
use crate::outcome::Ending;
use crate::settle::run;
use ct_theory::Theory;
use std::alloc::Global;

// How many decisions the first recorded search may make.
const FIRST_DECISIONS: u64 = 10_000;

/// How many decisions of so many the first search may make.
pub(crate) fn first_budget(budget: u64) -> u64 {
    if budget < FIRST_DECISIONS {
        budget
    } else {
        FIRST_DECISIONS
    }
}

/// Searches until the search ends, or the search after it, with at most so many decisions each.
pub(crate) fn search(
    alloc: Global,
    budget: u64,
    course: &mut Course,
    theory: &mut Theory,
) -> Result<Ending, SolveError>
    requires under_way { IsUnderWay course.old }
    requires recorded { course.old.recorded ≡ true }
    requires theory { IsTheoryOf course.old theory.old }
    requires stand { HasFirst course.old }
    ensures same { OnOk result (IsOfOneClosure course.old course.new) }
    ensures ended { IfOk result (IsEnded course.new theory.new) }
    ensures spent { IfOk result (λ r. r ≡ Ending.Spent → IsOnRecord budget course.new) }
    ensures adds { AddsFirst course.old → IfOk result (λ r. r ≡ Ending.Spent → AddsFirst course.new) }
    ensures err { IsErrOf result SolveError.TooLarge → ⊥ }
{
    let first = run(alloc, course, theory)?;
    let ending = go_on(alloc, budget, course, theory, first)?;
    Ok(ending)
}

// Goes on where the first search ended since its decisions were spent, and more are allowed.
fn go_on(
    alloc: Global,
    budget: u64,
    course: &mut Course,
    theory: &mut Theory,
    ending: Ending,
) -> Result<Ending, SolveError>
    requires theory { IsTheoryOf course.old theory.old }
    requires ended { IsEnded course.old theory.old ending }
    requires recorded { course.old.recorded ≡ true }
    requires stand { HasFirst course.old }
    ensures same { OnOk result (IsOfOneClosure course.old course.new) }
    ensures ended { IfOk result (IsEnded course.new theory.new) }
    ensures spent { IfOk result (λ r. r ≡ Ending.Spent → IsOnRecord budget course.new) }
    ensures adds { AddsFirst course.old → IfOk result (λ r. r ≡ Ending.Spent → AddsFirst course.new) }
    ensures err { IsErrOf result SolveError.TooLarge → ⊥ }
{
    match ending {
        Ending::Spent => {
            if course.search.decisions() == budget {
                return Ok(Ending::Spent);
            }
            let found = pursue(alloc, budget, course, theory)?;
            match found {
                Some(ending) => Ok(ending),
                None => record_anew(alloc, budget, course, theory),
            }
        }
        Ending::Refuted => Ok(Ending::Refuted),
        Ending::Saturated(order) => Ok(Ending::Saturated(order)),
    }
}

// A guided search of at most so many decisions. None where they are spent.
fn pursue(
    alloc: Global,
    budget: u64,
    course: &mut Course,
    theory: &mut Theory,
) -> Result<Option<Ending>, SolveError>
    requires under_way { IsUnderWay course.old }
    requires theory { IsTheoryOf course.old theory.old }
    ensures same { OnOk result (IsOfOneClosure course.old course.new) }
    ensures theory { OnOk result (IsTheoryOf course.new theory.new) }
    ensures ended { IfOk result (λ r. MatchOption r (IsUnderWay course.new) (λ ending. IsEnded course.new theory.new ending × (ending ≡ Ending.Spent → ⊥))) }
    ensures err { IsErrOf result SolveError.TooLarge → ⊥ }
{
    guide_course(alloc, course)?;
    let mut left = budget;
    'rounds: for _round in 0..budget {
        let found = pursue_for(alloc, left, course, theory)?;
        match found {
            Some(ending) => return Ok(Some(ending)),
            None => {}
        }
        left = left.saturating_sub(course.search.decisions());
        if left == 0 {
            return Ok(None);
        }
    }
    Ok(None)
}

// The same for a round, after which the guide forgets clauses.
fn pursue_for(
    alloc: Global,
    left: u64,
    course: &mut Course,
    theory: &mut Theory,
) -> Result<Option<Ending>, SolveError>
    requires under_way { IsUnderWay course.old }
    requires theory { IsTheoryOf course.old theory.old }
    ensures same { OnOk result (IsOfOneClosure course.old course.new) }
    ensures theory { OnOk result (IsTheoryOf course.new theory.new) }
    ensures ended { IfOk result (λ r. MatchOption r (IsUnderWay course.new) (λ ending. IsEnded course.new theory.new ending × (ending ≡ Ending.Spent → ⊥))) }
    ensures err { IsErrOf result SolveError.TooLarge → ⊥ }
{
    begin_round(alloc, left, course)?;
    let ending = run(alloc, course, theory)?;
    match ending {
        Ending::Spent => Ok(None),
        Ending::Refuted => Ok(Some(Ending::Refuted)),
        Ending::Saturated(order) => Ok(Some(Ending::Saturated(order))),
    }
}

// Gives the search a guide over its variables and the lines that were taught.
fn guide_course(alloc: Global, course: &mut Course) -> Result<(), SolveError>
    ensures only_guide { OnOk result (course.new ≡ record course.old { guide = course.new.guide }) }
    ensures err { IsErrOf result SolveError.TooLarge → ⊥ }
{
    let rec = course.derivation.rec();
    let mut guide = Guide::new(alloc, rec.table().len() as usize, course.search.variables())?;
    guide.take_lines(rec.lines(), course.initial)?;
    course.guide = Box::new(alloc, guide)?;
    Ok(())
}

// Lets the guide go.
fn dismiss_guide(alloc: Global, course: &mut Course) -> Result<(), SolveError>
    ensures only_guide { OnOk result (course.new ≡ record course.old { guide = course.new.guide }) }
    ensures err { IsErrOf result SolveError.TooLarge → ⊥ }
{
    course.guide = Box::new(alloc, Guide::empty(alloc)?)?;
    Ok(())
}

// Begins a round of a guided search that may make so many decisions more, over the initial lines and those that the guide keeps.
fn begin_round(alloc: Global, left: u64, course: &mut Course) -> Result<(), SolveError>
    requires under_way { IsUnderWay course.old }
    ensures under_way { OnOk result (IsUnderWay course.new) }
    ensures same { OnOk result (IsOfOneClosure course.old course.new) }
    ensures err { IsErrOf result SolveError.TooLarge → ⊥ }
{
    let length = course.guide.round(left);
    let numbers = course.guide.keep_lines(alloc)?;
    begin_again(alloc, course, length, false)?;
    let initial = course.initial;
    add_again(course, initial, numbers.as_slice())?;
    drop(numbers);
    Ok(())
}

// A recorded search of at most so many decisions, which begins with the store's clauses and the short ones that were taught.
fn record_anew(
    alloc: Global,
    budget: u64,
    course: &mut Course,
    theory: &mut Theory,
) -> Result<Ending, SolveError>
    requires under_way { IsUnderWay course.old }
    requires theory { IsTheoryOf course.old theory.old }
    requires stand { HasFirst course.old }
    ensures same { OnOk result (IsOfOneClosure course.old course.new) }
    ensures ended { IfOk result (IsEnded course.new theory.new) }
    ensures on_record { OnOk result (IsOnRecord budget course.new) }
    ensures adds { OnOk result (AddsFirst course.new) }
    ensures err { IsErrOf result SolveError.TooLarge → ⊥ }
{
    dismiss_guide(alloc, course)?;
    let numbers = short_lines(alloc, course)?;
    begin_again(alloc, course, budget, true)?;
    add_first(course)?;
    let first = first_count(&*course);
    add_again(course, first, numbers.as_slice())?;
    drop(numbers);
    let ending = run(alloc, course, theory)?;
    Ok(ending)
}
