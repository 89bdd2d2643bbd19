//! Restarts a search over the lines that the derivation has.
ghost use Rattle.std.specs.Prelude.{◌≡◌, ℕ, ◌+◌, ◌<◌, ◌≤◌, true, [], ◌∷◌, ◌++◌, length, take, IfOk, OnOk, IsErrOf};
ghost use Rattle.ct_engine.specs.Progress.{IsUnderWay, IsOfOneTask, IsOfOneClosure, IsSearchOver, AreUpTo, beginning_of};
ghost use Rattle.ct_engine.specs.Keeping.{AddsFirst, HasFirst};

use crate::course::{Course, line_count, note};
use crate::error::SolveError;
use crate::initial::add_lines;
use crate::verdict::Move;
use ct_log::{Derivation, Line};
use ct_sat::Search;
use std::alloc::Global;

// How many literals the clauses of taught lines have at most that a recorded search begins with.
const SHORT: usize = 30;

/// Begins a search of at most so many decisions over the initial lines.
pub(crate) fn begin_again(
    alloc: Global,
    course: &mut Course,
    budget: u64,
    recorded: bool,
) -> Result<(), SolveError>
    requires under_way { IsUnderWay course.old }
    ensures under_way { OnOk result (IsUnderWay course.new) }
    ensures same { OnOk result (IsOfOneClosure course.old course.new) }
    ensures recorded { OnOk result (course.new.recorded ≡ recorded) }
    ensures budget { OnOk result (course.new.search.budget ≡ budget) }
    ensures start { OnOk result (course.new.search.decided ≡ []) }
    ensures moves { OnOk result (course.new.moves.items ≡ []) }
    ensures derivation { OnOk result (course.new.derivation ≡ course.old.derivation) }
    ensures up_to { OnOk result (AreUpTo course.new.search.clauses course.new.initial) }
    ensures err { IsErrOf result SolveError.TooLarge → ⊥ }
{
    let search = search_over_first(alloc, &course.derivation, course.initial, budget)?;
    let moves = Vec::new(alloc);
    course.search = search;
    course.moves = moves;
    course.recorded = recorded;
    Ok(())
}

// A search over the clauses of the first so many lines.
fn search_over_first(
    alloc: Global,
    derivation: &Derivation,
    count: usize,
    budget: u64,
) -> Result<Search, SolveError>
    requires fits { count ≤ length derivation.now.rec.lines }
    ensures search { IfOk result (IsSearchOver (beginning_of derivation.now count) budget) }
    ensures err { IsErrOf result SolveError.TooLarge → ⊥ }
{
    let rec = derivation.rec();
    let mut search = Search::new(alloc, rec.table(), budget)?;
    add_lines(&mut search, first_lines(rec.lines(), count))?;
    Ok(search)
}

// The first so many lines.
fn first_lines(lines: &[Line], count: usize) -> &[Line]
    requires fits { count ≤ length lines.now }
    ensures value { result.now ≡ take count lines.now }
{
    &lines[..count]
}

/// Adds to such a search, where its moves are recorded, the clauses of the store's lines.
pub(crate) fn add_first(course: &mut Course) -> Result<(), SolveError>
    requires under_way { IsUnderWay course.old }
    requires start { course.old.search.decided ≡ [] }
    requires recorded { course.old.recorded ≡ true }
    requires moves { course.old.moves.items ≡ [] }
    requires stand { HasFirst course.old }
    requires up_to { AreUpTo course.old.search.clauses course.old.initial }
    ensures under_way { OnOk result (IsUnderWay course.new) }
    ensures same { OnOk result (IsOfOneTask course.old course.new) }
    ensures start { OnOk result (course.new.search.decided ≡ []) }
    ensures adds { OnOk result (AddsFirst course.new) }
    ensures up_to { OnOk result (AreUpTo course.new.search.clauses (course.new.initial + course.new.kept)) }
    ensures err { IsErrOf result SolveError.TooLarge → ⊥ }
{
    let before = course.initial as u64;
    let _lines = line_count(&course.derivation);
    'lines: for index in 0..course.kept as u64 {
        add_line(course, before + index + 1)?;
    }
    Ok(())
}

/// Adds to a search without decisions the clauses of the taught lines with these numbers, as far as they rise and come after the
/// first lines, so many.
pub(crate) fn add_again(
    course: &mut Course,
    first: usize,
    numbers: &[u64],
) -> Result<(), SolveError>
    requires under_way { IsUnderWay course.old }
    requires start { course.old.search.decided ≡ [] }
    requires past { course.old.initial ≤ first }
    requires up_to { AreUpTo course.old.search.clauses first }
    ensures under_way { OnOk result (IsUnderWay course.new) }
    ensures same { OnOk result (IsOfOneTask course.old course.new) }
    ensures err { IsErrOf result SolveError.TooLarge → ⊥ }
{
    let mut last = first as u64;
    'numbers: for number in numbers {
        last = add_later(course, last, *number)?;
    }
    Ok(())
}

// Adds the clause of the taught line with this number, where it comes after the last one. Gives the number of the last one then.
#[tactic(auto, using(crate::proofs::TaskLemmas::own_task))]
fn add_later(course: &mut Course, last: u64, number: u64) -> Result<u64, SolveError>
    requires under_way { IsUnderWay course.old }
    requires start { course.old.search.decided ≡ [] }
    requires past { course.old.initial ≤ last }
    requires up_to { AreUpTo course.old.search.clauses last }
    ensures under_way { OnOk result (IsUnderWay course.new) }
    ensures same { OnOk result (IsOfOneTask course.old course.new) }
    ensures start { OnOk result (course.new.search.decided ≡ []) }
    ensures past { IfOk result (λ r. course.new.initial ≤ r) }
    ensures up_to { IfOk result (λ r. AreUpTo course.new.search.clauses r) }
    ensures err { IsErrOf result SolveError.TooLarge → ⊥ }
{
    if number <= last {
        return Ok(last);
    }
    if number > course.derivation.rec().lines().len() as u64 {
        return Ok(last);
    }
    add_line(course, number)?;
    Ok(number)
}

// Adds the clause of the taught line with this number, while no decision stands.
fn add_line(course: &mut Course, number: u64) -> Result<(), SolveError>
    requires under_way { IsUnderWay course.old }
    requires start { course.old.search.decided ≡ [] }
    requires taught { course.old.initial < number }
    requires stands { number ≤ length course.old.derivation.rec.lines }
    requires before { (last : ℕ) × (last < number) × AreUpTo course.old.search.clauses last }
    ensures under_way { OnOk result (IsUnderWay course.new) }
    ensures same { OnOk result (IsOfOneTask course.old course.new) }
    ensures start { OnOk result (course.new.search.decided ≡ []) }
    ensures added { OnOk result (course.old.recorded ≡ true → course.new.moves.items ≡ course.old.moves.items ++ Move.Add number ∷ []) }
    ensures initial { OnOk result (course.new.initial ≡ course.old.initial) }
    ensures derivation { OnOk result (course.new.derivation ≡ course.old.derivation) }
    ensures up_to { OnOk result (AreUpTo course.new.search.clauses number) }
    ensures err { IsErrOf result SolveError.TooLarge → ⊥ }
{
    let lines = course.derivation.rec().lines();
    let index = (number - 1) as usize;
    course
        .search
        .add_clause(lines[index].clause.as_slice(), number)?;
    note(course.recorded, &mut course.moves, Move::Add(number))?;
    Ok(())
}

/// The numbers of the taught lines with short clauses.
pub(crate) fn short_lines(alloc: Global, course: &Course) -> Result<Vec<u64>, SolveError>
    ensures err { IsErrOf result SolveError.TooLarge → ⊥ }
{
    let lines = course.derivation.rec().lines();
    let mut numbers = Vec::new(alloc);
    for index in 0..lines.len() {
        if index >= course.initial && lines[index].clause.as_slice().len() <= SHORT {
            numbers.push(index as u64 + 1)?;
        }
    }
    Ok(numbers)
}
