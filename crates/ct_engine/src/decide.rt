//! Decisions.
ghost use Rattle.std.specs.Prelude.{◌≡◌, false, IfOk, OnOk, IsErrOf};
ghost use Rattle.ct_sorts.specs.Grown.{Begins};
ghost use Rattle.ct_sat.specs.State.{IsQuiet};
ghost use Rattle.ct_engine.specs.Progress.{IsUnderWay, IsOfOneTask, IsDecided};

use crate::course::Course;
use crate::error::SolveError;
use crate::facts::units;
use crate::guided::candidate;
use crate::verdict::Move;
use ct_sat::Decision;

/// Decides the next variable, where one has no value and the budget is not spent: in a recorded search the lowest one, in a
/// guided one that which the guide names.
pub(crate) fn decide(course: &mut Course) -> Result<Decision, SolveError>
    requires under_way { IsUnderWay course.old }
    requires quiet { IsQuiet course.old.search }
    ensures same { OnOk result (IsOfOneTask course.old course.new) }
    ensures decided { IfOk result (IsDecided course.old.search course.new) }
    ensures trail { OnOk result (Begins course.old.search.trail course.new.search.trail) }
    ensures err { IsErrOf result SolveError.TooLarge → ⊥ }
{
    if course.recorded {
        decide_lowest(course)
    } else {
        decide_by_guide(course)
    }
}

// Decides the variable that the guide names, or else the lowest one.
fn decide_by_guide(course: &mut Course) -> Result<Decision, SolveError>
    requires under_way { IsUnderWay course.old }
    requires quiet { IsQuiet course.old.search }
    requires guided { course.old.recorded ≡ false }
    ensures same { OnOk result (IsOfOneTask course.old course.new) }
    ensures decided { IfOk result (IsDecided course.old.search course.new) }
    ensures trail { OnOk result (Begins course.old.search.trail course.new.search.trail) }
    ensures err { IsErrOf result SolveError.TooLarge → ⊥ }
{
    course.guide.follow(course.search.trail());
    course.guide.note_decision();
    if course.search.is_spent() {
        return decide_lowest(course);
    }
    match candidate(&course.search, &mut course.guide) {
        Some(literal) => {
            course.search.decide_on(literal);
            Ok(Decision::Took(literal))
        }
        None => decide_lowest(course),
    }
}

// Decides the lowest variable without a value.
fn decide_lowest(course: &mut Course) -> Result<Decision, SolveError>
    requires under_way { IsUnderWay course.old }
    requires quiet { IsQuiet course.old.search }
    ensures same { OnOk result (IsOfOneTask course.old course.new) }
    ensures decided { IfOk result (IsDecided course.old.search course.new) }
    ensures trail { OnOk result (Begins course.old.search.trail course.new.search.trail) }
    ensures err { IsErrOf result SolveError.TooLarge → ⊥ }
{
    units();
    let _trail = course.search.trail();
    match course.search.decide() {
        Decision::All => Ok(Decision::All),
        Decision::Spent => Ok(Decision::Spent),
        Decision::Took(literal) => {
            course.moves.push(Move::Decide(literal.term))?;
            Ok(Decision::Took(literal))
        }
    }
}
