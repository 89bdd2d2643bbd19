//! Lines that are added before the first decision.
ghost use Rattle.std.specs.Prelude.{◌≡◌, true, ◌+◌, ◌++◌, ◌∷◌, [], length, OnOk, IsErrOf};
ghost use Rattle.ct_log.specs.Acceptance.{IsAccepted, clauses_of};
ghost use Rattle.ct_engine.specs.Moves.{IsTaught};
ghost use Rattle.ct_engine.specs.Progress.{IsUnderWay, IsOfOneTask};

use crate::course::{Course, next_number, note};
use crate::error::SolveError;
use crate::verdict::Move;
use ct_log::Line;

/// Adds a line of the theory or a learned one, which is accepted after those that stand, and its clause, which need not be
/// false, while no decision stands.
pub(crate) fn add_taught(course: &mut Course, line: Line) -> Result<(), SolveError>
    requires under_way { IsUnderWay course.old }
    requires start { course.old.search.decided ≡ [] }
    requires taught { IsTaught line.step }
    requires accepted { IsAccepted course.old.derivation.declarations course.old.derivation.rec.terms course.old.derivation.asserts (clauses_of course.old.derivation.rec.lines) line }
    ensures under_way { OnOk result (IsUnderWay course.new) }
    ensures same { OnOk result (IsOfOneTask course.old course.new) }
    ensures line { OnOk result (course.new.derivation.rec.lines ≡ course.old.derivation.rec.lines ++ line ∷ []) }
    ensures added { OnOk result (course.old.recorded ≡ true → course.new.moves.items ≡ course.old.moves.items ++ Move.Add (length course.old.derivation.rec.lines + 1) ∷ []) }
    ensures trail { OnOk result (course.new.search.trail ≡ course.old.search.trail) }
    ensures counted { OnOk result (course.new.search.count ≡ course.old.search.count) }
    ensures start { OnOk result (course.new.search.decided ≡ []) }
    ensures err { IsErrOf result SolveError.TooLarge → ⊥ }
{
    let number = next_number(&course.derivation);
    course.search.add_clause(line.clause.as_slice(), number)?;
    course.derivation.push(line)?;
    note(course.recorded, &mut course.moves, Move::Add(number))?;
    Ok(())
}
