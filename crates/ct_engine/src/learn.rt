//! Conflicts: learns from a clause that is false under the trail.
ghost use Rattle.std.specs.Prelude.{◌≡◌, ℕ, ◌+◌, length, OnOk, IfOk, IsErrOf};
ghost use Rattle.ct_sorts.specs.Grown.{Begins};
ghost use Rattle.ct_congr.specs.State.{State};
ghost use Rattle.ct_sat.specs.State.{IsConflict, IsQuiet, IsSound, SearchState};
ghost use Rattle.ct_sat.specs.Learning.{LearnsClause};
ghost use Rattle.ct_theory.specs.Entailment.{IsConflictOf};
ghost use Rattle.ct_engine.specs.Progress.{IsUnderWay, IsAccounted, IsOfOneTask, IsTurn};

use crate::course::{Course, next_number, note};
use crate::error::SolveError;
use crate::facts::units;
use crate::outcome::{Ending, Turn};
use crate::verdict::Move;
use ct_log::{Line, Step};
use ct_sat::{Learned, learned_clauses_follow};
use ct_sorts::Items;
use ct_terms::Lit;
use ct_theory::Conflict;
use std::alloc::Global;

/// Learns from the clause with this number, which is false in the trail: adds the clause that it teaches and takes back
/// decisions; or, where none stands, derives the empty clause.
pub(crate) fn learn(alloc: Global, course: &mut Course, conflict: u64) -> Result<Turn, SolveError>
    requires under_way { IsUnderWay course.old }
    requires conflict { IsConflict course.old.search conflict }
    ensures same { OnOk result (IsOfOneTask course.old course.new) }
    ensures learned { IfOk result (λ turn. (theory : State) → IsTurn course.old course.new theory turn) }
    ensures trail { OnOk result (Begins course.new.search.trail course.old.search.trail) }
    ensures err { IsErrOf result SolveError.TooLarge → ⊥ }
{
    learned_clauses_follow();
    course.guide.follow(course.search.trail());
    let _trail = course.search.trail();
    let number = next_number(&course.derivation);
    match course.search.learn(conflict, number)? {
        Learned::Clause { lits, hints, keep } => {
            record_learned(course, number, lits, hints, keep)?;
            Ok(Turn::Learned)
        }
        Learned::Empty { hints } => {
            let clause = Items::new(Vec::new(alloc));
            course.derivation.push(Line {
                clause,
                step: Step::Learn(hints),
            })?;
            Ok(Turn::Ended(Ending::Refuted))
        }
    }
}

// Writes down a clause that was learned under this number.
fn record_learned(
    course: &mut Course,
    number: u64,
    lits: Items<Lit>,
    hints: Items<u64>,
    keep: u32,
) -> Result<(), SolveError>
    requires number { number ≡ length course.old.derivation.rec.lines + 1 }
    requires learned { (before : SearchState) × IsAccounted course.old.recorded before course.old.derivation course.old.initial course.old.moves.items × IsSound before × (conflict : ℕ) × IsConflict before conflict × LearnsClause before course.old.search number lits hints keep }
    ensures under_way { OnOk result (IsUnderWay course.new) }
    ensures same { OnOk result (IsOfOneTask course.old course.new) }
    ensures search { OnOk result (course.new.search ≡ course.old.search) }
    ensures err { IsErrOf result SolveError.TooLarge → ⊥ }
{
    units();
    learned_clauses_follow();
    course.guide.note_learned(
        number,
        lits.as_slice(),
        hints.as_slice(),
        course.derivation.rec().lines(),
    )?;
    course.guide.go_back(keep, course.search.trail().len());
    course.derivation.push(Line {
        clause: lits,
        step: Step::Learn(hints),
    })?;
    note(
        course.recorded,
        &mut course.moves,
        Move::Learn(number, keep),
    )?;
    Ok(())
}

/// Adds the clause by which literals of the trail contradict each other. Gives its number.
pub(crate) fn add_conflict(course: &mut Course, conflict: Conflict) -> Result<u64, SolveError>
    requires under_way { IsUnderWay course.old }
    requires quiet { IsQuiet course.old.search }
    requires conflict { IsConflictOf course.old.derivation.declarations course.old.derivation.rec.terms course.old.search.trail conflict.clause conflict.steps conflict.close }
    ensures under_way { OnOk result (IsUnderWay course.new) }
    ensures same { OnOk result (IsOfOneTask course.old course.new) }
    ensures conflict { IfOk result (IsConflict course.new.search) }
    ensures counted { OnOk result (course.new.search.count ≡ course.old.search.count) }
    ensures decided { OnOk result (course.new.search.decided ≡ course.old.search.decided) }
    ensures trail { OnOk result (course.new.search.trail ≡ course.old.search.trail) }
    ensures err { IsErrOf result SolveError.TooLarge → ⊥ }
{
    units();
    let _trail = course.search.trail();
    let number = next_number(&course.derivation);
    course
        .search
        .add_clause(conflict.clause.as_slice(), number)?;
    course.derivation.push(Line {
        clause: conflict.clause,
        step: Step::Theory(conflict.steps, conflict.close),
    })?;
    note(course.recorded, &mut course.moves, Move::Add(number))?;
    Ok(number)
}
