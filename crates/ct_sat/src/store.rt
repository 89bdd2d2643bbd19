//! Adds a clause to a search, with its watches.
ghost use Rattle.std.specs.Prelude.{◌≡◌, ◌+◌, ◌≤◌, [], ◌∷◌, ◌++◌, vec_len, vec_capacity, OnOk};
ghost use Rattle.ct_sat.specs.Watching.{IsNoted};

use crate::choose::is_one;
use crate::clause::StepClause;
use crate::watch::Watch;
use crate::watches::two_of;
use ct_terms::Lit;
use std::alloc::AllocError;

/// Makes room for one more clause.
pub(crate) fn make_room(
    clauses: &mut Vec<StepClause>,
    of_clauses: &mut Vec<Watch>,
    short: &mut Vec<usize>,
) -> Result<(), AllocError>
    ensures clauses { clauses.new.items ≡ clauses.old.items }
    ensures of_clauses { of_clauses.new.items ≡ of_clauses.old.items }
    ensures short { short.new.items ≡ short.old.items }
    ensures more_clauses { OnOk result (vec_len clauses.new + 1 ≤ vec_capacity clauses.new) }
    ensures more_of_clauses { OnOk result (vec_len of_clauses.new + 1 ≤ vec_capacity of_clauses.new) }
    ensures more_short { OnOk result (vec_len short.new + 1 ≤ vec_capacity short.new) }
{
    clauses.reserve(1)?;
    of_clauses.reserve(1)?;
    short.reserve(1)?;
    Ok(())
}

/// Puts one more clause at the end, where there is room. It is in no list yet.
pub(crate) fn put(
    clauses: &mut Vec<StepClause>,
    of_clauses: &mut Vec<Watch>,
    short: &mut Vec<usize>,
    clause: StepClause,
)
    requires more_clauses { vec_len clauses.old + 1 ≤ vec_capacity clauses.old }
    requires more_of_clauses { vec_len of_clauses.old + 1 ≤ vec_capacity of_clauses.old }
    requires more_short { vec_len short.old + 1 ≤ vec_capacity short.old }
    ensures clauses { clauses.new.items ≡ clauses.old.items ++ clause ∷ [] }
    ensures noted { IsNoted of_clauses.old.items short.old.items clause.literals of_clauses.new.items short.new.items }
{
    note(of_clauses, short, clause.literals.as_slice());
    clauses.push_reserved(clause);
}

// Gives a new clause the literals that it watches first, and lists it where it has no two different ones.
fn note(of_clauses: &mut Vec<Watch>, short: &mut Vec<usize>, clause: &[Lit])
    requires more_of_clauses { vec_len of_clauses.old + 1 ≤ vec_capacity of_clauses.old }
    requires more_short { vec_len short.old + 1 ≤ vec_capacity short.old }
    ensures noted { IsNoted of_clauses.old.items short.old.items clause.now of_clauses.new.items short.new.items }
{
    let index = of_clauses.len();
    let (one, other) = two_of(clause);
    of_clauses.push_reserved(Watch {
        one,
        other,
        after_one: 0,
        after_other: 0,
    });
    if !is_one(one, other) {
        return;
    }
    short.push_reserved(index);
}
