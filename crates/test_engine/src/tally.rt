//! Records of long searches, as counts.

use ct_cases::CaseError;
use ct_engine::{Move, Spent};
use std::alloc::Global;

/// How many moves of each kind a record has.
#[derive(Clone, Copy)]
struct Tally {
    // Clauses that are added before the first decision.
    first: u64,
    // Those that are added later.
    added: u64,
    decided: u64,
    learned: u64,
}

/// Shows how many clauses a search adds before its first decision and after it, how many decisions it makes, and how many
/// clauses it learns.
pub fn show_tally(alloc: Global, spent: &Spent, out: &mut String) -> Result<(), CaseError> {
    let tally = tally_of(spent.moves.as_slice());
    let text = format!(in alloc;
        " first {} decided {} added {} learned {}",
        tally.first, tally.decided, tally.added, tally.learned
    )?;
    Ok(out.push_str(text.as_str())?)
}

/// Counts moves.
fn tally_of(moves: &[Move]) -> Tally {
    let mut tally = Tally {
        first: 0,
        added: 0,
        decided: 0,
        learned: 0,
    };
    for step in moves {
        count(&mut tally, *step);
    }
    tally
}

/// Counts one move more.
fn count(tally: &mut Tally, step: Move) {
    match step {
        Move::Decide(_) => tally.decided = tally.decided.saturating_add(1),
        Move::Learn(_, _) => tally.learned = tally.learned.saturating_add(1),
        Move::Add(_) => {
            if tally.decided == 0 {
                tally.first = tally.first.saturating_add(1);
            } else {
                tally.added = tally.added.saturating_add(1);
            }
        }
    }
}
