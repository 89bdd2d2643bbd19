//! The clauses that a search begins with.
ghost use Rattle.std.specs.Prelude.{◌≡◌, [], All, OnOk, IsErrOf};
ghost use Rattle.ct_log.specs.Acceptance.{clauses_of};
ghost use Rattle.ct_sat.specs.State.{AreOver, clauses_of as clauses_in};
ghost use Rattle.ct_sat.specs.Learning.{StandAtSteps};

use crate::error::SolveError;
use ct_log::Line;
use ct_sat::Search;

/// Adds the clauses of these lines to a search that has none, each under the number of its line.
pub(crate) fn add_lines(search: &mut Search, lines: &[Line]) -> Result<(), SolveError>
    requires begun { search.old.clauses ≡ [] }
    requires over { All (λ line. AreOver search.old.variables line.clause) lines.now }
    ensures clauses { OnOk result (clauses_in search.new.clauses ≡ clauses_of lines.now) }
    ensures numbered { OnOk result (StandAtSteps search.new.clauses (clauses_of lines.now)) }
    ensures same { OnOk result (search.new ≡ record search.old { clauses = search.new.clauses; propagated = search.new.propagated }) }
    ensures err { IsErrOf result SolveError.TooLarge → ⊥ }
{
    for index in 0..lines.len() {
        search.add_clause(lines[index].clause.as_slice(), index as u64 + 1)?;
    }
    Ok(())
}
