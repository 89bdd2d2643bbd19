//! Adds one line at the end.
ghost use Rattle.std.specs.Prelude.{◌≡◌, List, [], ◌∷◌, OnOk, IfErr};
ghost use Rattle.ct_sorts.specs.Declarations.{Declarations};
ghost use Rattle.ct_terms.specs.declared.ids.TermId.{TermId};
ghost use Rattle.ct_terms.specs.Terms.{Terms};
ghost use Rattle.ct_log.specs.declared.line.Step.{Step};
ghost use Rattle.ct_log.specs.Acceptance.{IsAccepted};
ghost use Rattle.ct_clauses.specs.Growth.{HaveGrown, HaveGates, IsGateLine};

use ct_log::{Gate, Line, LogError, Step};
use ct_sorts::Items;
use ct_terms::{Lit, TermId, TermTable};

/// Adds a line with this clause and step.
pub(crate) fn push_line(lines: &mut Vec<Line>, clause: Vec<Lit>, step: Step) -> Result<(), LogError>
    ensures grown { OnOk result ((d : Declarations) (terms : Terms) (asserts : List TermId)
        → IsAccepted d terms asserts [] (record { clause = clause.items; step = step })
        → HaveGrown d terms asserts lines.old.items lines.new.items (step ∷ [])) }
    ensures err { IfErr result (λ e. e ≡ LogError.NoMemory) }
{
    lines.push(Line {
        clause: Items::new(clause),
        step,
    })?;
    Ok(())
}

/// Adds the line of a gate of this term, with this place and clause.
pub(crate) fn push_gate(
    table: &TermTable,
    gate: Gate,
    t: TermId,
    place: u64,
    clause: Vec<Lit>,
    lines: &mut Vec<Line>,
) -> Result<(), LogError>
    requires gate { IsGateLine table.now gate t place clause.items }
    ensures grown { OnOk result (HaveGates table.now lines.old.items lines.new.items (Step.Gate gate t place ∷ [])) }
    ensures err { IfErr result (λ e. e ≡ LogError.NoMemory) }
{
    push_line(lines, clause, Step::Gate(gate, t, place))?;
    Ok(())
}
