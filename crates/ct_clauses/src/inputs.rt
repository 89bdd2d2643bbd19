//! The lines of the assertions.
ghost use Rattle.std.specs.Prelude.{◌≡◌, ◌<◌, ℕ, List, ◌∷◌, [], ◌++◌, length, map, All, Contains, OnOk, IfErr};
ghost use Rattle.ct_sorts.specs.Declarations.{Declarations};
ghost use Rattle.ct_terms.specs.declared.ids.TermId.{TermId};
ghost use Rattle.ct_terms.specs.Terms.{IsBoolean};
ghost use Rattle.ct_log.specs.declared.line.Line.{Line};
ghost use Rattle.ct_log.specs.declared.line.Step.{Step};
ghost use Rattle.ct_clauses.specs.Initial.{firsts};
ghost use Rattle.ct_clauses.specs.Growth.{HaveGrown, AreSeen};

use crate::growth::push_line;
use ct_log::{Line, LogError, Step};
use ct_terms::{TermId, TermTable};
use std::alloc::Global;

/// Adds an input line for each different assertion, in the order of first places.
pub(crate) fn push_inputs(
    alloc: Global,
    table: &TermTable,
    asserts: &[TermId],
    lines: &mut Vec<Line>,
) -> Result<(), LogError>
    requires booleans { All (IsBoolean table.now) asserts.now }
    ensures grown { OnOk result ((d : Declarations) → HaveGrown d table.now asserts.now lines.old.items lines.new.items (map Step.Input (firsts asserts.now))) }
    ensures err { IfErr result (λ e. e ≡ LogError.NoMemory) }
{
    let mut marks = vec![in alloc; false; table.len() as usize]?;
    for t in asserts {
        take_assertion(alloc, table, *t, &mut marks, lines)?;
    }
    Ok(())
}

// Adds the input line of an assertion, where no earlier one is the same term.
fn take_assertion(
    alloc: Global,
    table: &TermTable,
    t: TermId,
    marks: &mut Vec<bool>,
    lines: &mut Vec<Line>,
) -> Result<(), LogError>
    requires boolean { IsBoolean table.now t }
    requires long { length marks.old.items ≡ length table.now }
    ensures long { length marks.new.items ≡ length table.now }
    ensures seen { OnOk result ((earlier : List TermId) → AreSeen marks.old.items earlier → AreSeen marks.new.items (earlier ++ t ∷ [])) }
    ensures grown { OnOk result ((d : Declarations) (asserts earlier : List TermId) (start : List Line)
        → Contains asserts t
        → AreSeen marks.old.items earlier
        → HaveGrown d table.now asserts start lines.old.items (map Step.Input (firsts earlier))
        → HaveGrown d table.now asserts start lines.new.items (map Step.Input (firsts (earlier ++ t ∷ [])))) }
    ensures err { IfErr result (λ e. e ≡ LogError.NoMemory) }
{
    prove!(t.0 < table.len());
    if marks[t.0 as usize] {
        return Ok(());
    }
    push_input(alloc, table, t, lines)?;
    marks[t.0 as usize] = true;
    Ok(())
}

// Adds the input line of an assertion.
fn push_input(
    alloc: Global,
    table: &TermTable,
    t: TermId,
    lines: &mut Vec<Line>,
) -> Result<(), LogError>
    requires boolean { IsBoolean table.now t }
    ensures grown { OnOk result ((d : Declarations) (asserts : List TermId)
        → Contains asserts t
        → HaveGrown d table.now asserts lines.old.items lines.new.items (Step.Input t ∷ [])) }
    ensures err { IfErr result (λ e. e ≡ LogError.NoMemory) }
{
    let clause = vec![in alloc; table.lit(t)]?;
    push_line(lines, clause, Step::Input(t))?;
    Ok(())
}
