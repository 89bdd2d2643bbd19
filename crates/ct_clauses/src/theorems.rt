//! The theorem about the initial lines of a derivation. It is the contract of a function that does nothing.
ghost use Rattle.std.specs.Prelude.{◌≡◌, List};
ghost use Rattle.ct_sorts.specs.Declarations.{Declarations};
ghost use Rattle.ct_terms.specs.declared.ids.TermId.{TermId};
ghost use Rattle.ct_terms.specs.Terms.{Terms, AreSingle};
ghost use Rattle.ct_closure.specs.ClosedTable.{AreRising};
ghost use Rattle.ct_log.specs.declared.line.Line.{Line};
ghost use Rattle.ct_log.specs.Acceptance.{AreAccepted};
ghost use Rattle.ct_clauses.specs.Initial.{AreSplitTerms, AreInitialLines, initial_steps, steps_of};

/// The theorem on initial lines, for searches over their clauses. It does nothing: a proof that needs it calls it.
///
/// Accepted lines whose steps are the initial steps are all input, gate and exhaustion lines, each once, and no others.
pub fn initial_lines()
    ensures all { (d : Declarations) (terms : Terms) (asserts split : List TermId) (lines : List Line)
        → AreSingle terms
        → AreSplitTerms d terms split
        → AreRising split
        → AreAccepted d terms asserts lines
        → steps_of lines ≡ initial_steps terms asserts split
        → AreInitialLines d terms asserts lines }
{}
