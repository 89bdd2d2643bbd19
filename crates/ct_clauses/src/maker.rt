//! The clauses that a search begins with, as the first lines of its derivation.
ghost use Rattle.std.specs.Prelude.{◌≡◌, [], All, OnOk, IfOk, IfErr};
ghost use Rattle.ct_terms.specs.Terms.{IsBoolean, AreSorted};
ghost use Rattle.ct_closure.specs.ClosedTable.{IsClosedTable, AreRising};
ghost use Rattle.ct_clauses.specs.Initial.{AreSplitTerms, AreInitialLines, initial_steps, steps_of};
ghost use Rattle.ct_clauses.specs.Growth.{AreAlwaysAccepted, with_lines};

use crate::exhausts::push_exhausts;
use crate::gates::push_gates;
use crate::inputs::push_inputs;
use ct_closure::Closure;
use ct_log::{Derivation, Line, LogError};
use ct_sorts::Signature;
use ct_terms::{TermId, TermTable};
use std::alloc::Global;

/// Writes the initial lines of a derivation that has none: one input for each different assertion, in the order of first
/// places; for each term of the closed table in order its gates (the encoding of Tseitin 1968), and those of `true` and
/// `false` before them; and for each term that is split that one of the constructors of its sort builds it. The time is linear in the
/// table and its arguments.
///
/// Its only error is out of memory, after which the derivation holds some of the lines and is of no further use.
pub fn clauses(
    alloc: Global,
    sig: &Signature,
    closure: &Closure,
    derivation: &mut Derivation,
) -> Result<(), LogError>
    requires signature { derivation.old.declarations ≡ sig.now }
    requires begun { derivation.old.rec.lines ≡ [] }
    requires closed { IsClosedTable sig.now derivation.old.rec.terms }
    requires split { AreSplitTerms sig.now derivation.old.rec.terms closure.now.split }
    requires rising { AreRising closure.now.split }

    // The lines are all input, gate and exhaustion lines, each once, and stand in this order.
    ensures lines { OnOk result (AreInitialLines sig.now derivation.old.rec.terms derivation.old.asserts derivation.new.rec.lines) }
    ensures order { OnOk result (steps_of derivation.new.rec.lines ≡ initial_steps derivation.old.rec.terms derivation.old.asserts closure.now.split) }

    // Nothing else of the derivation changes.
    ensures others { OnOk result (derivation.new ≡ record derivation.old { rec = record derivation.old.rec { lines = derivation.new.rec.lines } }) }
    ensures err { IfErr result (λ e. e ≡ LogError.NoMemory) }
{
    let table = derivation.rec().table();
    prove!(table.len() >= 2);
    let lines = make_lines(alloc, sig, table, derivation.asserts(), closure.split())?;
    add_lines(derivation, lines)?;
    let _rec = derivation.rec();
    Ok(())
}

// The initial lines over this table.
fn make_lines(
    alloc: Global,
    sig: &Signature,
    table: &TermTable,
    asserts: &[TermId],
    split: &[TermId],
) -> Result<Vec<Line>, LogError>
    requires sorted { AreSorted sig.now table.now }
    requires booleans { All (IsBoolean table.now) asserts.now }
    requires closed { IsClosedTable sig.now table.now }
    requires split { AreSplitTerms sig.now table.now split.now }
    ensures steps { IfOk result (λ lines. steps_of lines.items ≡ initial_steps table.now asserts.now split.now) }
    ensures accepted { IfOk result (λ lines. AreAlwaysAccepted sig.now table.now asserts.now lines.items) }
    ensures err { IfErr result (λ e. e ≡ LogError.NoMemory) }
{
    let mut lines = Vec::new(alloc);
    push_inputs(alloc, table, asserts, &mut lines)?;
    push_gates(alloc, sig, table, &mut lines)?;
    push_exhausts(alloc, sig, table, split, &mut lines)?;
    Ok(lines)
}

// Adds the lines to the derivation, in their order.
fn add_lines(derivation: &mut Derivation, lines: Vec<Line>) -> Result<(), LogError>
    requires accepted { AreAlwaysAccepted derivation.old.declarations derivation.old.rec.terms derivation.old.asserts lines.items }
    ensures added { OnOk result (derivation.new ≡ with_lines derivation.old lines.items) }
    ensures err { IfErr result (λ e. e ≡ LogError.NoMemory) }
{
    for line in lines {
        derivation.push(line)?;
    }
    Ok(())
}
