//! Theory lemmas across checks: which ones a search begins with, and which ones it leaves.
ghost use Rattle.std.specs.Prelude.{◌≡◌, ◌≤◌, ◌++◌, true, [], List, All, length, drop, OnOk, OnErr, IsErrOf};
ghost use Rattle.ct_card.specs.Sizes.{AreSizes};
ghost use Rattle.ct_terms.specs.Clause.{Clause};
ghost use Rattle.ct_terms.specs.declared.ids.TermId.{TermId};
ghost use Rattle.ct_terms.specs.Terms.{Terms, AreSorted};
ghost use Rattle.ct_log.specs.Acceptance.{IsAccepted};
ghost use Rattle.ct_kept.specs.Kept.{Takes};
ghost use Rattle.ct_kept.specs.Lemmas.{theory_lemmas};
ghost use Rattle.ct_engine.specs.Moves.{IsTaught};
ghost use Rattle.ct_engine.specs.Opening.{IsBeforeDecisions};
ghost use Rattle.ct_engine.specs.Progress.{IsUnderWay, IsOfOneTask, IsTaskOf, IsAtStart};
ghost use Rattle.ct_engine.specs.Keeping.{HasKept, IsCourseWith, IsVerdictWith, AddsFirst, HasFirst, adds_after};

use crate::course::{Course, line_count};
use crate::error::SolveError;
use crate::taught::add_taught;
use crate::verdict::Verdict;
use ct_card::Sizes;
use ct_kept::{Kept, moved_lines};
use ct_log::{Derivation, Line};
use ct_sorts::Signature;
use std::alloc::Global;

/// Adds a line for each clause of the store that may be used, in order, to a search that has made no move.
pub(crate) fn add_kept(
    alloc: Global,
    sig: &Signature,
    sizes: &Sizes,
    course: &mut Course,
    kept: &Kept,
) -> Result<(), SolveError>
    requires sizes { AreSizes sig.now sizes.now }
    requires declarations { course.old.derivation.declarations ≡ sig.now }
    requires under_way { IsUnderWay course.old }
    requires recorded { course.old.recorded ≡ true }
    requires start { IsAtStart sig.now course.old }
    ensures before { OnOk result (IsBeforeDecisions sig.now sizes.now course.new) }
    ensures recorded { OnOk result (course.new.recorded ≡ true) }
    ensures task { (table : Terms) (asserts : List TermId) → IsTaskOf sig.now table asserts course.old → OnOk result (IsTaskOf sig.now table asserts course.new) }
    ensures begun { OnOk result (IsCourseWith sig.now kept.now course.new) }
    ensures adds { OnOk result (AddsFirst course.new) }
    ensures stand { OnOk result (HasFirst course.new) }
    ensures err { IsErrOf result SolveError.TooLarge → ⊥ }
{
    let terms = course.derivation.rec().table();
    let asserts = course.derivation.asserts();
    let lines = moved_lines(alloc, sig, sizes, terms, asserts, kept)?;
    add_lines(course, lines)?;
    course.kept = line_count(&course.derivation) - course.initial;
    Ok(())
}

// Adds lines that the theory gave.
fn add_lines(course: &mut Course, lines: Vec<Line>) -> Result<(), SolveError>
    requires under_way { IsUnderWay course.old }
    requires start { course.old.search.decided ≡ [] }
    requires recorded { course.old.recorded ≡ true }
    requires taught { All (λ line. IsTaught line.step) lines.items }
    requires accepted { All (λ line. (earlier : List Clause) → IsAccepted course.old.derivation.declarations course.old.derivation.rec.terms course.old.derivation.asserts earlier line) lines.items }
    ensures under_way { OnOk result (IsUnderWay course.new) }
    ensures same { OnOk result (IsOfOneTask course.old course.new) }
    ensures start { OnOk result (course.new.search.decided ≡ []) }
    ensures lines { OnOk result (course.new.derivation.rec.lines ≡ course.old.derivation.rec.lines ++ lines.items) }
    ensures moves { OnOk result (course.new.moves.items ≡ course.old.moves.items ++ adds_after (length course.old.derivation.rec.lines) (length lines.items)) }
    ensures err { IsErrOf result SolveError.TooLarge → ⊥ }
{
    'lines: for line in lines {
        add_taught(course, line)?;
    }
    Ok(())
}

/// Leaves the clauses that the theory gave after the first lines, so many, of a verdict's derivation in the store. Where memory
/// runs out it is as it was.
pub(crate) fn keep_lines(
    alloc: Global,
    sig: &Signature,
    verdict: &Verdict,
    first: usize,
    kept: &mut Kept,
) -> Result<(), SolveError>
    requires begun { IsVerdictWith sig.now kept.old first verdict.now }
    requires sorted { AreSorted sig.now kept.old.table }
    ensures kept { OnOk result (HasKept sig.now kept.old kept.new verdict.now) }
    ensures sorted { AreSorted sig.now kept.new.table }
    ensures refused { OnErr result (kept.new ≡ kept.old) }
    ensures err { IsErrOf result SolveError.TooLarge → ⊥ }
{
    match verdict {
        Verdict::Sat(_) => Ok(()),
        Verdict::Unsat(derivation) => keep(alloc, sig, derivation, first, kept),
        Verdict::Unknown(spent) => keep(alloc, sig, &spent.derivation, first, kept),
    }
}

// Leaves the clauses that the theory gave after the first lines in the store.
fn keep(
    alloc: Global,
    sig: &Signature,
    derivation: &Derivation,
    first: usize,
    kept: &mut Kept,
) -> Result<(), SolveError>
    requires declarations { derivation.now.declarations ≡ sig.now }
    requires sorted { AreSorted sig.now kept.old.table }
    requires within { first ≤ length derivation.now.rec.lines }
    ensures taken { OnOk result (Takes kept.old derivation.now.rec.terms (theory_lemmas (drop first derivation.now.rec.lines)) kept.new) }
    ensures sorted { AreSorted sig.now kept.new.table }
    ensures refused { OnErr result (kept.new ≡ kept.old) }
    ensures err { IsErrOf result SolveError.TooLarge → ⊥ }
{
    kept.take(alloc, sig, derivation, first)?;
    Ok(())
}
