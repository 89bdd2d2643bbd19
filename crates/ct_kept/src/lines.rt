//! The lines of those lemmas of a store that may be used in a derivation.
ghost use Rattle.std.specs.Prelude.{◌≡◌, ◌↔◌, ◌≤◌, ◌*◌, [], ◌∷◌, ◌++◌, All, length, IfOk, OnOk, MatchOption};
ghost use Rattle.ct_log.specs.Recorded.{AreJudges};
ghost use Rattle.ct_restriction.specs.Renumbered.{IsEqualTerm, IsNumber};
ghost use Rattle.ct_log.specs.declared.line.Line.{Line};
ghost use Rattle.ct_terms.specs.declared.ids.TermId.{TermId};
ghost use Rattle.ct_terms.specs.Terms.{Terms};
ghost use Rattle.ct_kept.specs.Lemmas.{IsAcceptedLemma, theory_line};
ghost use Rattle.ct_kept.specs.Kept.{AreMovedLines, IsLineOf, IsUsable};

use crate::error::KeptError;
use crate::kept::Kept;
use crate::lemma::Lemma;
use crate::moving::moved;
use ct_card::Sizes;
use ct_log::{Line, Room, Step, is_accepted};
use ct_restriction::Renumbering;
use ct_sorts::Signature;
use ct_terms::{TermId, TermTable};
use std::alloc::{AllocError, Global};

/// A line for each clause of the store that is moved into the table and accepted there, in order. The time is linear in the
/// store and the lines.
pub fn moved_lines(
    alloc: Global,
    sig: &Signature,
    sizes: &Sizes,
    terms: &TermTable,
    asserts: &[TermId],
    kept: &Kept,
) -> Result<Vec<Line>, KeptError>
    requires judges { AreJudges sig.now sizes.now terms.now asserts.now }
    ensures moved { IfOk result (λ lines. AreMovedLines sig.now kept.now terms.now lines.items) }
{
    let lemmas = kept.lemmas();
    let mut lines = Vec::new(alloc);
    if lemmas.is_empty() {
        return Ok(lines);
    }
    let numbers = Renumbering::between(alloc, kept.table(), terms)?;
    let mut room = Room::with(alloc, terms.len(), longest(lemmas))?;
    for lemma in lemmas {
        let found = line_of(
            alloc, sig, sizes, terms, asserts, &numbers, lemma, &mut room,
        )?;
        push_found(&mut lines, found)?;
    }
    Ok(lines)
}

// Puts the line, where there is one, at the end.
fn push_found(lines: &mut Vec<Line>, found: Option<Line>) -> Result<(), AllocError>
    ensures pushed { OnOk result (MatchOption found (lines.new.items ≡ lines.old.items) (λ line. lines.new.items ≡ lines.old.items ++ line ∷ [])) }
{
    match found {
        None => Ok(()),
        Some(line) => {
            lines.push(line)?;
            Ok(())
        }
    }
}

// The line of a lemma, where it is moved and accepted.
fn line_of(
    alloc: Global,
    sig: &Signature,
    sizes: &Sizes,
    terms: &TermTable,
    asserts: &[TermId],
    numbers: &Renumbering,
    lemma: &Lemma,
    room: &mut Room,
) -> Result<Option<Line>, KeptError>
    requires judges { AreJudges sig.now sizes.now terms.now asserts.now }
    requires literals { length terms.now * 2 ≤ room.old.literals }
    requires fits { length lemma.now.steps ≤ room.old.equations }
    ensures line { (from : Terms) → ((t u : TermId) → IsEqualTerm from terms.now t u ↔ IsNumber numbers.now t u)
        → IfOk result (λ found. MatchOption found (IsUsable sig.now from terms.now lemma.now → ⊥) (IsLineOf sig.now from terms.now lemma.now)) }
    ensures room { room.new ≡ room.old }
{
    let _terms = terms.len();
    let clause = lemma.clause.as_slice();
    let steps = lemma.steps.as_slice();
    match moved(alloc, clause, steps, &lemma.close, numbers)? {
        None => Ok(None),
        Some(moved) => Ok(accepted_line(sig, sizes, terms, asserts, moved, room)),
    }
}

// The line of a lemma over the terms, where it is accepted.
fn accepted_line(
    sig: &Signature,
    sizes: &Sizes,
    terms: &TermTable,
    asserts: &[TermId],
    lemma: Lemma,
    room: &mut Room,
) -> Option<Line>
    requires judges { AreJudges sig.now sizes.now terms.now asserts.now }
    requires literals { length terms.now * 2 ≤ room.old.literals }
    requires fits { length lemma.steps ≤ room.old.equations }
    ensures line { MatchOption result (IsAcceptedLemma sig.now terms.now lemma → ⊥) (λ line. IsAcceptedLemma sig.now terms.now lemma × (line ≡ theory_line lemma)) }
    ensures room { room.new ≡ room.old }
{
    let line = Line {
        clause: lemma.clause,
        step: Step::Theory(lemma.steps, lemma.close),
    };
    if is_accepted(sig, sizes, terms, asserts, &[], &line, room) {
        return Some(line);
    }
    drop(line);
    None
}

// How many steps the longest of the lemmas has.
fn longest(lemmas: &[Lemma]) -> usize
    ensures each { All (λ lemma. length lemma.steps ≤ result) lemmas.now }
{
    let mut most = 0;
    for lemma in lemmas {
        most = larger(most, lemma.steps.len());
    }
    most
}

// The larger number.
fn larger(a: usize, b: usize) -> usize
    ensures left { a ≤ result }
    ensures right { b ≤ result }
{
    if a < b { b } else { a }
}
