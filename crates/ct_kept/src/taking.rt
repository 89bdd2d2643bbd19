//! What the store takes from a check.
ghost use Rattle.std.specs.Prelude.{◌≡◌, ◌<◌, ◌≤◌, ◌⊎◌, ◌++◌, All, length, map, take, drop, OnOk, IfOk, MatchBool};
ghost use Rattle.std.specs.List.{flat_map};
ghost use Rattle.ct_sorts.specs.Grown.{Begins};
ghost use Rattle.ct_terms.specs.Terms.{AreSorted};
ghost use Rattle.ct_restriction.specs.Renamed.{number_in};
ghost use Rattle.ct_kept.specs.Lemmas.{lemma_terms, renamed_lemma, IsAcceptedLemma, lemmas_of_step, theory_lemmas};
ghost use Rattle.ct_kept.specs.Kept.{IsOver, Takes, TakesAll, most_lemmas};
ghost use Rattle.ct_kept.specs.Taken.{AreKnownLemmas, PushesLemmas, IsWithoutRoom, TakesFirst};

use crate::error::KeptError;
use crate::lemma::Lemma;
use crate::moving::moved;
use crate::terms::push_terms;
use ct_log::{Derivation, Line, Step};
use ct_restriction::Renumbering;
use ct_sorts::Signature;
use ct_terms::{TermId, TermTable};
use std::alloc::{AllocError, Global};

/// The most clauses that a store holds.
const MOST_LEMMAS: usize = 4_096;

/// Takes the clauses that the theory gave after so many first lines of the derivation, in order, up to the first for which there
/// are 4,096 or the table has no room. Also where memory runs out, what was there stays in front.
pub(crate) fn take_after(
    alloc: Global,
    sig: &Signature,
    derivation: &Derivation,
    first: usize,
    table: &mut TermTable,
    lemmas: &mut Vec<Lemma>,
) -> Result<(), KeptError>
    requires declarations { derivation.now.declarations ≡ sig.now }
    requires within { first ≤ length derivation.now.rec.lines }
    requires sorted { AreSorted sig.now table.old }
    requires few { length lemmas.old.items ≤ most_lemmas }
    ensures grown { Begins table.old table.new }
    ensures begins { Begins lemmas.old.items lemmas.new.items }
    ensures sorted { AreSorted sig.now table.new }
    ensures taken { OnOk result (Takes (record { table = table.old; lemmas = lemmas.old.items }) derivation.now.rec.terms (theory_lemmas (drop first derivation.now.rec.lines)) (record { table = table.new; lemmas = lemmas.new.items })) }
    ensures few { OnOk result (length lemmas.new.items ≤ most_lemmas) }
    ensures over { All (IsOver table.old) lemmas.old.items → OnOk result (All (IsOver table.new) lemmas.new.items) }
{
    let rec = derivation.rec();
    let lines = after(rec.lines(), first);
    take_lines(alloc, sig, rec.table(), lines, table, lemmas)
}

// The lines after so many first ones.
fn after(lines: &[Line], first: usize) -> &[Line]
    requires within { first ≤ length lines.now }
    ensures value { result.now ≡ drop first lines.now }
{
    &lines[first..]
}

// The first lines, so many.
fn beginning(lines: &[Line], count: usize) -> &[Line]
    requires within { count ≤ length lines.now }
    ensures value { result.now ≡ take count lines.now }
{
    &lines[..count]
}

// Takes the clauses of those of the lines that the theory gave, in the same way.
fn take_lines(
    alloc: Global,
    sig: &Signature,
    terms: &TermTable,
    lines: &[Line],
    table: &mut TermTable,
    lemmas: &mut Vec<Lemma>,
) -> Result<(), KeptError>
    requires sorted { AreSorted sig.now table.old }
    requires terms { AreSorted sig.now terms.now }
    requires accepted { All (IsAcceptedLemma sig.now terms.now) (theory_lemmas lines.now) }
    requires few { length lemmas.old.items ≤ most_lemmas }
    ensures grown { Begins table.old table.new }
    ensures begins { Begins lemmas.old.items lemmas.new.items }
    ensures sorted { AreSorted sig.now table.new }
    ensures taken { OnOk result (Takes (record { table = table.old; lemmas = lemmas.old.items }) terms.now (theory_lemmas lines.now) (record { table = table.new; lemmas = lemmas.new.items })) }
    ensures few { OnOk result (length lemmas.new.items ≤ most_lemmas) }
    ensures over { All (IsOver table.old) lemmas.old.items → OnOk result (All (IsOver table.new) lemmas.new.items) }
{
    let count = fitting(lines, MOST_LEMMAS - lemmas.len());
    let lines = beginning(lines, count);
    take_first(alloc, sig, terms, lines, table, lemmas)
}

// Takes the clauses of those of the lines that the theory gave, up to the first for which the table has no room. All lines are
// tried at once; after each try half as many, so the copies are few.
fn take_first(
    alloc: Global,
    sig: &Signature,
    terms: &TermTable,
    lines: &[Line],
    table: &mut TermTable,
    lemmas: &mut Vec<Lemma>,
) -> Result<(), KeptError>
    requires sorted { AreSorted sig.now table.old }
    requires terms { AreSorted sig.now terms.now }
    requires accepted { All (IsAcceptedLemma sig.now terms.now) (theory_lemmas lines.now) }
    ensures grown { Begins table.old table.new }
    ensures begins { Begins lemmas.old.items lemmas.new.items }
    ensures sorted { AreSorted sig.now table.new }
    ensures taken { OnOk result (TakesFirst (record { table = table.old; lemmas = lemmas.old.items }) terms.now lines.now (record { table = table.new; lemmas = lemmas.new.items })) }
    ensures over { All (IsOver table.old) lemmas.old.items → OnOk result (All (IsOver table.new) lemmas.new.items) }
{
    let mut rest = lines;
    let mut size = lines.len();
    while !rest.is_empty() {
        let count = size.min(rest.len());
        if take_all(alloc, sig, terms, beginning(rest, count), table, lemmas)? {
            let _terms = table.len();
            rest = after(rest, count);
        } else if count == 1 {
            return Ok(());
        }
        size = half(size);
    }
    Ok(())
}

// Half of the number, rounded up.
fn half(size: usize) -> usize
    ensures less { 2 ≤ size → result < size }
    ensures most { result ≤ size }
    ensures some { 1 ≤ size → 1 ≤ result }
{
    size - size / 2
}

// Takes the clauses of all those of the lines that the theory gave, where the table has room for their terms; else nothing has
// changed. Answers whether.
fn take_all(
    alloc: Global,
    sig: &Signature,
    terms: &TermTable,
    lines: &[Line],
    table: &mut TermTable,
    lemmas: &mut Vec<Lemma>,
) -> Result<bool, KeptError>
    requires sorted { AreSorted sig.now table.old }
    requires terms { AreSorted sig.now terms.now }
    requires accepted { All (IsAcceptedLemma sig.now terms.now) (theory_lemmas lines.now) }
    ensures grown { Begins table.old table.new }
    ensures begins { Begins lemmas.old.items lemmas.new.items }
    ensures sorted { AreSorted sig.now table.new }
    ensures taken { IfOk result (λ all. MatchBool all
        (TakesAll (record { table = table.old; lemmas = lemmas.old.items }) terms.now (theory_lemmas lines.now) (record { table = table.new; lemmas = lemmas.new.items }))
        (IsWithoutRoom (record { table = table.old; lemmas = lemmas.old.items }) terms.now (theory_lemmas lines.now) (record { table = table.new; lemmas = lemmas.new.items }))) }
    ensures over { All (IsOver table.old) lemmas.old.items → OnOk result (All (IsOver table.new) lemmas.new.items) }
{
    let before = table.len();
    let roots = roots_of(alloc, lines)?;
    let numbers = Renumbering::copying(alloc, sig, terms, &roots, table)?;
    if !numbers.knows(&roots) {
        table.cut_to(before);
        return Ok(false);
    }
    push_lemmas(alloc, lines, &numbers, lemmas)?;
    Ok(true)
}

// How many of the lines have at most so many clauses of the theory among them.
fn fitting(lines: &[Line], most: usize) -> usize
    requires few { most ≤ most_lemmas }
    ensures within { result ≤ length lines.now }
    ensures few { length (theory_lemmas (take result lines.now)) ≤ most }
    ensures all { (result ≡ length lines.now) ⊎ (length (theory_lemmas (take result lines.now)) ≡ most) }
{
    let mut count = 0;
    for index in 0..lines.len() {
        let more = count + lemma_count(&lines[index]);
        if more > most {
            return index;
        }
        count = more;
    }
    lines.len()
}

// How many clauses of the theory the line has: one where the theory gave its clause, else none.
fn lemma_count(line: &Line) -> usize
    ensures value { result ≡ length (lemmas_of_step line.now.clause line.now.step) }
    ensures most { result ≤ 1 }
{
    match &line.step {
        Step::Theory(_, _) => 1,
        Step::Input(_) => 0,
        Step::Gate(_, _, _) => 0,
        Step::Exhaust(_) => 0,
        Step::Learn(_) => 0,
    }
}

// The terms of the clauses of the theory among the lines.
fn roots_of(alloc: Global, lines: &[Line]) -> Result<Vec<TermId>, AllocError>
    ensures roots { IfOk result (λ roots. roots.items ≡ flat_map lemma_terms (theory_lemmas lines.now)) }
{
    let mut roots = Vec::new(alloc);
    for line in lines {
        push_roots(&mut roots, line)?;
    }
    Ok(roots)
}

// The terms of the clause, where the theory gave it.
fn push_roots(roots: &mut Vec<TermId>, line: &Line) -> Result<(), AllocError>
    ensures roots { OnOk result (roots.new.items ≡ roots.old.items ++ flat_map lemma_terms (lemmas_of_step line.now.clause line.now.step)) }
{
    match &line.step {
        Step::Theory(steps, close) => {
            push_terms(roots, line.clause.as_slice(), steps.as_slice(), close)
        }
        Step::Input(_) => Ok(()),
        Step::Gate(_, _, _) => Ok(()),
        Step::Exhaust(_) => Ok(()),
        Step::Learn(_) => Ok(()),
    }
}

// Puts the clauses of the theory among the lines at the end, over the other numbers, up to the first with a term that is not
// known.
fn push_lemmas(
    alloc: Global,
    lines: &[Line],
    numbers: &Renumbering,
    lemmas: &mut Vec<Lemma>,
) -> Result<(), AllocError>
    ensures begins { Begins lemmas.old.items lemmas.new.items }
    ensures pushes { OnOk result (PushesLemmas numbers.now lines.now lemmas.old.items lemmas.new.items) }
{
    for line in lines {
        if !push_lemma(alloc, line, numbers, lemmas)? {
            return Ok(());
        }
    }
    Ok(())
}

// Puts the clause at the end, where the theory gave it and its terms are known. Answers whether they are.
fn push_lemma(
    alloc: Global,
    line: &Line,
    numbers: &Renumbering,
    lemmas: &mut Vec<Lemma>,
) -> Result<bool, AllocError>
    ensures begins { Begins lemmas.old.items lemmas.new.items }
    ensures pushed { IfOk result (λ known. MatchBool known
        (AreKnownLemmas numbers.now (lemmas_of_step line.now.clause line.now.step)
        × (lemmas.new.items ≡ lemmas.old.items ++ map (renamed_lemma (number_in numbers.now.numbers)) (lemmas_of_step line.now.clause line.now.step)))
        ((AreKnownLemmas numbers.now (lemmas_of_step line.now.clause line.now.step) → ⊥) × (lemmas.new.items ≡ lemmas.old.items))) }
{
    match &line.step {
        Step::Theory(steps, close) => {
            match moved(
                alloc,
                line.clause.as_slice(),
                steps.as_slice(),
                close,
                numbers,
            )? {
                Some(lemma) => {
                    lemmas.push(lemma)?;
                    Ok(true)
                }
                None => Ok(false),
            }
        }
        _ => Ok(true),
    }
}
