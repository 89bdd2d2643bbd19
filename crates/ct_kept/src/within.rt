//! The part of a store that names only what is below a mark.
ghost use Rattle.std.specs.Prelude.{◌≡◌, ◌<◌, ◌≤◌, [], ◌∷◌, ◌++◌, All, length, Contains, IfOk, OnOk, MatchOption};
ghost use Rattle.ct_sorts.specs.Marks.{CanCut, cut};
ghost use Rattle.ct_terms.specs.declared.ids.TermId.{TermId};
ghost use Rattle.ct_terms.specs.Terms.{AreSorted, truth_terms};
ghost use Rattle.ct_terms.specs.CoreTree.{term_at};
ghost use Rattle.ct_restriction.specs.Restricted.{IsMarked};
ghost use Rattle.ct_kept.specs.Lemmas.{lemma_terms};
ghost use Rattle.ct_kept.specs.Kept.{Stored, IsStore, IsOver};
ghost use Rattle.ct_kept.specs.Names.{NamesBelow, AreNamed};
ghost use Rattle.ct_kept.specs.Chosen.{AreRoots, AreLemmasBy};

use crate::error::KeptError;
use crate::lemma::Lemma;
use crate::moving::moved;
use crate::naming::{are_marked, named};
use crate::terms::push_terms;
use ct_restriction::Renumbering;
use ct_sorts::{Mark, Signature, growth, structure};
use ct_terms::{TermId, TermTable};
use std::alloc::{AllocError, Global};

/// The lemmas whose terms name only what is below the mark, in order, over a table all of whose terms name only such.
pub(crate) fn within(
    alloc: Global,
    sig: &Signature,
    table: &TermTable,
    lemmas: &[Lemma],
    mark: &Mark,
) -> Result<(TermTable, Vec<Lemma>), KeptError>
    requires sorted { AreSorted sig.now table.now }
    requires can_cut { CanCut sig.now mark.now }
    requires store { IsStore (record { table = table.now; lemmas = lemmas.now }) }
    ensures named { IfOk result (λ r. AreNamed mark.now (record { table = table.now; lemmas = lemmas.now }) (record { table = r.0; lemmas = r.1.items })) }
    ensures only { IfOk result (λ r. (t : TermId) → t.0 < length r.0 → NamesBelow mark.now (term_at r.0 t)) }
    ensures sorted { IfOk result (λ r. AreSorted (cut sig.now mark.now) r.0) }
    ensures store { IfOk result (λ r. IsStore (record { table = r.0; lemmas = r.1.items })) }
{
    growth();
    let _sorts = sig.sorts();
    let mut made = Box::new(alloc, TermTable::new(alloc)?)?;
    let chosen = fill(alloc, sig, table, lemmas, mark, &mut made)?;
    Ok((Box::into_inner(made), chosen))
}

// Puts the terms of the lemmas that name only what is below the mark into the new table. Gives the lemmas over it, in order.
fn fill(
    alloc: Global,
    sig: &Signature,
    table: &TermTable,
    lemmas: &[Lemma],
    mark: &Mark,
    made: &mut TermTable,
) -> Result<Vec<Lemma>, KeptError>
    requires sorted { AreSorted sig.now table.now }
    requires can_cut { CanCut sig.now mark.now }
    requires store { IsStore (record { table = table.now; lemmas = lemmas.now }) }
    requires first { made.old ≡ truth_terms }
    requires so_far { AreSorted sig.now made.old }
    ensures named { IfOk result (λ chosen. AreNamed mark.now (record { table = table.now; lemmas = lemmas.now }) (record { table = made.new; lemmas = chosen.items })) }
    ensures only { OnOk result ((t : TermId) → t.0 < length made.new → NamesBelow mark.now (term_at made.new t)) }
    ensures sorted { OnOk result (AreSorted (cut sig.now mark.now) made.new) }
    ensures store { IfOk result (λ chosen. IsStore (record { table = made.new; lemmas = chosen.items })) }
{
    structure();
    let _sorts = sig.sorts();
    let _kept = mark.sorts();
    let _terms = table.len();
    let marks = named(alloc, table, mark)?;
    let roots = roots_of(alloc, lemmas, &marks)?;
    let numbers = Renumbering::copying(alloc, sig, table, &roots, made)?;
    let _made = made.len();
    let chosen = lemmas_of(alloc, lemmas, &numbers)?;
    Ok(chosen)
}

// The terms of those lemmas all of whose terms are marked.
fn roots_of(alloc: Global, lemmas: &[Lemma], marks: &[bool]) -> Result<Vec<TermId>, AllocError>
    ensures roots { IfOk result (λ roots. AreRoots marks.now lemmas.now roots.items) }
{
    let mut roots = Vec::new(alloc);
    for lemma in lemmas {
        push_roots(alloc, &mut roots, lemma, marks)?;
    }
    Ok(roots)
}

// The terms of the lemma, where all of them are marked.
fn push_roots(
    alloc: Global,
    roots: &mut Vec<TermId>,
    lemma: &Lemma,
    marks: &[bool],
) -> Result<(), AllocError>
    ensures stays { OnOk result ((t : TermId) → Contains roots.old.items t → Contains roots.new.items t) }
    ensures marked { OnOk result (All (IsMarked marks.now) roots.old.items → All (IsMarked marks.now) roots.new.items) }
    ensures all { OnOk result (All (IsMarked marks.now) (lemma_terms lemma.now) → All (Contains roots.new.items) (lemma_terms lemma.now)) }
{
    let mut terms = Vec::new(alloc);
    let clause = lemma.clause.as_slice();
    push_terms(&mut terms, clause, lemma.steps.as_slice(), &lemma.close)?;
    if !are_marked(marks, &terms) {
        return Ok(());
    }
    roots.extend_from_slice(&terms)?;
    Ok(())
}

// The lemmas all of whose terms are known, over their other numbers.
fn lemmas_of(
    alloc: Global,
    lemmas: &[Lemma],
    numbers: &Renumbering,
) -> Result<Vec<Lemma>, AllocError>
    ensures lemmas { IfOk result (λ made. AreLemmasBy numbers.now lemmas.now made.items) }
{
    let mut made = Vec::new(alloc);
    for lemma in lemmas {
        let clause = lemma.clause.as_slice();
        let steps = lemma.steps.as_slice();
        let found = moved(alloc, clause, steps, &lemma.close, numbers)?;
        push_found(&mut made, found)?;
    }
    Ok(made)
}

// Puts the lemma, where there is one, at the end.
fn push_found(lemmas: &mut Vec<Lemma>, found: Option<Lemma>) -> Result<(), AllocError>
    ensures pushed { OnOk result (MatchOption found (lemmas.new.items ≡ lemmas.old.items) (λ lemma. lemmas.new.items ≡ lemmas.old.items ++ lemma ∷ [])) }
{
    match found {
        None => Ok(()),
        Some(lemma) => {
            lemmas.push(lemma)?;
            Ok(())
        }
    }
}
