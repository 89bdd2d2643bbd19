//! The terms directly above each term.
ghost use Rattle.std.specs.Prelude.{◌≡◌, ◌<◌, [], ◌∷◌, ◌-◌, true, length, IfOk, OnOk, All, Some, slice_get};
ghost use Rattle.std.specs.List.{AllByRecursion};
ghost use Rattle.ct_terms.specs.Children.{core_children, HasArgumentsBelow};
ghost use Rattle.ct_equivalence.specs.Parents.{AreAdded, IsOneAdded, AreParents};

use crate::error::EquivalenceError;
use crate::rows::Rows;
use ct_terms::{Core, TermId, TermTable};
use std::alloc::Global;

/// For each term of the table the terms right above it.
pub(crate) fn parents(alloc: Global, table: &TermTable) -> Result<Rows, EquivalenceError>
    ensures parents { IfOk result (AreParents table.now (length table.now)) }
{
    let mut rows = empty_rows(alloc, table.len())?;
    for t in 0..table.len() {
        add_parent(&mut rows, table.core(TermId(t)), TermId(t))?;
    }
    Ok(rows)
}

// So many empty rows.
fn empty_rows(alloc: Global, count: u32) -> Result<Rows, EquivalenceError>
    ensures long { IfOk result (λ rows. length rows ≡ count) }
    ensures empty { IfOk result (All (λ row. row ≡ [])) }
{
    let mut rows = Rows::new(alloc);
    for _ in 0..count {
        rows.add_row()?;
    }
    Ok(rows)
}

// Puts the term into the rows of those right under it.
fn add_parent(rows: &mut Rows, core: &Core, p: TermId) -> Result<(), EquivalenceError>
    requires inside { HasArgumentsBelow (length rows.old) core.now }
    ensures added { OnOk result (AreAdded rows.old rows.new (core_children core.now) p) }
{
    match core {
        Core::Con(_, args) => add_to_each(rows, args.as_slice(), p),
        Core::Sel(_, a) => add_to_each(rows, &[*a], p),
        Core::Test(_, a) => add_to_each(rows, &[*a], p),
        Core::Apply(_, args) => add_to_each(rows, args.as_slice(), p),
        Core::Eq(a, b) => add_to_each(rows, &[*a, *b], p),
        Core::Not(a) => add_to_each(rows, &[*a], p),
        Core::And(args) => add_to_each(rows, args.as_slice(), p),
        Core::Or(args) => add_to_each(rows, args.as_slice(), p),
        Core::Iff(a, b) => add_to_each(rows, &[*a, *b], p),
        Core::Ite(c, a, b) => add_to_each(rows, &[*c, *a, *b], p),
    }
}

// Puts the term into the rows of all these: once into each, also where one of these comes again.
fn add_to_each(rows: &mut Rows, terms: &[TermId], p: TermId) -> Result<(), EquivalenceError>
    requires inside { AllByRecursion (λ t. t.0 < length rows.old) terms.now }
    ensures added { OnOk result (AreAdded rows.old rows.new terms.now p) }
{
    for t in terms {
        add_once(rows, *t, p)?;
    }
    Ok(())
}

// Puts the term to the end of the row of the other, unless the row ends with it.
fn add_once(rows: &mut Rows, t: TermId, p: TermId) -> Result<(), EquivalenceError>
    requires inside { t.0 < length rows.old }
    ensures added { OnOk result (IsOneAdded rows.old rows.new t p) }
{
    if ends_with(rows.row(t), p) {
        return Ok(());
    }
    rows.push(t, p)?;
    Ok(())
}

// Whether the term is the last of these.
fn ends_with(row: &[TermId], p: TermId) -> bool
    ensures last { result ≡ true → slice_get row.now (length row.now - 1) ≡ Some p }
{
    let Some(last) = row.last() else {
        return false;
    };
    last.0 == p.0
}
