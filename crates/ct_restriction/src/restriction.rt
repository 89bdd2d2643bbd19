//! Restricts a table to what some terms need.
//!
//! The subterms of the roots are marked (`marking.rt`), and copied from the first number up: so the terms under each have their
//! new numbers before it. The time is linear in the table.
ghost use Rattle.std.specs.Prelude.{◌≡◌, ◌<◌, ◌≤◌, ◌++◌, ◌∷◌, [], All, length, IfOk, OnOk, IsErrOf};
ghost use Rattle.ct_sorts.specs.declared.ids.SortId.{SortId};
ghost use Rattle.ct_terms.specs.Terms.{IsOfSort, AreSorted};
ghost use Rattle.ct_closure.specs.ClosedTable.{terms_at};
ghost use Rattle.ct_restriction.specs.Restricted.{IsRestriction, MarksUnder, AreCopied};

use crate::marking::marked;
use crate::renaming::{numbers_in, renamed};
use ct_sorts::Signature;
use ct_terms::{TermError, TermId, TermTable};
use std::alloc::Global;

/// A table of `true`, `false` and the subterms of the roots, which are terms of the given table, with the numbers of
/// the roots in it. Its only error is out of memory.
pub fn restrict(
    alloc: Global,
    sig: &Signature,
    table: &TermTable,
    roots: &[TermId],
) -> Result<(TermTable, Vec<TermId>), TermError>
    requires sorted { AreSorted sig.now table.now }
    requires within { All (λ t. t.0 < length table.now) roots.now }
    ensures restricted { IfOk result (λ made. IsRestriction table.now roots.now made.0 made.1.items) }
    ensures sorted { IfOk result (λ made. AreSorted sig.now made.0) }
    ensures few { IfOk result (λ made. length made.0 ≤ length table.now) }

    // So the roots stand for the same trees, and are of the same sort where all of them are of one.
    ensures same { IfOk result (λ made. terms_at made.0 made.1.items ≡ terms_at table.now roots.now) }
    ensures of_sort { (s : SortId) → All (λ t. IsOfSort table.now t s) roots.now
        → IfOk result (λ made. All (λ t. IsOfSort made.0 t s) made.1.items) }
    ensures err { IsErrOf result TermError.Full → ⊥ }
{
    let marks = marked(alloc, table, roots)?;
    let (restricted, numbers) = copied(alloc, sig, table, &marks)?;
    let _terms = restricted.len();
    let found = numbers_in(alloc, &numbers, roots)?;
    Ok((Box::into_inner(restricted), found))
}

// A table of `true`, `false` and the marked terms, and the number of each marked term in it.
fn copied(
    alloc: Global,
    sig: &Signature,
    table: &TermTable,
    marks: &[bool],
) -> Result<(Box<TermTable>, Vec<TermId>), TermError>
    requires sorted { AreSorted sig.now table.now }
    requires long { length marks.now ≡ length table.now }
    requires under { MarksUnder table.now marks.now 0 }
    ensures copied { IfOk result (λ made. AreCopied table.now marks.now made.0.value made.1.items) }
    ensures long { IfOk result (λ made. length made.1.items ≡ length table.now) }
    ensures sorted { IfOk result (λ made. AreSorted sig.now made.0.value) }
    ensures err { IsErrOf result TermError.Full → ⊥ }
{
    let mut restricted = Box::new(alloc, TermTable::new(alloc)?)?;
    let mut numbers = Vec::from_slice(alloc, &[TermId(0), TermId(1)])?;
    for t in 2..table.len() {
        let number = copy_next(alloc, sig, table, marks, &numbers, &mut restricted)?;
        numbers.push(number)?;
    }
    Ok((restricted, numbers))
}

// Copies the next term, where it is marked. Its number in the new table, or any number where it is not marked.
fn copy_next(
    alloc: Global,
    sig: &Signature,
    table: &TermTable,
    marks: &[bool],
    numbers: &[TermId],
    restricted: &mut TermTable,
) -> Result<TermId, TermError>
    requires sorted { AreSorted sig.now table.now }
    requires long { length marks.now ≡ length table.now }
    requires under { MarksUnder table.now marks.now 0 }
    requires next { length numbers.now < length table.now }
    requires copied { AreCopied table.now marks.now restricted.old numbers.now }
    requires so_far { AreSorted sig.now restricted.old }
    ensures copied { IfOk result (λ number. AreCopied table.now marks.now restricted.new (numbers.now ++ number ∷ [])) }
    ensures sorted { OnOk result (AreSorted sig.now restricted.new) }
    ensures err { IsErrOf result TermError.Full → ⊥ }
{
    let _terms = table.len();
    let t = TermId(numbers.len() as u32);
    if !marks[t.0 as usize] {
        return Ok(t);
    }
    let core = renamed(alloc, table.core(t), numbers)?;
    match restricted.make(sig, core) {
        Ok(number) => {
            let _grown = restricted.len();
            Ok(number)
        }
        Err(TermError::Full) => unreachable!(),
        Err(TermError::NoMemory) => Err(TermError::NoMemory),
    }
}
