//! Brings the assertions of another table into the closed one: which of its roots they are already, and the others.
ghost use Rattle.std.specs.Prelude.{◌≡◌, ◌↔◌, ◌+◌, ◌<◌, ◌≤◌, ◌++◌, List, length, map, take, drop, All, Contains, Some, slice_get, IsTrue, IfOk, OnOk, IsErrOf};
ghost use Rattle.ct_sorts.specs.declared.ids.SortId.{SortId};
ghost use Rattle.ct_sorts.specs.Declarations.{Declarations};
ghost use Rattle.ct_sorts.specs.Grown.{Begins};
ghost use Rattle.ct_card.specs.Sizes.{AreSizes};
ghost use Rattle.ct_terms.specs.declared.ids.TermId.{TermId};
ghost use Rattle.ct_terms.specs.Terms.{Terms, AreSorted, IsBoolean, most_terms};
ghost use Rattle.ct_terms.specs.CoreTree.{CoreTree, term_at};
ghost use Rattle.ct_closure.specs.Closed.{InClosure, HasVariables, HasMoreThan, most_closure_terms, truth_trees};
ghost use Rattle.ct_closure.specs.ClosedTable.{HasTree, IsClosedTable, IsSplitTerm, AreRising, terms_at};
ghost use Rattle.ct_closure.specs.Further.{BeginsClosed, IsClosureOver};
ghost use Rattle.ct_restriction.specs.Renamed.{number_in};
ghost use Rattle.ct_restriction.specs.Restricted.{IsSubtermOfOne};
ghost use Rattle.ct_restriction.specs.Renumbered.{IsEqualTerm, AreNumbersOf};

use ct_card::Sizes;
use ct_closure::{CloseError, Closure, close_further, closed_beginnings};
use ct_restriction::{Renumbering, equal_beginning};
use ct_sorts::Signature;
use ct_terms::{TermError, TermId, TermTable, core_trees, one_lasting_sort};
use std::alloc::{AllocError, Global};

/// How many first roots are the first of these assertions, which are terms of another table, by the numbers that its terms had
/// here when they were brought in. The numbers are cut to those that are still right.
pub(crate) fn common_roots(
    alloc: Global,
    table: &TermTable,
    roots: &[TermId],
    numbers: &mut Vec<TermId>,
    from: &TermTable,
    asserts: &[TermId],
) -> Result<usize, CloseError>
    ensures within { IfOk result (λ count. count ≤ length roots.now) }
    ensures few { IfOk result (λ count. count ≤ length asserts.now) }
    ensures common { IfOk result (λ count. terms_at table.now (take count roots.now) ≡ terms_at from.now (take count asserts.now)) }
    ensures err { IsErrOf result CloseError.TooLarge → ⊥ }
{
    let right = equal_beginning(alloc, from, table, numbers.as_slice())?;
    numbers.truncate(right);
    Ok(equal_roots(numbers.as_slice(), roots, asserts))
}

// How many first roots have the numbers of the first assertions.
fn equal_roots(numbers: &[TermId], roots: &[TermId], asserts: &[TermId]) -> usize
    ensures within { result ≤ length roots.now }
    ensures few { result ≤ length asserts.now }
    ensures common { (table from : Terms) → AreNumbersOf from table numbers.now (length numbers.now) → terms_at table (take result roots.now) ≡ terms_at from (take result asserts.now) }
{
    let mut count = 0;
    while count < roots.len() && count < asserts.len() {
        if !is_number(numbers, asserts[count], roots[count]) {
            return count;
        }
        count += 1;
    }
    count
}

// Whether this number stands beside the term.
fn is_number(numbers: &[TermId], t: TermId, number: TermId) -> bool
    ensures number { IsTrue result → slice_get numbers.now t.0 ≡ Some number }
{
    let index = t.0 as usize;
    if index >= numbers.len() {
        return false;
    }
    numbers[index] == number
}

/// Closes the table over further assertions, which are terms of another one: they come with their subterms behind what is closed,
/// and their numbers behind the roots. Notes the numbers here of the terms of the other table.
pub(crate) fn close_rest(
    alloc: Global,
    sig: &Signature,
    sizes: &Sizes,
    from: &TermTable,
    asserts: &[TermId],
    closed: u32,
    table: &mut TermTable,
    roots: &mut Vec<TermId>,
    split: &mut Vec<TermId>,
    numbers: &mut Vec<TermId>,
) -> Result<Closure, CloseError>
    requires sizes { AreSizes sig.now sizes.now }
    requires sorted { AreSorted sig.now from.now }
    requires so_far { AreSorted sig.now table.old }
    requires asserts { All (IsBoolean from.now) asserts.now }
    requires room { length table.old + length from.now ≤ most_terms }
    requires before { (earlier : Declarations) × (trees : List CoreTree) × BeginsClosed sig.now earlier trees table.old closed split.old.items }
    requires rest { (u : TermId) → closed ≤ u.0 → u.0 < length table.old → Contains truth_trees (term_at table.old u) }
    ensures grown { Begins table.old table.new }
    ensures roots_grown { Begins roots.old.items roots.new.items }
    ensures split_grown { Begins split.old.items split.new.items }
    ensures sorted { AreSorted sig.now table.new }
    ensures trees { OnOk result (terms_at table.new (drop (length roots.old.items) roots.new.items) ≡ terms_at from.now asserts.now) }
    ensures booleans { OnOk result (All (IsBoolean table.new) (drop (length roots.old.items) roots.new.items)) }
    ensures over { OnOk result ((earlier : Declarations) (trees : List CoreTree) → BeginsClosed sig.now earlier trees table.old closed split.old.items
        → IsClosureOver sig.now (trees ++ terms_at from.now asserts.now) table.new split.new.items) }
    ensures exact { OnOk result ((earlier : Declarations) (trees : List CoreTree) → BeginsClosed sig.now earlier trees table.old closed split.old.items
        → (t : CoreTree) → HasTree table.new t ↔ InClosure sig.now (trees ++ terms_at from.now asserts.now) t) }
    ensures closed { OnOk result (IsClosedTable sig.now table.new) }
    ensures few { OnOk result (length table.new ≤ most_closure_terms) }
    ensures splits { IfOk result (λ c. (t : TermId) → Contains c.split t ↔ ((sort : SortId) × IsSplitTerm sig.now table.new t sort)) }
    ensures rising { IfOk result (λ c. AreRising c.split) }
    ensures variables { IfOk result (λ c. (earlier : Declarations) (trees : List CoreTree) → BeginsClosed sig.now earlier trees table.old closed split.old.items
        → HasVariables sig.now (trees ++ terms_at from.now asserts.now) c.variables) }
    ensures too_large { IsErrOf result CloseError.TooLarge → (earlier : Declarations) (trees : List CoreTree) → BeginsClosed sig.now earlier trees table.old closed split.old.items
        → HasMoreThan sig.now (trees ++ terms_at from.now asserts.now) most_closure_terms }
{
    closed_beginnings();
    core_trees();
    let before = roots.len();
    add_roots(alloc, sig, from, asserts, table, roots, numbers)?;
    let _terms = table.len();
    let further = after(roots.as_slice(), before);
    let closure = close_further(alloc, sig, sizes, table, closed, split, further)?;
    let _closed = table.len();
    Ok(closure)
}

/// The terms after so many first ones.
pub(crate) fn after(terms: &[TermId], count: usize) -> &[TermId]
    requires within { count ≤ length terms.now }
    ensures value { result.now ≡ drop count terms.now }
{
    &terms[count..]
}

// Copies assertions with their subterms from another table, and puts their numbers here after the roots. Notes the numbers of
// the terms of the other table from those that are noted on.
fn add_roots(
    alloc: Global,
    sig: &Signature,
    from: &TermTable,
    asserts: &[TermId],
    table: &mut TermTable,
    roots: &mut Vec<TermId>,
    numbers: &mut Vec<TermId>,
) -> Result<(), CloseError>
    requires sorted { AreSorted sig.now from.now }
    requires so_far { AreSorted sig.now table.old }
    requires asserts { All (IsBoolean from.now) asserts.now }
    requires room { length table.old + length from.now ≤ most_terms }
    ensures grown { Begins table.old table.new }
    ensures roots_grown { Begins roots.old.items roots.new.items }
    ensures sorted { AreSorted sig.now table.new }
    ensures trees { OnOk result (terms_at table.new (drop (length roots.old.items) roots.new.items) ≡ terms_at from.now asserts.now) }
    ensures booleans { OnOk result (All (IsBoolean table.new) (drop (length roots.old.items) roots.new.items)) }
    ensures only { OnOk result ((u : TermId) → length table.old ≤ u.0 → u.0 < length table.new → IsSubtermOfOne (terms_at from.now asserts.now) (term_at table.new u)) }
    ensures err { IsErrOf result CloseError.TooLarge → ⊥ }
{
    core_trees();
    one_lasting_sort();
    let made = copied(alloc, sig, from, asserts, table)?;
    let _terms = from.len();
    let _others = table.len();
    push_numbers(&made, asserts, roots)?;
    note_numbers(&made, from.len(), numbers)?;
    Ok(())
}

// Puts the numbers of these terms after the list.
fn push_numbers(
    made: &Renumbering,
    terms: &[TermId],
    list: &mut Vec<TermId>,
) -> Result<(), AllocError>
    ensures grown { Begins list.old.items list.new.items }
    ensures pushed { OnOk result (list.new.items ≡ list.old.items ++ map (number_in made.now.numbers) terms.now) }
{
    for t in terms {
        list.push(made.number(*t))?;
    }
    Ok(())
}

// Puts the numbers of the next terms after the list, up to so many in all.
fn note_numbers(made: &Renumbering, count: u32, list: &mut Vec<TermId>) -> Result<(), AllocError> {
    while list.len() < count as usize {
        let next = list.len() as u32;
        list.push(made.number(TermId(next)))?;
    }
    Ok(())
}

// Copies assertions with their subterms from another table, where there is room for both.
fn copied(
    alloc: Global,
    sig: &Signature,
    from: &TermTable,
    asserts: &[TermId],
    table: &mut TermTable,
) -> Result<Renumbering, CloseError>
    requires sorted { AreSorted sig.now from.now }
    requires so_far { AreSorted sig.now table.old }
    requires asserts { All (IsBoolean from.now) asserts.now }
    requires room { length table.old + length from.now ≤ most_terms }
    ensures grown { Begins table.old table.new }
    ensures sorted { AreSorted sig.now table.new }
    ensures equal { IfOk result (λ n. All (λ t. IsEqualTerm from.now table.new t (number_in n.numbers t)) asserts.now) }
    ensures only { OnOk result ((u : TermId) → length table.old ≤ u.0 → u.0 < length table.new → IsSubtermOfOne (terms_at from.now asserts.now) (term_at table.new u)) }
    ensures err { IsErrOf result CloseError.TooLarge → ⊥ }
{
    match Renumbering::copying(alloc, sig, from, asserts, table) {
        Ok(made) => Ok(made),
        Err(TermError::Full) => Err(CloseError::NoMemory),
        Err(TermError::NoMemory) => Err(CloseError::NoMemory),
    }
}
