//! Closing goes on from a table whose first terms are closed, and gives what closing all at once would.
ghost use Rattle.std.specs.Prelude.{◌≡◌, ◌↔◌, ◌⊎◌, ◌<◌, ◌≤◌, ◌++◌, List, length, All, Contains, IsTrue, OnOk, IfOk, IsErrOf};
ghost use Rattle.ct_sorts.specs.declared.ids.SortId.{SortId};
ghost use Rattle.ct_sorts.specs.Declarations.{Declarations};
ghost use Rattle.ct_sorts.specs.Grown.{Begins};
ghost use Rattle.ct_card.specs.Sizes.{AreSizes};
ghost use Rattle.ct_terms.specs.declared.ids.TermId.{TermId};
ghost use Rattle.ct_terms.specs.Terms.{IsBoolean, AreSorted};
ghost use Rattle.ct_terms.specs.CoreTree.{CoreTree};
ghost use Rattle.ct_closure.specs.Closed.{InClosure, HasVariables, HasMoreThan, most_closure_terms};
ghost use Rattle.ct_closure.specs.ClosedTable.{HasTree, IsClosedTable, IsSplitTerm, AreRising, terms_at};
ghost use Rattle.ct_closure.specs.Further.{AreFurtherSubtermsOf, BeginsClosed, IsClosureOver};
ghost use Rattle.ct_closure.specs.Steps.{IsMarked};
ghost use Rattle.ct_closure.specs.Variables.{variable_count};

use crate::add::MOST_TERMS;
use crate::closure::Closure;
use crate::error::CloseError;
use crate::facts::{begins, declared, sound, trees};
use crate::listing::{count_variables, marked};
use crate::steps::go_on;
use ct_card::{Sizes, stable_sizes};
use ct_sorts::{Signature, structure};
use ct_terms::{TermId, TermTable};
use std::alloc::Global;

/// Goes on closing: the first terms of the table, as many as `closed` says, are the closure of some roots over an earlier state
/// of the declarations, and behind them stand further assertions and their subterms. Afterwards the table is the closure of
/// these roots and of the assertions, as `close` would make it of all, and the answer is what `close` says of it.
///
/// `split` has the terms that were split, in the order in which they came to be so; those that are split now come after them.
/// So the closure before is there again when the table and `split` are cut to their lengths before, also after an error. The
/// time is near-linear in what is added, but for one look at each term for what is split and at each for the variables.
///
/// `TooLarge` comes exactly where the closure has more than 200,000 terms.
pub fn close_further(
    alloc: Global,
    sig: &Signature,
    sizes: &Sizes,
    table: &mut TermTable,
    closed: u32,
    split: &mut Vec<TermId>,
    asserts: &[TermId],
) -> Result<Closure, CloseError>
    requires sizes { AreSizes sig.now sizes.now }
    requires sorted { AreSorted sig.now table.old }
    requires asserts { All (IsBoolean table.old) asserts.now }
    requires exact { AreFurtherSubtermsOf table.old closed asserts.now }
    requires before { (earlier : Declarations) × (roots : List CoreTree) × BeginsClosed sig.now earlier roots table.old closed split.old.items }
    ensures grown { Begins table.old table.new }
    ensures split_grown { Begins split.old.items split.new.items }
    ensures sorted { AreSorted sig.now table.new }

    // The table holds exactly the closure, and closing can go on from it.
    ensures closure { OnOk result ((earlier : Declarations) (roots : List CoreTree) → BeginsClosed sig.now earlier roots table.old closed split.old.items
        → (t : CoreTree) → HasTree table.new t ↔ InClosure sig.now (roots ++ terms_at table.old asserts.now) t) }
    ensures over { OnOk result ((earlier : Declarations) (roots : List CoreTree) → BeginsClosed sig.now earlier roots table.old closed split.old.items
        → IsClosureOver sig.now (roots ++ terms_at table.old asserts.now) table.new split.new.items) }
    ensures closed { OnOk result (IsClosedTable sig.now table.new) }
    ensures few { OnOk result (length table.new ≤ most_closure_terms) }

    // Which terms are split, and how many are propositional variables.
    ensures split { IfOk result (λ c. (t : TermId) → Contains c.split t ↔ ((sort : SortId) × IsSplitTerm sig.now table.new t sort)) }
    ensures rising { IfOk result (λ c. AreRising c.split) }
    ensures variables { IfOk result (λ c. c.variables ≡ variable_count table.new) }
    ensures propositional { IfOk result (λ c. (earlier : Declarations) (roots : List CoreTree) → BeginsClosed sig.now earlier roots table.old closed split.old.items
        → HasVariables sig.now (roots ++ terms_at table.old asserts.now) c.variables) }

    // It is refused only where the closure has more terms.
    ensures too_large { IsErrOf result CloseError.TooLarge → (earlier : Declarations) (roots : List CoreTree) → BeginsClosed sig.now earlier roots table.old closed split.old.items
        → HasMoreThan sig.now (roots ++ terms_at table.old asserts.now) most_closure_terms }
{
    trees();
    declared(sig);
    sound(sig, table);
    stable_sizes();
    structure();
    if table.len() > MOST_TERMS {
        return Err(CloseError::TooLarge);
    }
    let before = marks_of(alloc, closed as usize, split)?;
    let mut marks = Vec::from_slice(alloc, before.as_slice())?;
    go_on(alloc, sig, sizes, table, &mut marks)?;
    let all = marked(alloc, &marks)?;
    push_new(&before, &all, split)?;
    begins(table);
    let variables = count_variables(table);
    Ok(Closure {
        split: all,
        variables,
    })
}

// For each of the first terms, as many as the count, whether it is among these.
fn marks_of(alloc: Global, count: usize, terms: &[TermId]) -> Result<Vec<bool>, CloseError>
    ensures long { IfOk result (λ marks. length marks.items ≡ count) }
    ensures marks { IfOk result (λ marks. (t : TermId) → t.0 < count → Contains terms.now t ↔ IsMarked marks.items t) }
    ensures err { IsErrOf result CloseError.TooLarge → ⊥ }
{
    let mut marks = no_marks(alloc, count)?;
    for t in terms {
        set_mark(&mut marks, *t);
    }
    Ok(marks)
}

// So many marks that are not set.
fn no_marks(alloc: Global, count: usize) -> Result<Vec<bool>, CloseError>
    ensures long { IfOk result (λ marks. length marks.items ≡ count) }
    ensures none { IfOk result (λ marks. (t : TermId) → IsMarked marks.items t → ⊥) }
    ensures err { IsErrOf result CloseError.TooLarge → ⊥ }
{
    let mut marks = Vec::new(alloc);
    while marks.len() < count {
        marks.push(false)?;
    }
    Ok(marks)
}

// Marks the term, if it has a place.
fn set_mark(marks: &mut Vec<bool>, t: TermId)
    ensures long { length marks.new.items ≡ length marks.old.items }
    ensures marked { (u : TermId) → IsMarked marks.new.items u ↔ (IsMarked marks.old.items u ⊎ ((u ≡ t) × (t.0 < length marks.old.items))) }
{
    let n = t.0 as usize;
    if n < marks.len() {
        marks[n] = true;
    }
}

// Whether the term is marked.
fn is_marked(marks: &[bool], t: TermId) -> bool
    ensures marked { IsTrue result ↔ IsMarked marks.now t }
{
    let n = t.0 as usize;
    n < marks.len() && marks[n]
}

// Puts those of the terms that have no mark after the list.
fn push_new(before: &[bool], terms: &[TermId], list: &mut Vec<TermId>) -> Result<(), CloseError>
    ensures grown { Begins list.old.items list.new.items }
    ensures pushed { OnOk result ((t : TermId) → Contains list.new.items t ↔ (Contains list.old.items t ⊎ (Contains terms.now t × (IsMarked before.now t → ⊥)))) }
    ensures err { IsErrOf result CloseError.TooLarge → ⊥ }
{
    for t in terms {
        push_fresh(before, *t, list)?;
    }
    Ok(())
}

// Puts the term after the list, if it has no mark.
fn push_fresh(before: &[bool], t: TermId, list: &mut Vec<TermId>) -> Result<(), CloseError>
    ensures grown { Begins list.old.items list.new.items }
    ensures pushed { OnOk result ((u : TermId) → Contains list.new.items u ↔ (Contains list.old.items u ⊎ ((u ≡ t) × (IsMarked before.now t → ⊥)))) }
    ensures err { IsErrOf result CloseError.TooLarge → ⊥ }
{
    if is_marked(before, t) {
        return Ok(());
    }
    list.push(t)?;
    Ok(())
}
