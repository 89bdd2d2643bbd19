//! Finds the terms of a table that are subterms of some of its terms.
//!
//! Terms have greater numbers than the terms under them: so one pass from the last number down marks them all.
ghost use Rattle.std.specs.Prelude.{◌≡◌, ◌<◌, ◌≤◌, ◌⊎◌, All, Contains, length, IfOk};
ghost use Rattle.std.specs.List.{AllByRecursion};
ghost use Rattle.ct_terms.specs.declared.ids.TermId.{TermId};
ghost use Rattle.ct_terms.specs.declared.term.Core.{Core};
ghost use Rattle.ct_terms.specs.Children.{core_children, HasArgumentsBelow};
ghost use Rattle.ct_terms.specs.Terms.{Has};
ghost use Rattle.ct_restriction.specs.Restricted.{IsMarked, MarksToo, AreMarked};

use ct_terms::{Core, TermId, TermTable};
use std::alloc::{AllocError, Global};

/// For each term of the table whether it is a subterm of one of the roots.
pub(crate) fn marked(
    alloc: Global,
    table: &TermTable,
    roots: &[TermId],
) -> Result<Vec<bool>, AllocError>
    requires within { All (λ t. t.0 < length table.now) roots.now }
    ensures marked { IfOk result (λ marks. AreMarked table.now roots.now marks.items) }
{
    let count = table.len();
    let mut marks = no_marks(alloc, count)?;
    mark(&mut marks, roots);
    for i in 0..count {
        mark_under(table, TermId(count - 1 - i), &mut marks);
    }
    Ok(marks)
}

// No mark for any of so many terms.
fn no_marks(alloc: Global, count: u32) -> Result<Vec<bool>, AllocError>
    ensures long { IfOk result (λ marks. length marks.items ≡ count) }
    ensures none { IfOk result (λ marks. (t : TermId) → IsMarked marks.items t → ⊥) }
{
    let marks = vec![in alloc; false; count as usize]?;
    Ok(marks)
}

// Marks these terms.
fn mark(marks: &mut Vec<bool>, terms: &[TermId])
    requires within { All (λ t. t.0 < length marks.old.items) terms.now }
    ensures marked { MarksToo marks.old.items marks.new.items terms.now }
{
    for t in terms {
        mark_one(marks, *t);
    }
}

// Marks this term.
fn mark_one(marks: &mut Vec<bool>, t: TermId)
    requires within { t.0 < length marks.old.items }
    ensures long { length marks.new.items ≡ length marks.old.items }
    ensures stays { (u : TermId) → IsMarked marks.old.items u → IsMarked marks.new.items u }
    ensures marked { IsMarked marks.new.items t }
    ensures only { (u : TermId) → IsMarked marks.new.items u → IsMarked marks.old.items u ⊎ (t ≡ u) }
{
    marks[t.0 as usize] = true;
}

// Where this term is marked, marks the terms right under it.
fn mark_under(table: &TermTable, t: TermId, marks: &mut Vec<bool>)
    requires within { t.0 < length table.now }
    requires long { length marks.old.items ≡ length table.now }
    ensures long { length marks.new.items ≡ length table.now }
    ensures stays { (u : TermId) → IsMarked marks.old.items u → IsMarked marks.new.items u }
    ensures under { (core : Core) → Has table.now core t.0 → IsMarked marks.new.items t
        → AllByRecursion (IsMarked marks.new.items) (core_children core) }
    ensures above { (u : TermId) → t.0 ≤ u.0 → IsMarked marks.new.items u → IsMarked marks.old.items u }
    ensures only { (u : TermId) → IsMarked marks.new.items u → IsMarked marks.old.items u
        ⊎ ((core : Core) × Has table.now core t.0 × IsMarked marks.old.items t × Contains (core_children core) u) }
{
    if !marks[t.0 as usize] {
        return;
    }
    mark_children(table.core(t), marks);
}

// Marks the terms right under this one.
fn mark_children(core: &Core, marks: &mut Vec<bool>)
    requires below { HasArgumentsBelow (length marks.old.items) core.now }
    ensures marked { MarksToo marks.old.items marks.new.items (core_children core.now) }
{
    match core {
        Core::Con(_, args) => mark(marks, args.as_slice()),
        Core::Sel(_, t) => mark(marks, &[*t]),
        Core::Test(_, t) => mark(marks, &[*t]),
        Core::Apply(_, args) => mark(marks, args.as_slice()),
        Core::Eq(a, b) => mark(marks, &[*a, *b]),
        Core::Not(t) => mark(marks, &[*t]),
        Core::And(args) => mark(marks, args.as_slice()),
        Core::Or(args) => mark(marks, args.as_slice()),
        Core::Iff(a, b) => mark(marks, &[*a, *b]),
        Core::Ite(c, a, b) => mark(marks, &[*c, *a, *b]),
    }
}
