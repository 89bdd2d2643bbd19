//! Which terms name only what is below a mark.
ghost use Rattle.std.specs.Prelude.{◌↔◌, ◌<◌, ◌≡◌, length, IfOk, IsTrue};
ghost use Rattle.std.specs.List.{AllByRecursion};
ghost use Rattle.ct_terms.specs.declared.ids.TermId.{TermId};
ghost use Rattle.ct_terms.specs.Children.{core_head, core_children};
ghost use Rattle.ct_terms.specs.CoreTree.{term_at};
ghost use Rattle.ct_restriction.specs.Restricted.{IsMarked};
ghost use Rattle.ct_kept.specs.Names.{IsHeadBelow, NamesBelow};

use ct_sorts::Mark;
use ct_terms::{Core, TermId, TermTable};
use std::alloc::{AllocError, Global};

/// For each term of the table whether it names only constructors, selectors and functions below the mark.
pub(crate) fn named(alloc: Global, table: &TermTable, mark: &Mark) -> Result<Vec<bool>, AllocError>
    ensures named { IfOk result (λ marks. (t : TermId) → IsMarked marks.items t ↔ ((t.0 < length table.now) × NamesBelow mark.now (term_at table.now t))) }
{
    let mut marks = Vec::new(alloc);
    for t in 0..table.len() {
        let named = is_named(mark, &marks, table.core(TermId(t)));
        marks.push(named)?;
    }
    Ok(marks)
}

// Whether the head of the term is below the mark, and the terms right under it are marked.
fn is_named(mark: &Mark, marks: &[bool], core: &Core) -> bool
    ensures named { IsTrue result ↔ (IsHeadBelow mark.now (core_head core.now) × AllByRecursion (IsMarked marks.now) (core_children core.now)) }
{
    if !is_head_below(mark, core) {
        return false;
    }
    are_under(marks, core)
}

// Whether the constructor, selector or function of the term is below the mark.
fn is_head_below(mark: &Mark, core: &Core) -> bool
    ensures below { IsTrue result ↔ IsHeadBelow mark.now (core_head core.now) }
{
    match core {
        Core::Con(c, _) => c.0 < mark.ctors(),
        Core::Sel(s, _) => s.0 < mark.sels(),
        Core::Test(c, _) => c.0 < mark.ctors(),
        Core::Apply(f, _) => f.0 < mark.funs(),
        _ => true,
    }
}

// Whether the terms right under this one are marked.
fn are_under(marks: &[bool], core: &Core) -> bool
    ensures marked { IsTrue result ↔ AllByRecursion (IsMarked marks.now) (core_children core.now) }
{
    match core {
        Core::Con(_, args) => are_marked(marks, args.as_slice()),
        Core::Sel(_, t) => are_marked(marks, &[*t]),
        Core::Test(_, t) => are_marked(marks, &[*t]),
        Core::Apply(_, args) => are_marked(marks, args.as_slice()),
        Core::Eq(a, b) => are_marked(marks, &[*a, *b]),
        Core::Not(t) => are_marked(marks, &[*t]),
        Core::And(args) => are_marked(marks, args.as_slice()),
        Core::Or(args) => are_marked(marks, args.as_slice()),
        Core::Iff(a, b) => are_marked(marks, &[*a, *b]),
        Core::Ite(c, a, b) => are_marked(marks, &[*c, *a, *b]),
    }
}

/// Whether these terms are marked.
pub(crate) fn are_marked(marks: &[bool], terms: &[TermId]) -> bool
    ensures marked { IsTrue result ↔ AllByRecursion (IsMarked marks.now) terms.now }
{
    for t in terms {
        if !is_marked(marks, *t) {
            return false;
        }
    }
    true
}

// Whether the term is marked.
fn is_marked(marks: &[bool], t: TermId) -> bool
    ensures marked { IsTrue result ↔ IsMarked marks.now t }
{
    let index = t.0 as usize;
    if index >= marks.len() {
        return false;
    }
    marks[index]
}
