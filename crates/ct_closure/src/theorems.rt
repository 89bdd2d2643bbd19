//! Theorems about closed tables, by numbers. Each is the contract of a function that does nothing.
ghost use Rattle.std.specs.Prelude.{◌≡◌, ◌↔◌, ◌<◌, ℕ, List, [], length, take, Some, slice_get};
ghost use Rattle.ct_sorts.specs.declared.ids.SortId.{SortId};
ghost use Rattle.ct_sorts.specs.Consistent.{IsConsistent};
ghost use Rattle.ct_sorts.specs.Declarations.{Declarations, bool_sort};
ghost use Rattle.ct_sorts.specs.Grown.{Begins, Extends};
ghost use Rattle.ct_terms.specs.declared.ids.TermId.{TermId};
ghost use Rattle.ct_terms.specs.declared.term.Core.TheVariants.{Eq, Ite};
ghost use Rattle.ct_terms.specs.Terms.{Terms, AreSorted, AreOrdered, AreSingle};
ghost use Rattle.ct_terms.specs.CoreTree.{CoreTree, term_at};
ghost use Rattle.ct_closure.specs.Closed.{IsSplit};
ghost use Rattle.ct_closure.specs.Further.{BeginsClosed, IsClosureOver};
ghost use Rattle.ct_closure.specs.ClosedTable.{HasTree, IsClosedTable, IsPresent, IsSplitTerm, HasCases};

use crate::facts::trees;
use ct_sorts::growth;

/// Theorems on closed tables, for making clauses or values for their terms. The function does nothing.
pub fn closed_tables()
    // The equations of a conditional that is no formula with both of its branches are there.
    ensures conditionals { (d : Declarations) (table : Terms) (t c a b : TermId) (sort : SortId)
        → AreOrdered table
        → AreSingle table
        → AreSorted d table
        → IsClosedTable d table
        → slice_get table t.0 ≡ Some (Ite c a b, sort)
        → (sort ≡ bool_sort → ⊥)
        → IsPresent table (Eq t a) × IsPresent table (Eq t b) }

    // For a term that is split and each constructor of its sort, the test, the fields and the
    // constructor term over them are there.
    ensures splits { (d : Declarations) (table : Terms) (t : TermId) (sort : SortId)
        → AreOrdered table
        → AreSingle table
        → AreSorted d table
        → IsClosedTable d table
        → IsSplitTerm d table t sort
        → HasCases d table t sort }

    // A term is split where its tree is, among the trees of the table.
    ensures split { (d : Declarations) (table : Terms) (t : TermId) (sort : SortId)
        → AreOrdered table
        → AreSingle table
        → AreSorted d table
        → t.0 < length table
        → IsSplitTerm d table t sort ↔ IsSplit d (HasTree table) (term_at table t) sort }
{
    trees();
}

/// The theorem on which closing begins, for whoever calls `close_further`. The function does nothing.
pub fn nothing_closed()
    // No terms are the closure of no roots.
    ensures nothing { (d : Declarations) (table : Terms) → IsConsistent d → BeginsClosed d d [] table 0 [] }
{
    growth();
}

/// The theorems on closed beginnings of tables, for whoever keeps a closed table between calls of `close_further`. The
/// function does nothing.
pub fn closed_beginnings()
    // What begins with a closed table begins so, and goes on to where terms are added.
    ensures begins { (later earlier : Declarations) (roots : List CoreTree) (table longer : Terms) (split : List TermId) → IsConsistent earlier → Extends later earlier
        → Begins table longer → IsClosureOver earlier roots table split → BeginsClosed later earlier roots longer (length table) split }
    ensures longer { (later earlier : Declarations) (roots : List CoreTree) (table longer : Terms) (closed : ℕ) (split : List TermId) → Begins table longer
        → BeginsClosed later earlier roots table closed split → BeginsClosed later earlier roots longer closed split }

    // Cut to their lengths before, the table and the split terms are the closure that they were.
    ensures cut { (later earlier : Declarations) (roots : List CoreTree) (table longer : Terms) (closed : ℕ) (split after : List TermId)
        → BeginsClosed later earlier roots table closed split → Begins table longer → Begins split after
        → IsClosureOver earlier roots (take closed longer) (take (length split) after) }
{}
