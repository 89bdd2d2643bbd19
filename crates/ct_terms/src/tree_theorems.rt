//! Theorems about terms as trees.
ghost use Rattle.std.specs.Prelude.{◌≡◌, ◌<◌, ◌≤◌, ◌∷◌, ◌++◌, Contains, length, map, Some, slice_get};
ghost use Rattle.std.specs.List.{flat_map};
ghost use Rattle.ct_sorts.specs.declared.ids.SortId.{SortId};
ghost use Rattle.ct_sorts.specs.Declarations.{Declarations};
ghost use Rattle.ct_sorts.specs.Grown.{Extends};
ghost use Rattle.ct_terms.specs.declared.ids.TermId.{TermId};
ghost use Rattle.ct_terms.specs.declared.term.Core.{Core};
ghost use Rattle.ct_terms.specs.Children.{HasArgumentsBelow, core_head, core_children};
ghost use Rattle.ct_terms.specs.Terms.{Terms, IsOfSort, Has, AreSorted as AreSortedTerms, AreOrdered, AreSingle};
ghost use Rattle.ct_terms.specs.CoreTree.{CoreTree, tree_head, tree_children, subtrees, tree_layer, term_at};
ghost use Rattle.ct_terms.specs.CoreSorts.{HasTreeSort, tree_sort};

/// Theorems on terms as trees, for statements about terms without their table. The function does nothing.
pub fn core_trees()
    // What stands at a number is one layer over the trees of the terms right under it.
    ensures unfolds { (table : Terms) (t : TermId) (core : Core) (sort : SortId)
        → AreOrdered table
        → slice_get table t.0 ≡ Some (core, sort)
        → term_at table t ≡ tree_layer (term_at table) core }

    // A layer has the head of the term, and under it the trees of the terms right under the term.
    ensures head { (tree : TermId → CoreTree) (core : Core)
        → tree_head (tree_layer tree core) ≡ core_head core }
    ensures children { (tree : TermId → CoreTree) (core : Core)
        → tree_children (tree_layer tree core) ≡ map tree (core_children core) }

    // Two numbers of one tree are one number.
    ensures one { (table : Terms) (s t : TermId)
        → AreOrdered table
        → AreSingle table
        → s.0 < length table
        → t.0 < length table
        → term_at table s ≡ term_at table t
        → s ≡ t }

    // A term whose tree is one layer over trees of the table is the term of that layer.
    ensures stands { (table : Terms) (t : TermId) (core : Core)
        → AreOrdered table
        → AreSingle table
        → t.0 < length table
        → HasArgumentsBelow (length table) core
        → term_at table t ≡ tree_layer (term_at table) core
        → Has table core t.0 }

    // A tree stays as the table grows.
    ensures longer { (table more : Terms) (t : TermId)
        → AreOrdered (table ++ more)
        → t.0 < length table
        → term_at (table ++ more) t ≡ term_at table t }

    // The subterms of a tree are itself and those of the trees right under it. Those of a term of
    // the table are terms of the table, with numbers that are not greater.
    ensures subterms { (t : CoreTree) → subtrees t ≡ t ∷ flat_map subtrees (tree_children t) }
    ensures subterms_stand { (table : Terms) (t : TermId) (s : CoreTree)
        → AreOrdered table
        → t.0 < length table
        → Contains (subtrees (term_at table t)) s
        → (u : TermId) × (u.0 ≤ t.0) × (term_at table u ≡ s) }

    // The subterms of a subterm are subterms, and those of a well-sorted tree are well sorted.
    ensures subterms_of_subterms { (t s u : CoreTree)
        → Contains (subtrees t) s
        → Contains (subtrees s) u
        → Contains (subtrees t) u }
    ensures subterms_sorted { (d : Declarations) (t : CoreTree) (sort : SortId) (s : CoreTree)
        → HasTreeSort d t sort
        → Contains (subtrees t) s
        → (r : SortId) × HasTreeSort d s r }

    // A tree has one sort at most, the one read off it; it keeps the sort with more declarations.
    ensures read { (d : Declarations) (t : CoreTree) (sort : SortId)
        → HasTreeSort d t sort
        → tree_sort d t ≡ sort }
    ensures one_sort { (d : Declarations) (t : CoreTree) (r s : SortId)
        → HasTreeSort d t r
        → HasTreeSort d t s
        → r ≡ s }
    ensures lasting { (later earlier : Declarations) (t : CoreTree) (sort : SortId)
        → Extends later earlier
        → HasTreeSort earlier t sort
        → HasTreeSort later t sort }

    // In a well-sorted table the tree of a term has the sort of the term.
    ensures sorted { (d : Declarations) (table : Terms) (t : TermId) (sort : SortId)
        → AreOrdered table
        → AreSortedTerms d table
        → IsOfSort table t sort
        → HasTreeSort d (term_at table t) sort }
{}
