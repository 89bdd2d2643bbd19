//! Theorems about listable sorts and their values. Each is the contract of a function that does nothing.
ghost use Rattle.std.specs.Prelude.{◌≡◌, true, ℕ, ◌<◌, ◌↔◌, List, All, Contains, length, map, Some, slice_get};
ghost use Rattle.std.specs.List.{AllZip};
ghost use Rattle.ct_sorts.specs.declared.ids.CtorId.{CtorId};
ghost use Rattle.ct_sorts.specs.declared.ids.Kind.TheVariants.{Free};
ghost use Rattle.ct_sorts.specs.declared.ids.SortId.{SortId};
ghost use Rattle.ct_sorts.specs.Declarations.{Declarations, Sort, IsSort};
ghost use Rattle.ct_sorts.specs.Consistent.{IsConsistent};
ghost use Rattle.ct_sorts.specs.Grown.{Extends};
ghost use Rattle.ct_values.specs.Graph.{Nodes};
ghost use Rattle.ct_values.specs.Value.{Value};
ghost use Rattle.ct_values.specs.Agreement.{point, AgreeAlways};
ghost use Rattle.ct_values.specs.Fitting.{FitsGraph};
ghost use Rattle.ct_values.specs.ValueSort.{HasValueSort};
ghost use Rattle.ct_terms.specs.CoreSorts.{HasTreeSort};
ghost use Rattle.ct_listing.specs.Closed.{ClosedValue, IsClosedOf, value_of, term_of};
ghost use Rattle.ct_listing.specs.Listable.{IsListable, field_sorts, is_listable};
ghost use Rattle.ct_listing.specs.Listing.{built_of, choices, listed};

use ct_sorts::structure;
use ct_values::{agreement, well_sorted_values};

/// Theorems on listable sorts, for statements about all of their values. The function does nothing.
pub fn listed_values()
    // The listable sorts are those that are not uninterpreted and all of whose constructors have only fields of listable
    // sorts.
    ensures built { (d : Declarations) (s : SortId) (sort : Sort)
        → slice_get d.sorts s.0 ≡ Some sort
        → (sort.kind ≡ Free → ⊥)
        → ((c : CtorId) (field : SortId) → Contains sort.ctors c → Contains (field_sorts d c) field → IsListable d field)
        → IsListable d s }
    ensures parts { (d : Declarations) (s : SortId)
        → IsListable d s
        → (sort : Sort) × (slice_get d.sorts s.0 ≡ Some sort) × (sort.kind ≡ Free → ⊥)
        × ((c : CtorId) (field : SortId) → Contains sort.ctors c → Contains (field_sorts d c) field → IsListable d field) }
    ensures tested { (d : Declarations) (s : SortId)
        → (is_listable d s ≡ true) ↔ IsListable d s }

    // The list of a listable sort is made of the lists of its fields' sorts, and has all closed values of the sort and no
    // others. It is not empty.
    ensures unfolds { (d : Declarations) (s : SortId)
        → IsListable d s
        → listed d s ≡ built_of d (listed d) s }
    ensures exact { (d : Declarations) (s : SortId) (v : ClosedValue)
        → IsConsistent d
        → IsListable d s
        → Contains (listed d s) v ↔ IsClosedOf d v s }
    ensures some { (d : Declarations) (s : SortId)
        → IsConsistent d
        → IsListable d s
        → 0 < length (listed d s) }

    // The choices of an entry from the list of each of several sorts are the lists of closed values of these sorts.
    ensures choices { (d : Declarations) (sorts : List SortId) (vs : List ClosedValue)
        → IsConsistent d
        → All (IsListable d) sorts
        → Contains (choices (map (listed d) sorts)) vs ↔ AllZip (IsClosedOf d) vs sorts }

    // No two entries are the same value, over any graphs.
    ensures different { (d : Declarations) (s : SortId) (i j : ℕ) (v w : ClosedValue) (g h : Nodes)
        → IsConsistent d
        → slice_get (listed d s) i ≡ Some v
        → slice_get (listed d s) j ≡ Some w
        → AgreeAlways (point g (value_of v)) (point h (value_of w))
        → i ≡ j }

    // Every value of a listable sort is the same as an entry.
    ensures every { (d : Declarations) (g h : Nodes) (v : Value) (s : SortId)
        → IsConsistent d
        → FitsGraph d g
        → IsListable d s
        → HasValueSort d g v s
        → (w : ClosedValue) × Contains (listed d s) w × AgreeAlways (point g v) (point h (value_of w)) }

    // A closed value has its sort as a value and as a term.
    ensures value { (d : Declarations) (g : Nodes) (v : ClosedValue) (s : SortId)
        → IsClosedOf d v s
        → HasValueSort d g (value_of v) s }
    ensures term { (d : Declarations) (v : ClosedValue) (s : SortId)
        → IsClosedOf d v s
        → HasTreeSort d (term_of v) s }

    // A listable sort stays so with more declarations, and keeps its list. With more declarations no other sort becomes listable.
    ensures lasting { (later earlier : Declarations) (s : SortId)
        → IsConsistent earlier
        → Extends later earlier
        → IsListable earlier s
        → IsListable later s }
    ensures back { (later earlier : Declarations) (s : SortId)
        → IsConsistent earlier
        → Extends later earlier
        → IsSort earlier s
        → IsListable later s
        → IsListable earlier s }
    ensures longer { (later earlier : Declarations) (s : SortId)
        → IsConsistent earlier
        → Extends later earlier
        → IsListable earlier s
        → listed later s ≡ listed earlier s }
{
    structure();
    agreement();
    well_sorted_values();
}
