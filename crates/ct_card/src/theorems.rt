//! Theorems about sizes and values of sorts. Each is the contract of a function that does nothing.
ghost use Rattle.std.specs.Prelude.{◌≡◌, ℕ, ◌⊎◌, ◌<◌, ◌↔◌, length};
ghost use Rattle.ct_sorts.specs.declared.ids.SortId.{SortId};
ghost use Rattle.ct_sorts.specs.Declarations.{Declarations};
ghost use Rattle.ct_sorts.specs.Consistent.{IsConsistent};
ghost use Rattle.ct_sorts.specs.Grown.{Extends};
ghost use Rattle.ct_card.specs.declared.size.Size.{Size};
ghost use Rattle.ct_card.specs.Cardinality.{HasSize, IsSingle, IsInfinite};
ghost use Rattle.ct_card.specs.Sizes.{Table};
ghost use Rattle.ct_card.specs.Nth.{IsNth};
ghost use Rattle.ct_values.specs.Graph.{Nodes};
ghost use Rattle.ct_values.specs.Value.{Value};
ghost use Rattle.ct_values.specs.Agreement.{Point, point, AgreeAlways};
ghost use Rattle.ct_values.specs.Fitting.{FitsGraph};
ghost use Rattle.ct_values.specs.ValueSort.{HasValueSort};

use ct_sorts::structure;
use ct_values::{agreement, well_sorted_values};

/// The theorem of sizes. It does nothing: a proof that needs it calls it.
pub fn unique_sizes()
    // No sort has two sizes.
    ensures one { (d : Declarations) (s : ℕ) (a b : Size) → HasSize d s a → HasSize d s b → a ≡ b }
{}

/// The theorem of sorts with one value. It does nothing: a proof that needs it calls it.
pub fn single_sorts()
    // Two values of a single sort, each over its own graph, are the same.
    ensures same { (d : Declarations) (g h : Nodes) (v w : Value) (s : SortId)
        → IsConsistent d
        → FitsGraph d g
        → FitsGraph d h
        → IsSingle d s.0
        → HasValueSort d g v s
        → HasValueSort d h w s
        → AgreeAlways (point g v) (point h w) }
{
    structure();
    agreement();
    well_sorted_values();
}

/// The theorem of n-th values. It does nothing: a proof that needs it calls it.
pub fn different_values()
    // Values of a sort for different numbers are not the same, each over its own graph.
    ensures different { (d : Declarations) (table : Table) (s m n : ℕ) (p q : Point)
        → IsNth d table s m p
        → IsNth d table s n q
        → AgreeAlways p q
        → m ≡ n }

    // What is the same as the n-th value is the n-th value, as it is in a longer graph.
    ensures same { (d : Declarations) (table : Table) (s n : ℕ) (p q : Point)
        → IsNth d table s n p
        → AgreeAlways p q
        → IsNth d table s n q }

    // No infinite sort has one value.
    ensures several { (d : Declarations) (s : ℕ) → IsInfinite d s → IsSingle d s → ⊥ }
{
    agreement();
}

/// The theorem of sizes where more is declared. It does nothing: a proof that needs it calls it.
pub fn stable_sizes()
    // A sort has one size in the earlier declarations and in the later ones.
    ensures stays { (later earlier : Declarations) (s : ℕ) (size : Size) → IsConsistent earlier → Extends later earlier
        → s < length earlier.sorts → HasSize earlier s size ↔ HasSize later s size }
{
    structure();
}
