//! Theorems about texts of values. Each is the contract of a function that does nothing.
ghost use Rattle.std.specs.Prelude.{◌≡◌, ◌↔◌, ℕ, List};
ghost use Rattle.ct_sorts.specs.Declarations.{Declarations};
ghost use Rattle.ct_sorts.specs.declared.ids.SortId.{SortId};
ghost use Rattle.ct_sorts.specs.Consistent.{IsConsistent};
ghost use Rattle.ct_values.specs.declared.node.NodeId.{NodeId};
ghost use Rattle.ct_values.specs.Graph.{Nodes};
ghost use Rattle.ct_values.specs.Agreement.{node_point, AgreeAlways};
ghost use Rattle.ct_values.specs.Minimal.{IsMinimal};
ghost use Rattle.ct_values.specs.Fitting.{FitsGraph, HasNodeSort};
ghost use Rattle.ct_value_text.specs.ValueText.{IsValueText};

use ct_sexpr::written_texts;

/// The theorems on texts of values. It does nothing: a proof that needs them calls it.
pub fn value_texts()
    // The minimal graph of a tree fits the declarations where the tree's graph does.
    ensures minimal_fits { (d : Declarations) (g : Nodes) (root : NodeId) (h : Nodes)
        → FitsGraph d g
        → IsMinimal g root h
        → FitsGraph d h }

    // Two nodes of one sort, each in its own graph, have one text exactly where they are equal values.
    ensures one { (d : Declarations) (g h : Nodes) (a b : NodeId) (s : SortId) (x y : List ℕ)
        → IsConsistent d
        → FitsGraph d g
        → FitsGraph d h
        → HasNodeSort d g a s
        → HasNodeSort d h b s
        → IsValueText d g a x
        → IsValueText d h b y
        → (x ≡ y) ↔ AgreeAlways (node_point g a) (node_point h b) }
{
    written_texts();
}
