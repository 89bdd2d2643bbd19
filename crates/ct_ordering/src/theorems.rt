//! The theorem about orders and cycles. It is the contract of a function that does nothing.
ghost use Rattle.std.specs.Prelude.{ℕ, List};
ghost use Rattle.ct_ordering.specs.declared.hop.Hop.{Hop};
ghost use Rattle.ct_ordering.specs.Graph.{Graph};
ghost use Rattle.ct_ordering.specs.Order.{IsOrder, IsCycle};

/// A graph that has a cycle has no topological order. It does nothing: a proof that needs the theorem calls it.
pub fn no_both()
    ensures no_both { (g : Graph) (list : List ℕ) (hops : List Hop)
        → IsOrder g list
        → IsCycle g hops
        → ⊥ }
{}
