//! How the forest of some classes relates to that of earlier or later classes. Each theorem is the contract of a function that
//! does nothing.
ghost use Rattle.std.specs.Prelude.{◌≡◌, ◌≤◌, length, take};
ghost use Rattle.ct_congr.specs.State.{State};
ghost use Rattle.ct_explain.specs.Trees.{Planted, IsForestOfFirst, IsForestOfClasses};

/// Theorems on forests: a forest of all merges is a forest of the first ones; and a forest of the first merges of some
/// classes is one of the first merges of any others over the same terms that begin with these merges.
pub fn forests()
    ensures all { (state : State) (planted : Planted) → IsForestOfClasses state planted → IsForestOfFirst state planted }
    ensures alike { (state other : State) (planted : Planted)
        → other.terms ≡ state.terms
        → planted.count ≤ length other.merges
        → take planted.count other.merges ≡ take planted.count state.merges
        → IsForestOfFirst state planted
        → IsForestOfFirst other planted }
{}
