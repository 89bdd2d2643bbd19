//! Values of infinite sorts that were made before, each at a place that is computed from its sort and its number: a later one
//! may have overwritten it.
ghost use Rattle.std.specs.Prelude.{◌≡◌, ℕ, ◌<◌, ◌⊎◌, List, length, Option, Some};
ghost use Rattle.ct_values.specs.declared.node.NodeId.{NodeId};
ghost use Rattle.ct_card.specs.Made.{IsMade};

use ct_values::NodeId;

/// A value that was made.
#[derive(Clone, Copy, Debug)]
pub(crate) struct Made {
    pub(crate) sort: usize,
    /// Its number among the values of the sort.
    pub(crate) number: u64,
    pub(crate) node: NodeId,
}

/// The node of the value with this number of the sort, if that stands in its place.
pub(crate) fn find_made(made: &[Option<Made>], s: usize, n: u64) -> Option<NodeId>
    ensures made { (k : NodeId) → result ≡ Some k → IsMade made.now s n k }
{
    if made.is_empty() {
        return None;
    }
    node_of(made[place_of(made.len(), s, n)], s, n)
}

// The node of a value, if it is the one with this number of the sort.
fn node_of(found: Option<Made>, s: usize, n: u64) -> Option<NodeId>
    ensures made { (k : NodeId) → result ≡ Some k → found ≡ Some (record { sort = s; number = n; node = k }) }
{
    let value = found?;
    if value.sort != s {
        return None;
    }
    if value.number != n {
        return None;
    }
    Some(value.node)
}

/// Puts the value with this number of the sort into its place, if there are places.
pub(crate) fn store_made(made: &mut Vec<Option<Made>>, s: usize, n: u64, node: NodeId)
    ensures stored { (t m : ℕ) (k : NodeId) → IsMade made.new.items t m k
        → IsMade made.old.items t m k ⊎ ((t ≡ s) × (m ≡ n) × (k ≡ node)) }
{
    if made.is_empty() {
        return;
    }
    let place = place_of(made.len(), s, n);
    made[place] = Some(Made {
        sort: s,
        number: n,
        node,
    });
}

// The place of a value among so many: values of one sort with numbers in a row have places in a row.
fn place_of(places: usize, s: usize, n: u64) -> usize
    requires some { 0 < places }
    ensures within { result < places }
{
    let number = n.wrapping_add((s as u64).wrapping_mul(7919));
    (number % places as u64) as usize
}
