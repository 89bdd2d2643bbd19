//! The children of a point, in the lists that represent the graph.
ghost use Rattle.std.specs.Prelude.{◌≡◌, ◌+◌, ◌-◌, ◌<◌, ◌≤◌, length, slice_get};
ghost use Rattle.std.specs.List.{slice_range};
ghost use Rattle.ct_ordering.specs.Graph.{graph, ArePoints};

use crate::hop::Hop;

/// The point that the hop goes to, where its point has a kid at its place.
pub(crate) fn kid_at(starts: &[usize], kids: &[usize], hop: Hop) -> Option<usize>
    requires formed { ArePoints starts.now kids.now }
    requires within { hop.point < length starts.now - 1 }
    ensures value { result ≡ slice_get ((graph starts.now kids.now).kids hop.point) hop.place }
{
    let these = part(kids, starts[hop.point], starts[hop.point + 1]);
    item(these, hop.place)
}

// The element at this index, if there is one.
fn item(list: &[usize], index: usize) -> Option<usize>
    ensures value { result ≡ slice_get list.now index }
{
    list.get(index).copied()
}

// The elements from one index up to another.
fn part(list: &[usize], start: usize, end: usize) -> &[usize]
    requires order { start ≤ end }
    requires within { end ≤ length list.now }
    ensures value { result.now ≡ slice_range list.now start end }
{
    &list[start..end]
}
