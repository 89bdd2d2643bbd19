//! The children of a point, in the lists that represent the points.
ghost use Rattle.std.specs.Prelude.{◌≡◌, ◌+◌, ◌<◌, ◌≤◌, length};
ghost use Rattle.std.specs.List.{slice_range};
ghost use Rattle.ct_partition.specs.Points.{points, ArePoints};

/// The children of the point, in order.
pub(crate) fn children_of<'a>(
    labels: &[u64],
    starts: &[usize],
    children: &'a [usize],
    i: usize,
) -> &'a [usize]
    requires formed { ArePoints labels.now starts.now children.now }
    requires within { i < length labels.now }
    ensures value { result.now ≡ (points labels.now starts.now children.now).children i }
{
    part(children, starts[i], starts[i + 1])
}

// The elements from one index up to another.
fn part(list: &[usize], start: usize, end: usize) -> &[usize]
    requires order { start ≤ end }
    requires within { end ≤ length list.now }
    ensures value { result.now ≡ slice_range list.now start end }
{
    &list[start..end]
}
