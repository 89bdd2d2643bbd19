//! The lists that represent the points of a graph and their children.
ghost use Rattle.std.specs.Prelude.{◌≡◌, ℕ, ◌+◌, ◌<◌, ◌≤◌, ◌↔◌, length, slice_index, All, IsTrue};
ghost use Rattle.ct_ordering.specs.Graph.{ArePoints};

/// Whether the lists give a graph: one start more than points, no start greater than the next, the last one the number of
/// kids, and each kid below the number of points. This is what `order` asks for. The time is linear.
pub fn are_points(starts: &[usize], kids: &[usize]) -> bool
    ensures points { IsTrue result ↔ ArePoints starts.now kids.now }
{
    if starts.len() == 0 {
        return false;
    }
    let count = starts.len() - 1;
    if starts[count] != kids.len() {
        return false;
    }
    are_rising(starts, count) && are_below(kids, count)
}

// Whether no number is greater than the next, as far as the number at `last`.
fn are_rising(numbers: &[usize], last: usize) -> bool
    requires within { last < length numbers.now }
    ensures rising { IsTrue result
        ↔ ((i : ℕ) → i < last → slice_index numbers.now i ≤ slice_index numbers.now (i + 1)) }
{
    for i in 0..last {
        if numbers[i] > numbers[i + 1] {
            return false;
        }
    }
    true
}

// Whether each number is below the bound.
fn are_below(numbers: &[usize], bound: usize) -> bool
    ensures below { IsTrue result ↔ All (λ n. n < bound) numbers.now }
{
    numbers.iter().all(|n| *n < bound)
}
