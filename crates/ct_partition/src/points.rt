//! The lists that represent labelled points with ordered children.
ghost use Rattle.std.specs.Prelude.{◌≡◌, ℕ, ◌+◌, ◌<◌, ◌≤◌, ◌↔◌, length, slice_index, All, IsTrue};
ghost use Rattle.ct_partition.specs.Points.{ArePoints};

/// Whether the lists give points: one start more than labels, no start greater than the next, the last one the
/// number of children, and each child below the number of labels. This is what `coarsest` asks for. The time is
/// linear.
pub fn are_points(labels: &[u64], starts: &[usize], children: &[usize]) -> bool
    ensures points { IsTrue result ↔ ArePoints labels.now starts.now children.now }
{
    let count = labels.len();
    if starts.len() == 0 || starts.len() - 1 != count {
        return false;
    }
    if starts[count] != children.len() {
        return false;
    }
    are_rising(starts, count) && are_below(children, count)
}

// Whether no number is greater than the next, as far as the number at `last`.
fn are_rising(numbers: &[usize], last: usize) -> bool
    requires within { last < length numbers.now }
    ensures rising { IsTrue result
        ↔ ((i : ℕ) → i < last → slice_index numbers.now i ≤ slice_index numbers.now (i + 1)) }
{
    for i in 0..last {
        if numbers[i] > numbers[i + 1] {
            return false;
        }
    }
    true
}

// Whether each number is below the bound.
fn are_below(numbers: &[usize], bound: usize) -> bool
    ensures below { IsTrue result ↔ All (λ n. n < bound) numbers.now }
{
    numbers.iter().all(|n| *n < bound)
}
