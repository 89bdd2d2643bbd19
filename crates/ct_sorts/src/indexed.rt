//! An item by its index.
ghost use Rattle.std.specs.Prelude.{◌≡◌, Some, None, slice_get, IfSome, IfNone};

/// The item at an index, if there is one.
pub(crate) fn item_at<T>(items: &[T], index: usize) -> Option<&T>
    ensures some { IfSome result (λ item. slice_get items.now index ≡ Some item.now) }
    ensures none { IfNone result (slice_get items.now index ≡ None) }
{
    if index < items.len() {
        return Some(&items[index]);
    }
    None
}
