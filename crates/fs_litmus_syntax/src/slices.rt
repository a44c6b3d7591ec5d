//! Slices.

ghost use Rattle.std.specs.Prelude.{◌≡◌, drop};

/// The items after the first few, none where there are fewer.
pub(crate) fn skip<T>(items: &[T], count: usize) -> &[T]
    ensures { result.now ≡ drop count items.now }
{
    if count < items.len() {
        &items[count..]
    } else {
        &[]
    }
}
