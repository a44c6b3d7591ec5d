//! Ends of slices.

ghost use Rattle.std.specs.Prelude.{◌≡◌, drop};

/// The items after so many, none where there are fewer.
pub(crate) fn from<T>(items: &[T], count: usize) -> &[T]
    ensures { result.now ≡ drop count items.now }
{
    if count < items.len() {
        &items[count..]
    } else {
        &[]
    }
}
