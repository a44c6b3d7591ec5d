//! What stands before a place of a list, and what from there on.

ghost use Rattle.std.specs.Prelude.{◌≡◌, drop, take};

/// The first items, so many, or all where there are fewer.
pub fn before<T>(items: &[T], count: usize) -> &[T]
    ensures { result.now ≡ take count items.now }
{
    if count < items.len() {
        &items[..count]
    } else {
        items
    }
}

/// The items after them.
pub fn from<T>(items: &[T], count: usize) -> &[T]
    ensures { result.now ≡ drop count items.now }
{
    if count < items.len() {
        &items[count..]
    } else {
        &[]
    }
}
