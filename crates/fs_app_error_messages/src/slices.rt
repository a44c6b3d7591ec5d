//! Slices.

ghost use Rattle.std.specs.Prelude.{◌≡◌, drop, take};

/// The bytes from an offset on, none where there are fewer.
pub(crate) fn from(bytes: &[u8], at: usize) -> &[u8]
    ensures { result.now ≡ drop at bytes.now }
{
    if at < bytes.len() { &bytes[at..] } else { &[] }
}

/// The bytes up to an offset, all where there are fewer.
pub(crate) fn up_to(bytes: &[u8], end: usize) -> &[u8]
    ensures { result.now ≡ take end bytes.now }
{
    if end < bytes.len() {
        &bytes[..end]
    } else {
        bytes
    }
}
