//! The name of a site.

ghost use Rattle.std.specs.Prelude.{◌≡◌, take};
ghost use Rattle.std.specs.Str.{IsCharBoundary};
ghost use Rattle.fs_litmus.specs.SiteName.{is_copy_byte, stem, site_name};

/// May it stand behind a site's name?
fn is_copy_byte(byte: u8) -> bool
    ensures { result ≡ is_copy_byte byte }
{
    byte.is_ascii_digit() || byte == b'_'
}

/// How many bytes stand before the digits and `_` at the end.
fn stem_len(word: &str) -> usize
    ensures value { take result word.now ≡ stem word.now }
    ensures boundary { IsCharBoundary word.now result }
{
    let bytes = word.as_bytes();
    let mut len = bytes.len();
    while len > 0 {
        if !is_copy_byte(bytes[len - 1]) {
            return len;
        }
        len -= 1;
    }
    0
}

/// The site that a label names: its word without the digits and `_` at its end, or all of it where nothing else is
/// there.
pub(crate) fn site_name(word: &str) -> &str
    ensures { result.now ≡ site_name word.now }
{
    let len = stem_len(word);
    if len == 0 { word } else { &word[..len] }
}
