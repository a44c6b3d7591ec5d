//! What the comments of a test file say that its test is expected to be.

ghost use Rattle.std.specs.Prelude.{◌≡◌, ◌≤◌, drop, length, option_map};
ghost use Rattle.std.specs.List.{prefix_len};
ghost use Rattle.fs_app_test.specs.Comments.{is_gap, past_gap, behind, is_only, kind_in, expected_at, says_at};
ghost use Rattle.fs_app_test.specs.Comments.{first_place, expected_of};

use crate::said::{Expected, Kind};

/// Is it a space, a tab or the end of a line?
fn is_gap(byte: u8) -> bool
    ensures { result ≡ is_gap byte }
{
    byte == b' ' || byte == b'\t' || byte == b'\r' || byte == b'\n'
}

/// How many of them stand at the front.
fn gap_len(bytes: &[u8]) -> usize
    ensures value { result ≡ prefix_len is_gap bytes.now }
    ensures within { result ≤ length bytes.now }
{
    for (i, byte) in bytes.iter().enumerate() {
        if !is_gap(*byte) {
            return i;
        }
    }
    bytes.len()
}

fn past_gap(bytes: &[u8]) -> &[u8]
    ensures { result.now ≡ past_gap bytes.now }
{
    &bytes[gap_len(bytes)..]
}

/// What stands behind this word at the front, and blanks behind it.
fn behind<'a>(text: &'a [u8], word: &[u8]) -> Option<&'a [u8]>
    ensures { option_map (λ rest. rest.now) result ≡ behind text.now word.now }
{
    if text.starts_with(word) {
        Some(past_gap(&text[word.len()..]))
    } else {
        None
    }
}

/// Stands this word at the front, and then the end of a comment?
fn is_only(text: &[u8], word: &[u8]) -> bool
    ensures { result ≡ is_only text.now word.now }
{
    match behind(text, word) {
        Some(rest) => rest.starts_with(b"*)"),
        None => false,
    }
}

fn kind_in(text: &[u8]) -> Expected
    ensures { result ≡ kind_in text.now }
{
    if is_only(text, b"forbidden") {
        Expected::Verdict(Kind::Forbidden)
    } else if is_only(text, b"allowed") {
        Expected::Verdict(Kind::Allowed)
    } else if is_only(text, b"vacuous") {
        Expected::Verdict(Kind::Vacuous)
    } else {
        Expected::Unclear
    }
}

/// What a comment says that begins with the first byte, where it says what is expected.
fn expected_at(text: &[u8]) -> Option<Expected>
    ensures { result ≡ expected_at text.now }
{
    let rest = behind(text, b"(*")?;
    let wanted = behind(rest, b"expect ")?;
    Some(kind_in(wanted))
}

/// Begins such a comment at this offset?
fn says_at(bytes: &[u8], at: usize) -> bool
    ensures { result ≡ says_at bytes.now at }
{
    expected_at(from(bytes, at)).is_some()
}

fn first_place(bytes: &[u8]) -> Option<usize>
    ensures { result ≡ first_place bytes.now }
{
    (0..bytes.len()).find(|at| says_at(bytes, *at))
}

/// The bytes from an offset on, none where there are fewer.
fn from(bytes: &[u8], at: usize) -> &[u8]
    ensures { result.now ≡ drop at bytes.now }
{
    if at < bytes.len() { &bytes[at..] } else { &[] }
}

/// What a test file says that its test is expected to be, by the first `(*` behind which `expect` and a space stand,
/// with blanks or none between them: this verdict, where `forbidden`, `allowed` or `vacuous` and `*)` follow, and else
/// `Unclear`. Nothing where it says nothing. Linear in the bytes.
pub fn expected_of(bytes: &[u8]) -> Option<Expected>
    ensures { result ≡ expected_of bytes.now }
{
    let at = first_place(bytes)?;
    expected_at(from(bytes, at))
}
