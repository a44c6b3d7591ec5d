//! Whether a text is another one in which FENCEs became others, or blanks.

ghost use Rattle.std.specs.Prelude.{◌≡◌, false};
ghost use Rattle.fs_litmus_tokens.specs.Bytes.{is_letter};
ghost use Rattle.fs_app_file_text.specs.Kept.{begins_words, is_inside, is_word_byte, keeps};

/// Letters, digits, `_` and `.`.
pub(crate) fn is_letter(byte: u8) -> bool
    ensures { result ≡ is_letter byte }
{
    byte.is_ascii_alphanumeric() || byte == b'_' || byte == b'.'
}

fn is_word_byte(byte: u8) -> bool
    ensures { result ≡ is_word_byte byte }
{
    is_letter(byte) || (byte == b',' || (byte == b' ' || byte == b'\t'))
}

fn begins_words(bytes: &[u8]) -> bool
    ensures { result ≡ begins_words bytes.now }
{
    match bytes.first() {
        Some(byte) => is_word_byte(*byte),
        None => false,
    }
}

/// Does a FENCE stand over the first byte, if `was` says so of the byte before?
fn is_inside(was: bool, bytes: &[u8]) -> bool
    ensures { result ≡ is_inside was bytes.now }
{
    bytes.starts_with(b"fence") || (was && begins_words(bytes))
}

/// Is each byte of the first text the same in the second one, but where FENCEs stand in it? Linear in the bytes.
pub fn keeps(old: &[u8], new: &[u8]) -> bool
    ensures { result ≡ keeps false old.now new.now }
{
    let mut rest = old;
    let mut others = new;
    let mut was = false;
    while let Some((first, after)) = rest.split_first() {
        let Some((other, later)) = others.split_first() else {
            return false;
        };
        was = is_inside(was, rest);
        if *first != *other && !(was && is_word_byte(*other)) {
            return false;
        }
        rest = after;
        others = later;
    }
    others.is_empty()
}
