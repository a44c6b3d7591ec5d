//! Whether a text is another one with lines put in, and labels moved.

ghost use Rattle.std.specs.Prelude.{◌≡◌, false, true};
ghost use Rattle.fs_litmus_tokens.specs.Bytes.{is_blank, is_letter, tail};
ghost use Rattle.fs_app_file_text.specs.Added.{adds, begins_colon, begins_label, goes_on, is_added_byte, is_new};
ghost use Rattle.fs_app_file_text.specs.Added.{is_same_line};

/// Letters, digits, `_` and `.`.
pub(crate) fn is_letter(byte: u8) -> bool
    ensures { result ≡ is_letter byte }
{
    byte.is_ascii_alphanumeric() || (byte == b'_' || byte == b'.')
}

fn is_blank(byte: u8) -> bool
    ensures { result ≡ is_blank byte }
{
    byte == b' ' || (byte == b'\t' || byte == b'\r')
}

fn is_added_byte(byte: u8) -> bool
    ensures { result ≡ is_added_byte byte }
{
    (is_letter(byte) || is_blank(byte))
        || (byte == b',' || (byte == b':' || (byte == b'|' || (byte == b';' || byte == b'\n'))))
}

/// Does a `:` come, past blanks?
fn begins_colon(bytes: &[u8]) -> bool
    ensures { result ≡ begins_colon bytes.now }
{
    let mut rest = bytes;
    while let Some((first, after)) = rest.split_first() {
        if *first == b':' {
            return true;
        }
        if !is_blank(*first) {
            return false;
        }
        rest = after;
    }
    false
}

/// Do letters come, and then a `:` past blanks?
fn begins_label(bytes: &[u8]) -> bool
    ensures { result ≡ begins_label bytes.now }
{
    let mut rest = bytes;
    while let Some((first, after)) = rest.split_first() {
        if !is_letter(*first) {
            return begins_colon(rest);
        }
        rest = after;
    }
    false
}

/// Does the label go on behind these bytes, of which one may have become the other?
fn goes_on(was: bool, byte: u8, other: u8) -> bool
    ensures { result ≡ goes_on was byte other }
{
    is_letter(byte) && (was || byte != other)
}

/// Are the first lines the same, but for labels of the old one that became blanks?
fn is_same_line(old: &[u8], new: &[u8]) -> bool
    ensures { result ≡ is_same_line false old.now new.now }
{
    let mut rest = old;
    let mut others = new;
    let mut was = false;
    while let Some((first, after)) = rest.split_first() {
        let Some((other, later)) = others.split_first() else {
            return false;
        };
        if *first != *other && !(*other == b' ' && (was || begins_label(rest))) {
            return false;
        }
        if *first == b'\n' {
            return true;
        }
        was = goes_on(was, *first, *other);
        rest = after;
        others = later;
    }
    others.is_empty()
}

/// Does the first byte stand in a new line, which it begins, or in which it stands if `skips` says so?
fn is_new(begins: bool, skips: bool, old: &[u8], new: &[u8]) -> bool
    ensures { result ≡ is_new begins skips old.now new.now }
{
    if begins {
        !is_same_line(old, new)
    } else {
        skips
    }
}

fn tail(bytes: &[u8]) -> &[u8]
    ensures { result.now ≡ tail bytes.now }
{
    match bytes.split_first() {
        Some((_, after)) => after,
        None => bytes,
    }
}

/// Is the second text the first one with lines put in? A line that isn't the next one of the first text is new, and has
/// words, blanks, `,`, `:`, `|` and `;` alone. Of the others each is as it was, but blanks may stand in the place of
/// labels. Linear in the second text, but for labels that are blank in part.
pub fn adds(old: &[u8], new: &[u8]) -> bool
    ensures { result ≡ adds true false old.now new.now }
{
    let mut rest = old;
    let mut others = new;
    let mut begins = true;
    let mut skips = false;
    while let Some((first, after)) = others.split_first() {
        skips = is_new(begins, skips, rest, others);
        if skips {
            if !is_added_byte(*first) {
                return false;
            }
        } else {
            rest = tail(rest);
        }
        begins = *first == b'\n';
        others = after;
    }
    rest.is_empty()
}
