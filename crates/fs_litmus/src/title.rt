//! What stands before the tokens of a test file: comments, the title's line, and doc text.

ghost use Rattle.std.specs.Prelude.{◌≡◌, ℕ, List, ◌+◌, ◌<◌, ◌≤◌, ◌^◌, ◌++◌, length, IfSome, IsNone, option_map};
ghost use Rattle.std.specs.List.{prefix_len, list_all};
ghost use Rattle.fs_litmus_tokens.specs.Bytes.{is_blank, begins};
ghost use Rattle.fs_litmus.specs.Title.{last_line, is_within_line, line_of, after_line, unindented, ends_in_blank};
ghost use Rattle.fs_litmus.specs.Title.{begins_with_blank, top_of, IsTrimmed, IsTitled, HasTitle, IsBody, HasBody};

/// A part of a file up to its end, and the number of the line that it begins in.
#[derive(Clone, Copy)]
pub struct Body<'a> {
    pub text: &'a [u8],
    pub line: usize,
}

fn is_blank(byte: u8) -> bool
    ensures { result ≡ is_blank byte }
{
    byte == b' ' || byte == b'\t' || byte == b'\r'
}

/// How many bytes stand before the first LF.
fn line_len(bytes: &[u8]) -> usize
    ensures value { result ≡ prefix_len is_within_line bytes.now }
    ensures within { result ≤ length bytes.now }
{
    for (i, byte) in bytes.iter().enumerate() {
        if *byte == b'\n' {
            return i;
        }
    }
    bytes.len()
}

/// The bytes of the first line, without its LF.
fn line_of(bytes: &[u8]) -> &[u8]
    ensures { result.now ≡ line_of bytes.now }
{
    &bytes[..line_len(bytes)]
}

/// What comes after the first line; nothing where there is no LF.
fn after_line(bytes: &[u8]) -> Option<&[u8]>
    ensures value { option_map (λ x. x.now) result ≡ after_line bytes.now }
    ensures shorter { IfSome result (λ x. length x.now < length bytes.now) }
{
    let mut rest = bytes;
    while let Some((first, after)) = rest.split_first() {
        if *first == b'\n' {
            return Some(after);
        }
        rest = after;
    }
    None
}

/// How many blanks stand at the front.
fn blanks(bytes: &[u8]) -> usize
    ensures value { result ≡ prefix_len is_blank bytes.now }
    ensures within { result ≤ length bytes.now }
{
    for (i, byte) in bytes.iter().enumerate() {
        if !is_blank(*byte) {
            return i;
        }
    }
    bytes.len()
}

/// Without the blanks at the front.
fn unindented(bytes: &[u8]) -> &[u8]
    ensures value { result.now ≡ unindented bytes.now }
    ensures shorter { length result.now ≤ length bytes.now }
{
    &bytes[blanks(bytes)..]
}

/// Without the blanks at both ends.
fn trimmed(line: &[u8]) -> &[u8]
    ensures { IsTrimmed line.now result.now }
{
    let mut text = unindented(line);
    while let Some((last, before)) = text.split_last() {
        if !is_blank(*last) {
            return text;
        }
        text = before;
    }
    text
}

fn begins(c: u8, bytes: &[u8]) -> bool
    ensures { result ≡ begins c bytes.now }
{
    match bytes.first() {
        Some(byte) => *byte == c,
        None => false,
    }
}

/// The title's line and all below it: what stands below the lines at the top that have nothing but blanks and comments.
/// A comment may go over several lines. Linear in the bytes.
pub fn skip_top(bytes: &[u8]) -> Body<'_>
    ensures value { (result.text.now, result.line) ≡ top_of bytes.now }
    ensures room { result.line + length result.text.now ≤ length bytes.now + 1 }
{
    let mut text = bytes;
    let mut at = 1;
    let mut rest = bytes;
    let mut line = 1;
    let mut depth: usize = 0;
    let mut is_second = false;
    while let Some((first, after)) = rest.split_first() {
        rest = after;
        if is_second {
            is_second = false;
        } else if *first == b'\n' {
            line += 1;
            if depth == 0 {
                text = after;
                at = line;
            }
        } else if *first == b'(' && begins(b'*', after) {
            depth += 1;
            is_second = true;
        } else if depth == 0 {
            if !is_blank(*first) {
                return Body { text, line: at };
            }
        } else if *first == b'*' && begins(b')', after) {
            depth -= 1;
            is_second = true;
        }
    }
    Body { text, line: at }
}

/// The name that the first line gives, as bytes.
fn name_of(text: &[u8]) -> Option<&[u8]>
    ensures named { IfSome result (λ name. IsTitled text.now name.now) }
    ensures absent { IsNone result → (name : List ℕ) → ¬ IsTitled text.now name }
{
    let words = line_of(text).strip_prefix(b"RISCV")?;
    let (blank, rest) = words.split_first()?;
    if !is_blank(*blank) {
        return None;
    }
    let name = trimmed(rest);
    if name.is_empty() { None } else { Some(name) }
}

/// The test's name, as bytes.
fn title_of(bytes: &[u8]) -> Option<&[u8]>
    ensures named { IfSome result (λ name. HasTitle bytes.now name.now) }
    ensures absent { IsNone result → (name : List ℕ) → ¬ HasTitle bytes.now name }
{
    name_of(skip_top(bytes).text)
}

/// The test's name: what follows `RISCV` and a blank in the first line that has more than blanks and comments, blanks
/// cut off at both ends; nothing where that is no such line.
pub fn read_title(text: &str) -> Option<&str>
    ensures named { IfSome result (λ name. HasTitle text.now name.now) }
    ensures absent { IsNone result → (name : List ℕ) → ¬ HasTitle text.now name }
{
    // Cut out between ASCII characters, the name is UTF-8 too.
    str::from_utf8(title_of(text.as_bytes())?).ok()
}

/// The block of initial values and what comes after it, in a text whose first byte stands in line `line`; nothing where
/// no line begins with `{` past its blanks.
pub fn find_body(bytes: &[u8], line: usize) -> Option<Body<'_>>
    requires { line + length bytes.now < 2 ^ 64 }
    ensures value { IfSome result (λ b. IsBody bytes.now line b.text.now b.line) }
    ensures absent { IsNone result → (body : List ℕ) → (at : ℕ) → ¬ IsBody bytes.now line body at }
    ensures room { IfSome result (λ b. b.line + length b.text.now ≤ line + length bytes.now) }
{
    let mut rest = bytes;
    let mut at = line;
    loop {
        let text = unindented(rest);
        if begins(b'{', text) {
            return Some(Body { text, line: at });
        }
        rest = after_line(rest)?;
        at += 1;
    }
}

/// The block of initial values and what comes after it, and its line; nothing where no line below the title's begins
/// with `{` past its blanks. Linear in the bytes.
pub fn skip_title(bytes: &[u8]) -> Option<Body<'_>>
    ensures value { IfSome result (λ b. HasBody bytes.now b.text.now b.line) }
    ensures absent { IsNone result → (body : List ℕ) → (line : ℕ) → ¬ HasBody bytes.now body line }
    ensures room { IfSome result (λ b. b.line + length b.text.now < 2 ^ 64) }
{
    let top = skip_top(bytes);
    let below = after_line(top.text)?;
    find_body(below, top.line + 1)
}

/// The number of the last line; an LF at the end of the text begins none.
pub fn last_line(bytes: &[u8]) -> usize
    ensures { result ≡ last_line bytes.now }
{
    let ended = &bytes[..bytes.len().saturating_sub(1)];
    ended.iter().filter(|byte| **byte == b'\n').count() + 1
}
