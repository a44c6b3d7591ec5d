//! Texts between quotes.

ghost use Rattle.std.specs.Prelude.{◌≡◌, ◌<◌, ◌++◌, IfOk, OnOk, string_bytes};
ghost use Rattle.std.specs.List.{flat_map};
ghost use Rattle.fs_app_dot.specs.Quoted.{mark, quoted_byte, shown_byte};

use std::alloc::{AllocError, Global};

/// What stands between quotes for a byte that means something there, or that ends a line; for other bytes nothing.
fn mark(byte: u8) -> &'static str
    ensures { result.now ≡ mark byte }
{
    match byte {
        b'"' => "\\\"",
        b'\\' => "\\\\",
        b'&' => "&amp;",
        b'\n' => "\\n",
        _ => "",
    }
}

/// The character of any other byte.
fn shown_char(byte: u8) -> char
    ensures value { result ≡ shown_byte byte }
    ensures ascii { result < 128 }
{
    if byte >= 32 && byte < 127 {
        byte as char
    } else {
        '?'
    }
}

fn push_byte(text: &mut String, byte: u8) -> Result<(), AllocError>
    ensures { OnOk result (string_bytes text.new ≡ string_bytes text.old ++ quoted_byte byte) }
{
    let mark = mark(byte);
    if mark.is_empty() {
        text.push(shown_char(byte))
    } else {
        text.push_str(mark)
    }
}

/// The text as it stands between quotes. Linear in its bytes.
pub(crate) fn quoted(alloc: Global, text: &str) -> Result<String, AllocError>
    ensures { IfOk result (λ made. string_bytes made ≡ flat_map quoted_byte text.now) }
{
    let mut made = String::new(alloc);
    for byte in text.as_bytes() {
        push_byte(&mut made, *byte)?;
    }
    Ok(made)
}
