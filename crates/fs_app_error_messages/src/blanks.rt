//! Blanks over parts of a file.
#![tactic(auto, using(crate::proofs::Blanking::blanking))]

ghost use Rattle.fs_app_error_messages.specs.Faults.{IsBlank, IsBlanked};

use crate::spans::Span;

/// The byte that is written over this one: a blank, but for the end of a line, and for a byte of a longer character,
/// whose columns would be others.
fn blank_for(byte: u8) -> u8
    ensures { IsBlank byte result }
{
    if byte == b'\n' || !byte.is_ascii() {
        byte
    } else {
        b' '
    }
}

fn blank_byte(bytes: &mut [u8], at: usize)
    ensures { IsBlanked bytes.old bytes.new }
{
    if at < bytes.len() {
        bytes[at] = blank_for(bytes[at]);
    }
}

fn blank_span(bytes: &mut [u8], span: Span)
    ensures { IsBlanked bytes.old bytes.new }
{
    for at in span.start..span.end {
        blank_byte(bytes, at);
    }
}

/// Writes blanks over these bytes. Linear in them.
pub(crate) fn blank(bytes: &mut [u8], spans: &[Span])
    ensures { IsBlanked bytes.old bytes.new }
{
    for span in spans {
        blank_span(bytes, *span);
    }
}
