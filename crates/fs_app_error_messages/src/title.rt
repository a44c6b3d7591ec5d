//! Where the title of a test file and its tokens begin.

ghost use Rattle.std.specs.Prelude.{◌≡◌, ◌+◌, ◌-◌, ◌≤◌, ℕ, List, length, drop, IfSome, IsNone};
ghost use Rattle.fs_litmus.specs.Title.{HasBody};
ghost use Rattle.fs_app_error_messages.specs.Points.{title_start};

use fs_litmus::{skip_title, skip_top};

/// The offset at which the last of the bytes begin.
fn start_of(bytes: &[u8], last: &[u8]) -> usize
    ensures { result ≡ length bytes.now - length last.now }
{
    bytes.len().saturating_sub(last.len())
}

/// The offset at which the line begins that should be the title's.
pub(crate) fn title_start(bytes: &[u8]) -> usize
    ensures { result ≡ title_start bytes.now }
{
    start_of(bytes, skip_top(bytes).text)
}

/// The offset at which the block of initial values begins, with the tokens of a test file, and its line; nothing where
/// no line below the title's begins with `{` past its blanks. Linear in the bytes.
pub fn body_start(bytes: &[u8]) -> Option<(usize, usize)>
    ensures value { IfSome result (λ b. HasBody bytes.now (drop b.0 bytes.now) b.1) }
    ensures absent { IsNone result → (body : List ℕ) → (line : ℕ) → ¬ HasBody bytes.now body line }
    ensures within { IfSome result (λ b. b.0 ≤ length bytes.now) }
    ensures few { IfSome result (λ b. b.1 ≤ b.0 + 1) }
{
    let body = skip_title(bytes)?;
    Some((start_of(bytes, body.text), body.line))
}
