//! Small words on operations and on their numbers.

ghost use Rattle.std.specs.Prelude.{◌≡◌, ◌||◌, Some};
ghost use Rattle.fs_model.specs.Forms.{is_amo, is_sc};
ghost use Rattle.fs_model.specs.Numbers.{is_same};

use fs_instr::Instr;

/// Are both numbers there, and are they the same?
pub(crate) fn is_same_number(first: Option<u8>, second: Option<u8>) -> bool
    ensures { result ≡ is_same first second }
{
    match first {
        Some(first) => second == Some(first),
        None => false,
    }
}

/// Is the source the operation of this number?
pub(crate) fn is_from(source: Option<u8>, number: usize) -> bool
    ensures { result ≡ is_same source (Some number) }
{
    match source {
        Some(source) => usize::from(source) == number,
        None => false,
    }
}

pub(crate) fn is_amo_or_sc(instr: Instr) -> bool
    ensures { result ≡ (is_amo instr || is_sc instr) }
{
    matches!(instr, Instr::Amo { .. } | Instr::Sc { .. })
}
