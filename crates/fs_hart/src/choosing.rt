//! The choices that a hart has at an instruction.

ghost use Rattle.std.specs.Prelude.{◌≡◌, ◌↔◌, ◌<◌, length, get_or, Option, None, IfSome, IsNone};
ghost use Rattle.fs_model.specs.Choices.{GoesAstray};
ghost use Rattle.fs_hart.specs.inner.Walking.{set_at, options, options_of};

use crate::lists::Words;
use fs_instr::Instr;
use fs_model::{Choice, Hart, Location};

/// The words that are offered for the location at the address.
fn set_at(sets: &[Words], address: Option<u32>) -> &[u32]
    ensures { result.now ≡ set_at sets.now address }
{
    let Some(location) = address.and_then(Location::at) else {
        return &[];
    };
    match sets.get(location as usize) {
        Some(set) => set.as_slice(),
        None => &[],
    }
}

/// The words that a load or an amo here may take, and none for other instructions; nothing where the hart goes astray.
pub(crate) fn words_at<'a>(
    locations: u8,
    sets: &'a [Words],
    state: &Hart,
    instr: &Instr,
) -> Option<&'a [u32]>
    ensures some { IfSome result (λ words. options_of words.now instr.now ≡ options sets.now state.now instr.now) }
    ensures astray { IsNone result ↔ GoesAstray locations state.now instr.now }
{
    match *instr {
        Instr::Lw { .. } | Instr::Lr { .. } | Instr::Amo { .. } => {
            match state.step(locations, instr, Some(Choice::Word(0))) {
                Ok(step) => Some(set_at(sets, step.address)),
                Err(_) => None,
            }
        }
        Instr::Sc { .. } => Some(&[]),
        _ => match state.step(locations, instr, None) {
            Ok(_) => Some(&[]),
            Err(_) => None,
        },
    }
}

/// How many choices there are at the instruction with these words. An instruction that takes no choice has one, which
/// is none.
pub(crate) fn count_options(instr: &Instr, words: &[u32]) -> usize
    ensures { result ≡ length (options_of words.now instr.now) }
{
    match *instr {
        Instr::Lw { .. } | Instr::Lr { .. } | Instr::Amo { .. } => words.len(),
        Instr::Sc { .. } => 2,
        _ => 1,
    }
}

/// The choice of this number, in choice order.
pub(crate) fn option_at(instr: &Instr, words: &[u32], number: usize) -> Option<Choice>
    requires { number < length (options_of words.now instr.now) }
    ensures { result ≡ get_or (options_of words.now instr.now) number None }
{
    match *instr {
        Instr::Lw { .. } | Instr::Lr { .. } | Instr::Amo { .. } => {
            Some(Choice::Word(words[number]))
        }
        Instr::Sc { .. } if number == 0 => Some(Choice::Success),
        Instr::Sc { .. } => Some(Choice::Failure),
        _ => None,
    }
}
