//! What a step chooses, as a number.

ghost use Rattle.std.specs.Prelude.{◌≡◌, Some, option_map};
ghost use Rattle.fs_model.specs.declared.step.Choice.TheVariants.{Word};
ghost use Rattle.fs_cert_evidence.specs.Splits.{choice_number, step_number};

use fs_hart::Step;
use fs_instr::Instr;

/// One more than the word; 1 where there is none.
fn word_number(word: Option<u32>) -> u64
    ensures { result ≡ choice_number (option_map Word word) }
{
    match word {
        Some(word) => u64::from(word) + 1,
        None => 1,
    }
}

/// The number of what the step chooses: words rise, and success comes before failure.
pub(crate) fn choice_number(step: &Step) -> u64
    ensures { result ≡ step_number (Some step.now) }
{
    match step.instr {
        Instr::Lw { .. } | Instr::Lr { .. } | Instr::Amo { .. } => word_number(step.loaded),
        Instr::Sc { .. } if step.stored.is_none() => 2,
        _ => 1,
    }
}
