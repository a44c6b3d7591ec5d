//! The choices of runs.

ghost use Rattle.std.specs.Prelude.{◌≡◌, map, IfOk};
ghost use Rattle.std.specs.List.{filter_map};
ghost use Rattle.fs_model.specs.Choices.{choice_by};
ghost use Rattle.fs_hart.specs.Steps.{steps_in};
ghost use Rattle.fs_cand_witness.specs.inner.Reading.{chosen};

use fs_cert_evidence::{ChoiceLists, Choices};
use fs_hart::Trace;
use fs_instr::Instr;
use fs_model::{Choice, Step};
use std::alloc::{AllocError, Global};

/// The choice that the step made, where its instruction takes one.
fn choice(step: &Step) -> Option<Choice>
    ensures { result ≡ choice_by step.now.instr step.now }
{
    match step.instr {
        Instr::Lw { .. } | Instr::Lr { .. } | Instr::Amo { .. } => {
            Some(Choice::Word(step.loaded?))
        }
        Instr::Sc { .. } => match step.stored {
            Some(_) => Some(Choice::Success),
            None => Some(Choice::Failure),
        },
        _ => None,
    }
}

/// The choices of a run.
fn choices_of(alloc: Global, steps: &[Step]) -> Result<Choices, AllocError>
    ensures { IfOk result (λ choices. choices ≡ chosen steps.now) }
{
    let mut choices = Vec::new(alloc);
    for step in steps {
        if let Some(choice) = choice(step) {
            choices.push(choice)?;
        }
    }
    Ok(Choices::new(choices))
}

/// The choices of each run, in their order.
pub(crate) fn choices(alloc: Global, traces: &[Trace]) -> Result<ChoiceLists, AllocError>
    ensures { IfOk result (λ lists. lists ≡ map chosen (steps_in traces.now)) }
{
    let mut lists = Vec::new(alloc);
    for trace in traces {
        lists.push(choices_of(alloc, trace.steps())?)?;
    }
    Ok(ChoiceLists::new(lists))
}
