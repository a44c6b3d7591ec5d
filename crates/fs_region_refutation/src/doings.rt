//! What the runs of a hart do at each position of its code, side by side.

ghost use Rattle.std.specs.Prelude.{◌≡◌, ℕ, List as Items, length, map, IfOk};
ghost use Rattle.std.specs.Option.{option_copied};
ghost use Rattle.fs_model.specs.Numbers.{numbers_below};
ghost use Rattle.fs_model.specs.Slots.{is_memory_at};
ghost use Rattle.fs_model.specs.declared.step.Step.{Step};
ghost use Rattle.fs_cert_evidence.specs.Regions.{step_at};
ghost use Rattle.fs_region_refutation.specs.Beside.{doing_from, doing_of, doing_in, column_of, IsBeside, AreDoings};

use fs_hart::{Step, Trace};
use fs_instr::Instr;
use fs_kinds::List;
use fs_model::Test;
use std::alloc::{AllocError, Global};

/// What a run does at a position of the code: the address that it accesses, the word that it loads and the one that it
/// stores.
#[derive(Clone, Copy)]
pub struct Doing {
    pub address: Option<u32>,
    pub loaded: Option<u32>,
    pub stored: Option<u32>,
}

/// What the runs of a hart do, by positions of its code and by the numbers of the runs: a whole list of runs is asked
/// about a position in the order of its memory. It takes 24 bytes for each run and memory instruction.
#[derive(Drop)]
pub struct Doings {
    // By positions; none of an instruction that doesn't access memory.
    columns: Vec<List<Doing>>,
}

impl Doings {
    /// What these runs of the hart do. In time of the runs, times their steps, for each memory instruction.
    pub fn new(alloc: Global, test: &Test, hart: u8, traces: &[Trace]) -> Result<Doings, AllocError>
        ensures { IfOk result (AreDoings traces.now) }
    {
        match test.codes.get(usize::from(hart)) {
            Some(code) => over(alloc, code.as_slice(), traces),
            None => Ok(Doings::none(alloc)),
        }
    }

    /// Nothing is listed.
    pub fn none(alloc: Global) -> Doings
        ensures { (number : ℕ) (run : Items Step) → IsBeside result number run }
    {
        let columns = Vec::new(alloc);
        Doings { columns }
    }

    /// What the run of this number does at the position, where that is listed. In constant time.
    pub(crate) fn at(&self, at: u8, number: usize) -> Option<&Doing>
        ensures { option_copied result ≡ doing_in self.now at number }
    {
        self.columns.get(usize::from(at))?.get(number)
    }
}

/// What is done by this step, or where there is none.
pub(crate) fn doing_from(step: Option<&Step>) -> Doing
    ensures { result ≡ doing_from (option_copied step.entry) }
{
    match step {
        Some(step) => Doing {
            address: step.address,
            loaded: step.loaded,
            stored: step.stored,
        },
        None => Doing {
            address: None,
            loaded: None,
            stored: None,
        },
    }
}

/// The first step that executes the instruction there.
fn step_at(steps: &[Step], at: usize) -> Option<&Step>
    ensures { option_copied result ≡ step_at steps.now at }
{
    steps.iter().find(|step| usize::from(step.at) == at)
}

fn doing_of(trace: &Trace, at: usize) -> Doing
    ensures { result ≡ doing_of trace.now.steps at }
{
    doing_from(step_at(trace.steps(), at))
}

/// What each of the runs does there.
fn each_at(alloc: Global, traces: &[Trace], at: usize) -> Result<List<Doing>, AllocError>
    ensures { IfOk result (λ column. column ≡ map (λ trace. doing_of trace.steps at) traces.now) }
{
    let mut column = Vec::new(alloc);
    for trace in traces {
        column.push(doing_of(trace, at))?;
    }
    Ok(List::new(column))
}

/// Does the instruction there access memory?
fn is_memory_at(code: &[Instr], at: usize) -> bool
    ensures { result ≡ is_memory_at code.now at }
{
    code.get(at).is_some_and(|instr| instr.is_memory())
}

/// What each of the runs does there, where the instruction accesses memory.
fn column_of(
    alloc: Global,
    code: &[Instr],
    traces: &[Trace],
    at: usize,
) -> Result<List<Doing>, AllocError>
    ensures { IfOk result (λ column. column ≡ column_of code.now traces.now at) }
{
    if is_memory_at(code, at) {
        each_at(alloc, traces, at)
    } else {
        Ok(List::new(Vec::new(alloc)))
    }
}

/// The same for each position.
fn columns(alloc: Global, code: &[Instr], traces: &[Trace]) -> Result<Vec<List<Doing>>, AllocError>
    ensures { IfOk result (λ columns. columns.items
        ≡ map (column_of code.now traces.now) (numbers_below (length code.now))) }
{
    let mut columns = Vec::new(alloc);
    for at in 0..code.len() {
        columns.push(column_of(alloc, code, traces, at)?)?;
    }
    Ok(columns)
}

/// What the runs of a hart with this code do.
fn over(alloc: Global, code: &[Instr], traces: &[Trace]) -> Result<Doings, AllocError>
    ensures { IfOk result (AreDoings traces.now) }
{
    let columns = columns(alloc, code, traces)?;
    Ok(Doings { columns })
}
