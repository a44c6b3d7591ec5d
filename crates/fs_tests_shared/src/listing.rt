//! What two programs are compared on: runs, placements, orders, each by a number.
ghost use Rattle.std.specs.Prelude.{◌≡◌, ◌<◌, ◌≤◌, All, length, IfOk};
ghost use Rattle.std.specs.List.Sorted.{IsStrictlyIncreasing};
ghost use Rattle.fs_model.specs.Test.{IsBounded, IsStart};
ghost use Rattle.fs_cand.specs.Candidates.{AreShort};

use fs_cand::Traces;
use fs_hart::{Steps, Trace, Words, traces_over};
use fs_kinds::{Fault, Kind, Limit, Placement};
use fs_litmus::{Test, read_fences, slots};
use std::alloc::{AllocError, Global};

/// More than a test here has of runs, or its runs have of sources.
pub const MANY: usize = 100_000;

/// A number as digits of changing bases, the lowest first.
#[derive(Drop)]
pub struct Digits {
    pub rest: usize,
}

impl Digits {
    /// The next digit, below the base.
    pub fn take(&mut self, base: usize) -> usize {
        let base = base.max(1);
        let digit = self.rest % base;
        self.rest /= base;
        digit
    }
}

/// For each of so many locations the set of the words, which must rise.
fn same_sets(alloc: Global, locations: usize, words: &[u32]) -> Result<Vec<Words>, AllocError>
    requires { IsStrictlyIncreasing words.now }
    ensures { IfOk result (λ sets. All IsStrictlyIncreasing sets.items) }
{
    let mut sets = Vec::new(alloc);
    for _ in 0..locations {
        sets.push(Words::new(Vec::from_slice(alloc, words)?))?;
    }
    Ok(sets)
}

/// The runs of each hart in which loads take words of these sets, one for each location.
pub fn runs_over(alloc: Global, test: &Test, sets: &[Words]) -> Result<Vec<Vec<Trace>>, Fault>
    requires test { IsBounded test.now }
    requires starts { All IsStart test.now.starts }
    requires sets { All IsStrictlyIncreasing sets.now }
{
    let mut runs = Vec::new(alloc);
    for hart in 0..test.codes.as_slice().len() {
        runs.push(traces_over(alloc, test, hart as u8, sets)?)?;
    }
    Ok(runs)
}

/// The runs of each hart in which loads take these words, which must rise.
pub fn runs_of(alloc: Global, test: &Test, words: &[u32]) -> Result<Vec<Vec<Trace>>, Fault>
    requires test { IsBounded test.now }
    requires starts { All IsStart test.now.starts }
    requires words { IsStrictlyIncreasing words.now }
{
    let sets = same_sets(alloc, test.locations.as_slice().len(), words)?;
    runs_over(alloc, test, &sets)
}

/// No fence, and then for each kind a placement of it in every slot.
pub fn placements_of(alloc: Global, test: &Test) -> Result<Vec<Placement>, Fault>
    requires { IsBounded test.now }
{
    let mut placements = Vec::new(alloc);
    placements.push(read_fences(alloc, test, None, &[])?)?;
    for kind in Kind::ALL {
        let mut placement = read_fences(alloc, test, None, &[])?;
        for slot in &slots(alloc, test)? {
            placement.with(*slot, Some(kind))?;
        }
        placements.push(placement)?;
    }
    Ok(placements)
}

/// An equal run.
pub fn copy(alloc: Global, run: &Trace) -> Result<Trace, AllocError>
    ensures { IfOk result (λ same. same ≡ run.now) }
{
    let steps = Steps::new(Vec::from_slice(alloc, run.steps())?);
    Ok(Trace {
        steps,
        registers: run.registers,
    })
}

/// A run of each hart, by a digit for each.
pub fn picked(alloc: Global, runs: &[Vec<Trace>], digits: &mut Digits) -> Result<Traces, Fault>
    ensures harts { IfOk result (λ traces. length traces ≤ 8) }
    ensures steps { IfOk result AreShort }
{
    let mut traces = Vec::new(alloc);
    for runs_of_hart in runs {
        if let Some(run) = runs_of_hart.get(digits.take(runs_of_hart.len())) {
            if traces.len() >= 8 || run.steps().len() > 32 {
                return Err(Fault::TooBig {
                    what: Limit::Instructions,
                });
            }
            traces.push(copy(alloc, run)?)?;
        }
    }
    Ok(Traces::new(traces))
}

/// An order of the numbers below `count`, by a digit for each.
pub fn order_of(alloc: Global, count: usize, digits: &mut Digits) -> Result<Vec<u8>, AllocError> {
    let mut left: Vec<u8> = (0..count.min(64) as u8).collect(alloc)?;
    let mut order = Vec::new(alloc);
    for _ in 0..count {
        let index = digits.take(left.len());
        if index < left.len() {
            order.push(left.remove(index))?;
        }
    }
    Ok(order)
}
