//! All runs of a hart whose loads take words of given sets.

ghost use Rattle.std.specs.Prelude.{◌≡◌, ◌<◌, ◌≤◌, ℕ, List, All, length, IfOk, OnOk, IfErr};
ghost use Rattle.std.specs.List.Sorted.{IsStrictlyIncreasing};
ghost use Rattle.fs_kinds.specs.Limits.{most_instructions};
ghost use Rattle.fs_model.specs.Test.{GoesForward, IsBounded, IsStart};
ghost use Rattle.fs_model.specs.Execution.{code_of, registers_of};
ghost use Rattle.fs_model.specs.Trace.{start_with, hart_after};
ghost use Rattle.fs_hart.specs.Listing.{AreTraces, IsTraceFault};
ghost use Rattle.fs_hart.specs.inner.Walking.{Explores, Halts, IsCut, Leads};

use crate::choosing::{count_options, option_at, words_at};
use crate::lists::Words;
use crate::run::{code_of, is_choosing, registers_of};
use crate::trace::Trace;
use crate::walk::Walk;
use fs_instr::Instr;
use fs_kinds::Fault;
use fs_model::{Hart, Test};
use std::alloc::{AllocError, Global};

impl Walk {
    /// Takes the steps from the state on that need no choice: to the end of the code, or to an instruction that takes a
    /// choice or goes astray.
    fn go_on(&mut self, locations: u8, code: &[Instr], state: &mut Hart) -> Result<(), AllocError>
        requires short { length code.now ≤ most_instructions }
        requires forward { GoesForward code.now }
        requires at { state.old.at ≤ length code.now }
        ensures leads { OnOk result (Leads locations code.now state.old self.old state.new self.new) }
        ensures halts { OnOk result (Halts locations code.now state.new) }
    {
        while usize::from(state.at) < code.len() {
            let instr = &code[usize::from(state.at)];
            if is_choosing(instr) {
                return Ok(());
            }
            let Ok(step) = state.step(locations, instr, None) else {
                return Ok(());
            };
            state.take(&step);
            self.path.push(step)?;
        }
        Ok(())
    }

    /// Finds all ends from the state on, to which the path leads.
    fn explore(&mut self, test: &Test, hart: u8, sets: &[Words], state: &Hart) -> Result<(), Fault>
        requires test { IsBounded test.now }
        requires hart { hart < length test.now.codes }
        requires sets { All IsStrictlyIncreasing sets.now }
        requires at { state.now.at ≤ length (code_of test.now hart) }
        requires on_path { state.now ≡ hart_after (start_with (registers_of test.now hart)) self.old.path.items }
        ensures ok { OnOk result (Explores test.now hart sets.now state.now self.old self.new) }
        ensures err { IfErr result (IsCut test.now hart sets.now state.now self.old.ends) }
    {
        let code = code_of(test, hart);
        if usize::from(state.at) >= code.len() {
            return self.end_whole(state.registers);
        }
        let locations = test.locations.as_slice().len() as u8;
        let instr = &code[usize::from(state.at)];
        let Some(words) = words_at(locations, sets, state, instr) else {
            return self.end_astray(state.at);
        };
        let depth = self.path.len();
        for number in 0..count_options(instr, words) {
            let choice = option_at(instr, words, number);
            if let Ok(step) = state.step(locations, instr, choice) {
                let mut next = *state;
                next.take(&step);
                self.path.push(step)?;
                self.go_on(locations, code, &mut next)?;
                self.explore(test, hart, sets, &next)?;
                self.path.truncate(depth);
            }
        }
        Ok(())
    }
}

/// The whole runs of the hart of this number in which each load takes a word of its location's set, in choice order:
/// words rise, and an sc.w's success comes before its failure. There is a set for each location, with its words rising.
/// F13 where more than 100,000 choice lists end, in a whole run or astray; else F14 with the instruction at which the
/// first list that goes astray does so; F19.
pub fn traces_over(
    alloc: Global,
    test: &Test,
    hart: u8,
    sets: &[Words],
) -> Result<Vec<Trace>, Fault>
    requires test { IsBounded test.now }
    requires starts { All IsStart test.now.starts }
    requires hart { hart < length test.now.codes }
    requires sets { All IsStrictlyIncreasing sets.now }
    ensures ok { IfOk result (λ traces. AreTraces test.now hart sets.now traces.items) }
    ensures err { IfErr result (IsTraceFault test.now hart sets.now) }
{
    let mut walk = Walk {
        alloc,
        path: Vec::new(alloc),
        traces: Vec::new(alloc),
        ends: 0,
        astray: None,
    };
    let locations = test.locations.as_slice().len() as u8;
    let mut start = Hart::start(registers_of(test, hart));
    walk.go_on(locations, code_of(test, hart), &mut start)?;
    walk.explore(test, hart, sets, &start)?;
    match walk.astray {
        Some(at) => Err(Fault::Astray { hart, at }),
        None => Ok(walk.traces),
    }
}
