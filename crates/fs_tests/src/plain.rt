//! Lists of final states, compared with a plain program that goes through all runs and all orders of their operations.
ghost use Rattle.std.specs.Prelude.{◌≡◌, ◌≤◌, All, length};
ghost use Rattle.std.specs.Arc.{arc_value};
ghost use Rattle.fs_kinds.specs.Placement.{slots_of};
ghost use Rattle.fs_model.specs.Slots.{slots};
ghost use Rattle.fs_model.specs.Test.{IsBounded, IsStart, IsTest};
ghost use Rattle.fs_cand.specs.Candidates.{AreShort};

use crate::made::made_test;
use crate::places::places_of;
use fs_cand::Traces;
use fs_hart::{Operation, Steps, Trace, operations};
use fs_instr::Reg;
use fs_judge::USUAL_INFERENCES;
use fs_judge_outcomes::{Place, State, states};
use fs_kinds::{Fault, List, Placement};
use fs_litmus::{Test, read_test};
use fs_model::Location;
use fs_model_axioms::count_accesses;
use fs_model_brute_force::shows;
use fs_tests_shared::{
    Digits, MANY, order_of, picked, placement_of, placements_of, runs_over, write_fences,
};
use fs_values::Values;
use std::alloc::{AllocError, Global};
use std::sync::Arc;

/// The word with which the location ends in this order: that of its last store, or its first one.
fn last_word(test: &Test, all: &[Operation], order: &[u8], location: u8) -> u32 {
    let own = test.locations.as_slice().get(usize::from(location));
    let mut word = own.map_or(0, |declared| declared.word);
    for a in order {
        if let Some(operation) = all.get(usize::from(*a)) {
            if operation.address == Some(Location::address(location)) {
                word = operation.stored.unwrap_or(word);
            }
        }
    }
    word
}

/// The word with which the register ends.
fn register_word(traces: &[Trace], hart: u8, register: Reg) -> u32 {
    match traces.get(usize::from(hart)) {
        Some(trace) => trace.final_reg(register),
        None => 0,
    }
}

/// The words at the places at the end of an execution.
fn words_at(
    alloc: Global,
    test: &Test,
    traces: &[Trace],
    all: &[Operation],
    order: &[u8],
    places: &[Place],
) -> Result<Vec<u32>, AllocError> {
    let mut words = Vec::new(alloc);
    for place in places {
        words.push(match place {
            Place::Register { hart, reg } => register_word(traces, *hart, *reg),
            Place::Location(location) => last_word(test, all, order, *location),
        })?;
    }
    Ok(words)
}

/// Listed states, which of them the plain program has met, and how often it has met another one.
#[derive(Drop)]
struct Marks {
    states: List<State>,
    met: Vec<bool>,
    unlisted: usize,
}

impl Marks {
    /// None of the states is met yet.
    fn new(alloc: Global, states: List<State>) -> Result<Marks, AllocError> {
        let mut met = Vec::new(alloc);
        for _ in states.as_slice() {
            met.push(false)?;
        }
        Ok(Marks {
            states,
            met,
            unlisted: 0,
        })
    }

    /// Notes that a state of these words was met.
    fn mark(&mut self, words: &[u32]) {
        let mut is_listed = false;
        for (state, met) in self.states.as_slice().iter().zip(self.met.iter_mut()) {
            if state.words.as_slice() == words {
                *met = true;
                is_listed = true;
            }
        }
        if !is_listed {
            self.unlisted = self.unlisted.saturating_add(1);
        }
    }

    /// Are the listed states those that were met?
    fn agree(&self) -> bool {
        for met in &self.met {
            if !*met {
                return false;
            }
        }
        self.unlisted == 0
    }
}

/// The steps of the runs.
fn steps_of(alloc: Global, traces: &[Trace]) -> Result<Vec<Steps>, AllocError> {
    let mut runs = Vec::new(alloc);
    for trace in traces {
        runs.push(Steps::new(Vec::from_slice(alloc, trace.steps())?))?;
    }
    Ok(runs)
}

/// Marks the states in which these runs end, in all orders of their operations that make an execution with the
/// placement's fences.
fn mark_orders(
    alloc: Global,
    test: &Test,
    traces: &Traces,
    placement: &Placement,
    places: &[Place],
    marks: &mut Marks,
) -> Result<(), Fault>
    requires test { IsBounded test.now }
    requires starts { All IsStart test.now.starts }
    requires harts { length traces.now ≤ 8 }
    requires steps { AreShort traces.now }
{
    let traces = traces.as_slice();
    let all = operations(alloc, test, traces)?;
    let runs = steps_of(alloc, traces)?;
    for number in 0..MANY {
        let mut digits = Digits { rest: number };
        let order = order_of(alloc, count_accesses(all.as_slice()), &mut digits)?;
        if digits.rest > 0 {
            return Ok(());
        }
        if shows(alloc, test, &runs, placement, &order)? {
            let words = words_at(alloc, test, traces, all.as_slice(), &order, places)?;
            marks.mark(&words);
        }
    }
    Ok(())
}

/// Marks the states in which executions of the test with the placement's fences end. The condition is always true.
fn mark_all(
    alloc: Global,
    test: &Test,
    placement: &Placement,
    places: &[Place],
    marks: &mut Marks,
) -> Result<(), Fault>
    requires test { IsBounded test.now }
    requires starts { All IsStart test.now.starts }
{
    let values = Values::of(alloc, test)?;
    let runs = runs_over(alloc, test, values.as_slice())?;
    for number in 0..MANY {
        let mut digits = Digits { rest: number };
        let traces = picked(alloc, &runs, &mut digits)?;
        if digits.rest > 0 {
            break;
        }
        mark_orders(alloc, test, &traces, placement, places, marks)?;
    }
    Ok(())
}

/// Fences of the test by a number: none, or the same in every slot.
fn fences_of(alloc: Global, test: &Test, number: usize) -> Result<String, Fault>
    requires { IsBounded test.now }
{
    let mut words = String::new(alloc);
    let placements = placements_of(alloc, test)?;
    if let Some(placement) = placements.get(number % placements.len().max(1)) {
        write_fences(placement, &mut words)?;
    }
    Ok(words)
}

/// The states of the test with the placement's fences, and which of them a plain program meets.
fn marked(alloc: Global, test: &Arc<Test>, placement: &Placement) -> Result<Marks, Fault>
    requires test { IsTest (arc_value test.now) }
    requires placement { slots_of placement.now ≡ slots (arc_value test.now) }
{
    let places = places_of(alloc, test)?;
    let found = states(alloc, test, placement, &places, USUAL_INFERENCES)?;
    let mut marks = Marks::new(alloc, found)?;
    mark_all(alloc, test, placement, &places, &mut marks)?;
    Ok(marks)
}

/// The same of the made test of this number with fences of its number.
fn compared(alloc: Global, number: usize) -> Result<Marks, Fault> {
    let text = made_test(alloc, number)?;
    let test = Arc::new(alloc, read_test(alloc, text.as_bytes())?)?;
    let fences = fences_of(alloc, &test, number)?;
    let placement = placement_of(alloc, &test, &fences)?;
    marked(alloc, &test, &placement)
}

/// How many states the made tests below this number have; 0 where a plain program meets others.
fn states_met(alloc: Global, end: usize) -> Result<usize, Fault> {
    let mut count: usize = 0;
    for number in 1..end {
        let marks = compared(alloc, number)?;
        if !marks.agree() {
            return Ok(0);
        }
        count = count.saturating_add(marks.met.len());
    }
    Ok(count)
}

/// How many states made tests have, where these are too few, or a plain program meets others.
pub(crate) fn wrong_made(alloc: Global) -> Result<String, Fault> {
    let count = states_met(alloc, 17)?;
    if count > 24 {
        return Ok(String::new(alloc));
    }
    Ok(format!(in alloc; "{count} states")?)
}
