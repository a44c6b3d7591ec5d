//! What counts of the runs of each hart.

ghost use Rattle.std.specs.Prelude.{◌≡◌, ◌≤◌, [], false, true, is_none, IfOk, IfSome};
ghost use Rattle.std.specs.List.{Contains, slice_index_or};
ghost use Rattle.fs_kinds.specs.Limits.{most_harts};
ghost use Rattle.fs_model.specs.Condition.{condition_of};
ghost use Rattle.fs_judge_outcomes.specs.inner.Runs.{registers_in, Adds, AreEnds, AreAllEnds};

use crate::end::{End, end_of, is_same, registers_of};
use crate::search::Search;
use crate::settled::{is_truth, with_hart};
use fs_instr::Reg;
use fs_kinds::List;
use fs_model::Outcome;
use fs_region_refutation::Lone;
use std::alloc::{AllocError, Global};

/// With so many ends each further one is compared, so that most tests have few.
const MOST_COMPARED: usize = 64;

/// Is the end one of these, as far as they are looked at?
fn is_known(ends: &[End], end: &End) -> bool
    ensures { result ≡ true → Contains ends.now end.now }
{
    for index in 0..ends.len().min(MOST_COMPARED) {
        if is_same(&ends[index], end) {
            return true;
        }
    }
    false
}

/// The runs of the hart; none where there is no list of its.
pub(crate) fn runs_of(listed: &[List<Lone>], hart: usize) -> &[Lone]
    ensures { result.now ≡ slice_index_or listed.now hart [] }
{
    match listed.get(hart) {
        Some(runs) => runs.as_slice(),
        None => &[],
    }
}

impl Search {
    /// Appends what counts of the run of the hart, unless an end is known to be the same, or the condition can't be as
    /// wanted with it. False where the work is used up.
    fn push_end(
        &mut self,
        ends: &mut Vec<End>,
        hart: u8,
        run: &Lone,
        registers: &[Reg],
        condition: &Outcome,
    ) -> Result<bool, AllocError>
        requires { registers.now ≡ registers_in hart (condition_of condition.now) [] }
        ensures wanted { self.new.wanted ≡ self.old.wanted }
        ensures bounded { self.new.bounded ≡ self.old.bounded }
        ensures adds { IfOk result (λ done. done ≡ true
            → Adds self.old.wanted (condition_of condition.now) hart run.now ends.old.items ends.new.items) }
        ensures open { IfOk result (λ done. done ≡ false → self.old.bounded ≡ true) }
    {
        let end = end_of(self.alloc, run, hart, registers, condition)?;
        if is_known(ends, &end) {
            return Ok(true);
        }
        if !self.may_go_on() {
            return Ok(false);
        }
        let left = with_hart(self.alloc, hart, &end.registers, condition)?;
        if !is_truth(&left, !self.wanted) {
            ends.push(end)?;
        }
        Ok(true)
    }

    /// What counts of the runs of a hart. None where the work is used up.
    fn ends_of(
        &mut self,
        hart: u8,
        runs: &[Lone],
        condition: &Outcome,
    ) -> Result<Option<Vec<End>>, AllocError>
        ensures wanted { self.new.wanted ≡ self.old.wanted }
        ensures bounded { self.new.bounded ≡ self.old.bounded }
        ensures ends { IfOk result (λ found. IfSome found (λ ends.
            AreEnds self.old.wanted (condition_of condition.now) hart runs.now ends.items)) }
        ensures open { IfOk result (λ found. is_none found ≡ true → self.old.bounded ≡ true) }
    {
        let registers = registers_of(self.alloc, hart, condition)?;
        let mut ends = Vec::new(self.alloc);
        for run in runs {
            if !self.push_end(&mut ends, hart, run, &registers, condition)? {
                return Ok(None);
            }
        }
        Ok(Some(ends))
    }

    /// What counts of the runs of each hart where the condition is to be as wanted: of runs that don't rule it out by
    /// themselves. None where the work is used up. The cost is for each run its length, the registers that count and
    /// 64 times the size of an end at most, and a step for each end that isn't found to be one of these.
    pub(crate) fn all_ends(
        &mut self,
        harts: usize,
        runs: &[List<Lone>],
        condition: &Outcome,
    ) -> Result<Option<Vec<List<End>>>, AllocError>
        requires { harts ≤ most_harts }
        ensures wanted { self.new.wanted ≡ self.old.wanted }
        ensures bounded { self.new.bounded ≡ self.old.bounded }
        ensures ends { IfOk result (λ found. IfSome found (λ lists.
            AreAllEnds self.old.wanted (condition_of condition.now) harts runs.now lists.items)) }
        ensures open { IfOk result (λ found. is_none found ≡ true → self.old.bounded ≡ true) }
    {
        let mut lists = Vec::new(self.alloc);
        for hart in 0..harts {
            let Some(ends) = self.ends_of(hart as u8, runs_of(runs, hart), condition)? else {
                return Ok(None);
            };
            lists.push(List::new(ends))?;
        }
        Ok(Some(lists))
    }
}
