//! The witness of a candidate.

ghost use Rattle.std.specs.Prelude.{◌≡◌, ◌<◌, ◌≤◌, ℕ, List, true, length, IfOk, IsOkUnless};
ghost use Rattle.fs_kinds.specs.declared.fault.Fault.TheVariants.{Memory};
ghost use Rattle.fs_kinds.specs.Placement.{slots_of};
ghost use Rattle.fs_model.specs.Test.{IsBounded};
ghost use Rattle.fs_model.specs.Numbers.{has_number};
ghost use Rattle.fs_model.specs.Execution.{Execution, initial_words};
ghost use Rattle.fs_model.specs.Allows.{Shows};
ghost use Rattle.fs_cert_evidence.specs.Candidates.{IsShowing, runs_of};
ghost use Rattle.fs_cert_evidence.specs.Judged.{is_judged};
ghost use Rattle.fs_cand.specs.Candidates.{candidate_of, IsMade};
ghost use Rattle.fs_cand_witness.specs.Edges.{has_edge};
ghost use Rattle.fs_cand_witness.specs.Orders.{IsOrderBelow};
ghost use Rattle.fs_cert_evidence.specs.Evidence.{IsWitnessAt};
ghost use Rattle.fs_cand_witness.specs.inner.Reading.{IsReadOff};

use crate::choices::choices;
use crate::chosen_names::names;
use crate::order::{order_of, order_rows};
use crate::rows::Rows;
use crate::widen::widened;
use crate::widths::widths;
use crate::{Sides, sides_of};
use fs_cand::Candidate;
use fs_cert_evidence::Witness;
use fs_kinds::{Fault, Placement, Slot};
use fs_model::Test;
use std::alloc::Global;

/// What an order of the candidate's operations says: choices, names, and widths at the placement's slots.
fn read_off(
    alloc: Global,
    placement: &Placement,
    candidate: &Candidate,
    numbers: &[u8],
) -> Result<Witness, Fault>
    requires operations { length candidate.now.operations ≤ 64 }
    requires harts { length candidate.now.traces ≤ 8 }
    requires numbers { (a : ℕ) → has_number numbers.now a ≡ true → a < 64 }
    ensures ok { IfOk result (IsReadOff (slots_of placement.now) candidate.now numbers.now) }
    ensures err { IsOkUnless result Memory }
{
    let sides = sides_of(alloc, candidate)?;
    let order = order_rows(numbers);
    Ok(Witness {
        choices: choices(alloc, candidate.traces.as_slice())?,
        order: names(alloc, candidate, numbers)?,
        widths: widths(alloc, placement, &order, &sides)?,
    })
}

/// What may make a witness bear more fences: the sides of the slots, and slots to widen before the others.
#[derive(Clone, Copy)]
pub struct Hints<'a> {
    pub sides: &'a [Sides],
    pub first: &'a [Slot],
}

/// The witness of a showing candidate whose judged relation has no cycle under the placement: an execution that shows
/// the outcome under it. The rows are the judged relation between the candidate's operations.
///
/// To the rows each pair of classes at each of the sides is added where no cycle arises, at the slots in `first` before
/// the others; then the order is made, and the widths at the placement's slots are read off it, which are exact. The
/// witness is true whatever the hints are, and how many fences it bears is no promise. For each of the sides four times
/// what it takes to judge a relation, and the slots of the placement times the steps. The error is F19.
pub fn widest_witness(
    alloc: Global,
    test: &Test,
    placement: &Placement,
    candidate: &Candidate,
    rows: &Rows,
    hints: Hints,
) -> Result<Witness, Fault>
    requires test { IsBounded test.now }
    requires made { IsMade (initial_words test.now) candidate.now }
    requires operations { length candidate.now.operations ≤ 64 }
    requires harts { length candidate.now.traces ≤ 8 }
    requires showing { IsShowing test.now (candidate_of candidate.now) }
    requires rows { (a b : ℕ) → has_edge rows.now a b
        ≡ is_judged (runs_of test.now (candidate_of candidate.now)) placement.now (candidate_of candidate.now) a b }
    requires order { (numbers : List ℕ) × IsOrderBelow (has_edge rows.now) (length candidate.now.operations) numbers }
    ensures ok { IfOk result (λ w. (e : Execution) × IsWitnessAt test.now (slots_of placement.now) w e
        × Shows test.now placement.now e) }
    ensures err { IsOkUnless result Memory }
{
    let _ = test;
    let n = candidate.operations.len();
    let wider = widened(rows, n, hints.sides, hints.first);
    let order = order_of(&wider, n);
    read_off(alloc, placement, candidate, &order[..n])
}
