//! One run of each hart by number.

ghost use Rattle.std.specs.Prelude.{◌≡◌, ◌≤◌, ◌<◌, ◌++◌, [], IfOk, OnOk};
ghost use Rattle.std.specs.List.{slice_index_or};
ghost use Rattle.fs_cert_evidence.specs.CandidateFaults.{most_candidates};
ghost use Rattle.fs_cand_listing.specs.Ways.{products, product_of_lengths};
ghost use Rattle.fs_cand_listing.specs.inner.Places.{runs_at};

use crate::counting::count_choices;
use fs_hart::{Steps, Trace};
use fs_kinds::List;
use std::alloc::{AllocError, Global};

fn copy(alloc: Global, trace: &Trace) -> Result<Trace, AllocError>
    ensures { IfOk result (λ copy. copy ≡ trace.now) }
{
    let steps = Steps::new(Vec::from_slice(alloc, trace.steps())?);
    let registers = trace.registers;
    Ok(Trace { steps, registers })
}

/// Puts the runs of this number behind the others, one of each list. The last list's runs change first.
fn push_runs(
    alloc: Global,
    lists: &[List<Trace>],
    number: u32,
    traces: &mut Vec<Trace>,
) -> Result<(), AllocError>
    requires few { product_of_lengths lists.now ≤ most_candidates }
    requires number { number < product_of_lengths lists.now }
    ensures { OnOk result (traces.new.items ≡ traces.old.items ++ slice_index_or (products lists.now) number []) }
{
    let Some((list, rest)) = lists.split_first() else {
        return Ok(());
    };
    let count = count_choices(rest);
    traces.push(copy(alloc, &list[(number / count) as usize])?)?;
    push_runs(alloc, rest, number % count, traces)
}

/// The runs of this number, one of each list.
pub(crate) fn runs_at(
    alloc: Global,
    lists: &[List<Trace>],
    number: u32,
) -> Result<List<Trace>, AllocError>
    requires few { product_of_lengths lists.now ≤ most_candidates }
    requires number { number < product_of_lengths lists.now }
    ensures { IfOk result (λ traces. traces ≡ runs_at lists.now number) }
{
    let mut traces = Vec::new(alloc);
    push_runs(alloc, lists, number, &mut traces)?;
    Ok(List::new(traces))
}
