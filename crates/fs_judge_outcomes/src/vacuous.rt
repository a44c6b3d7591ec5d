//! Whether a test is vacuous.

ghost use Rattle.std.specs.Prelude.{◌≡◌, ◌<◌, None, Some, false, true, IfOk, IsOkUnless};
ghost use Rattle.fs_kinds.specs.declared.fault.Fault.TheVariants.{Memory};
ghost use Rattle.fs_model.specs.Execution.{initial_words};
ghost use Rattle.fs_model.specs.Shows.{is_outcome};
ghost use Rattle.fs_region_refutation.specs.Runs.{runs_over};
ghost use Rattle.fs_judge_outcomes.specs.Vacuous.{IsVacuous, HasManyRuns, most_lists, lists_of};

use crate::ends::runs_of;
use crate::search::Search;
use crate::settled::with_hart;
use fs_kinds::{Fault, List};
use fs_model::{Quantifier, Test};
use fs_region_refutation::{Basis, Lone};
use std::alloc::{AllocError, Global};

/// Where there are no more lists of runs than this, one of each hart, all are looked through.
const MOST_LISTS: usize = 10_000;

/// Else so much work is done at most: a step of a condition of at most 31 parts is 1.
const MOST_WORK: u32 = 1_000_000;

/// Are there more lists of runs, one of each hart, than are looked through whatever it takes?
fn has_many(harts: usize, runs: &[List<Lone>]) -> bool
    ensures { result ≡ true → most_lists < lists_of (runs_over runs.now) harts }
{
    let mut lists: usize = 1;
    for hart in 0..harts {
        lists = lists
            .saturating_mul(runs_of(runs, hart).len())
            .min(MOST_LISTS + 1);
    }
    lists > MOST_LISTS
}

/// Is it the condition that is to be true, and not its denial?
fn is_outcome(quantifier: Quantifier) -> bool
    ensures { result ≡ is_outcome quantifier true }
{
    match quantifier {
        Quantifier::Exists | Quantifier::NotExists => true,
        Quantifier::Forall => false,
    }
}

/// The words that the locations begin with.
fn first_words(alloc: Global, test: &Test) -> Result<Vec<u32>, AllocError>
    ensures { IfOk result (λ words. words.items ≡ initial_words test.now) }
{
    let locations = test.locations.as_slice();
    locations
        .iter()
        .map(|location| location.word)
        .collect(alloc)
}

/// Is there a way to the outcome? None where that is left open.
fn has_way(alloc: Global, basis: &Basis) -> Result<Option<bool>, AllocError>
    ensures yes { IfOk result (λ has. has ≡ Some true → IsVacuous basis.now → ⊥) }
    ensures no { IfOk result (λ has. has ≡ Some false → IsVacuous basis.now) }
    ensures open { IfOk result (λ has. has ≡ None → HasManyRuns basis.now) }
{
    let test = basis.test();
    let runs = basis.runs();
    let harts = test.codes.len();
    let wanted = is_outcome(test.quantifier);
    let most = if has_many(harts, runs) {
        Some(MOST_WORK)
    } else {
        None
    };
    let mut search = Search::new(alloc, wanted, most, &test.condition);
    let Some(lists) = search.all_ends(harts, runs, &test.condition)? else {
        return Ok(None);
    };
    let firsts = first_words(alloc, test)?;
    let condition = with_hart(alloc, 0, &[], &test.condition)?;
    let found = search.can_show(0, &lists, &firsts, &[], &condition)?;
    Ok(found)
}

/// Is the test vacuous? None where that is left open, which is only where it has more than 10,000 lists of runs, one of
/// each hart, and the work of the search is used up. Fails only for want of memory.
///
/// The cost: what counts of each run is worked out once, and each further one is compared with 64 others at most; then
/// it is that of a search over the choices of what counts of the harts' runs and of last words, cut off where the
/// condition is settled; each step is linear in the condition. Where there are at most 10,000 lists of runs nothing
/// else bounds the work; else it is at most that of 1,000,000 steps of a condition of 31 parts.
pub fn is_vacuous(alloc: Global, basis: &Basis) -> Result<Option<bool>, Fault>
    ensures yes { IfOk result (λ is. is ≡ Some true → IsVacuous basis.now) }
    ensures no { IfOk result (λ is. is ≡ Some false → IsVacuous basis.now → ⊥) }
    ensures open { IfOk result (λ is. is ≡ None → HasManyRuns basis.now) }
    ensures err { IsOkUnless result Memory }
{
    match has_way(alloc, basis)? {
        Some(has) => Ok(Some(!has)),
        None => Ok(None),
    }
}
