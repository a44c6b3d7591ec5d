//! What an operation does in each run that is left.

ghost use Rattle.std.specs.Prelude.{◌≡◌, Some, if◌then◌else◌};
ghost use Rattle.std.specs.List.{list_all};
ghost use Rattle.fs_model.specs.Numbers.{is_same};
ghost use Rattle.fs_cert_evidence.specs.Musts.{has_source};
ghost use Rattle.fs_cert_evidence.specs.Regions.{Initial};
ghost use Rattle.fs_region_refutation.specs.Views.{known_source, region_of, runs_of};
ghost use Rattle.fs_app_why.specs.Known.{agreed, word_of, known_of};

use fs_kinds::OperationName;
use fs_region_refutation::{Lone, Region, Source};

/// What an operation does in each run of its hart that is left, as far as they agree.
#[derive(Clone, Copy, PartialEq, Eq)]
pub struct Known {
    /// The address that it accesses.
    pub address: Option<u32>,
    /// The word that it loads.
    pub loaded: Option<u32>,
    /// The word that it stores.
    pub stored: Option<u32>,
    /// Whether it returns from the initial store.
    pub is_initial: bool,
}

/// What may be asked of an operation.
#[derive(Clone, Copy)]
pub enum Which {
    /// Where it accesses.
    Address,
    Loaded,
    Stored,
}

/// What the run says of the operation there.
fn word_at(run: &Lone, what: Which, at: u8) -> Option<u32>
    ensures { result ≡ word_of what at run.now.steps }
{
    match what {
        Which::Address => run.address_at(at),
        Which::Loaded => run.loaded_at(at),
        Which::Stored => run.stored_at(at),
    }
}

fn is_so(run: &Lone, what: Which, at: u8, word: u32) -> bool
    ensures { result ≡ is_same (word_of what at run.now.steps) (Some word) }
{
    match word_at(run, what, at) {
        Some(other) => other == word,
        None => false,
    }
}

/// Is it so in each of the runs?
fn all_so(runs: &[&Lone], what: Which, at: u8, word: u32) -> bool
    ensures { result ≡ list_all (λ run. is_same (word_of what at run) (Some word)) (runs_of runs.now) }
{
    runs.iter().all(|run| is_so(run, what, at, word))
}

/// The word on which all of the runs agree.
fn agreed(runs: &[&Lone], what: Which, at: u8) -> Option<u32>
    ensures { result ≡ agreed (word_of what at) (runs_of runs.now) }
{
    let (first, _) = runs.split_first()?;
    let word = word_at(first, what, at)?;
    if all_so(runs, what, at, word) {
        Some(word)
    } else {
        None
    }
}

fn is_initial(source: Option<Source>) -> bool
    ensures { result ≡ has_source (known_source source) Initial }
{
    match source {
        Some(Source::Initial) => true,
        _ => false,
    }
}

impl Known {
    /// What is known of the operation in the region. Linear in the runs of its hart.
    pub(crate) fn of(region: &Region<'_>, name: OperationName) -> Known
        ensures { result ≡ known_of (region_of region.now) name }
    {
        let runs = region.runs(name.hart);
        Known {
            address: agreed(runs, Which::Address, name.at),
            loaded: agreed(runs, Which::Loaded, name.at),
            stored: agreed(runs, Which::Stored, name.at),
            is_initial: is_initial(region.source(name)),
        }
    }
}
