//! The lists of a candidate: contracts see each as a list.

ghost use Rattle.std.specs.Prelude.{◌≡◌, IfOk, IsOkUnless};
ghost use Rattle.fs_kinds.specs.declared.fault.Fault.TheVariants.{Memory};
ghost use Rattle.fs_cand.specs.Candidates.{AreShort, AreDepsOf};

use fs_deps::Deps;
use fs_hart::Trace;
use fs_kinds::{Fault, List};
use std::alloc::Global;
use std::marker::Model;

/// A run of each hart.
pub type Traces = List<Trace>;

/// The dependencies in each hart's run.
#[derive(Drop)]
pub struct Dependencies {
    deps: Vec<Deps>,
}

impl Model for Dependencies {
    ghost use Rattle.std.specs.Prelude.{List};
    ghost use Rattle.fs_deps.specs.declared.deps.Masks.{Masks};

    ghost Value = { List (List Masks) };

    ghost view = { λ d. d.deps.items };
}

impl Dependencies {
    /// These dependencies, from hart 0 on.
    pub fn new(deps: Vec<Deps>) -> Dependencies
        ensures { result ≡ deps.items }
    {
        Dependencies { deps }
    }

    /// The dependencies in each of these runs, which have at most 32 steps each. The error is F19.
    pub fn of(alloc: Global, traces: &[Trace]) -> Result<Dependencies, Fault>
        requires { AreShort traces.now }
        ensures ok { IfOk result (λ deps. AreDepsOf traces.now deps) }
        ensures err { IsOkUnless result Memory }
    {
        let mut deps = Vec::with_capacity(alloc, traces.len())?;
        for trace in traces {
            deps.push(Deps::of(alloc, trace)?)?;
        }
        Ok(Dependencies { deps })
    }

    /// The dependencies, from hart 0 on.
    pub fn as_slice(&self) -> &[Deps]
        ensures { result.now ≡ self.now }
    {
        self.deps.as_slice()
    }
}

/// For each operation the number of the operation that wrote what it loads, where it loads.
pub type Sources = List<Option<u8>>;

/// The stores of one location in their order, the initial one first, by their numbers.
pub type Stores = List<u8>;

/// The order of each location's stores.
pub type StoreOrder = List<Stores>;
