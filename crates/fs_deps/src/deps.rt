//! The dependencies of a run, as bits.

ghost use Rattle.std.specs.Prelude.{◌≡◌, ◌≤◌, length, IfOk, IsOkUnless};
ghost use Rattle.fs_kinds.specs.Limits.{most_instructions};
ghost use Rattle.fs_deps.specs.Masks.{is_set, has_address, has_data, has_control, IsDepsOf};

use crate::tracker::Tracker;
use fs_hart::Trace;
use fs_kinds::Fault;
use std::alloc::Global;
use std::marker::Model;

/// The dependencies of one step of a run, each as a set of steps: bit k stands for step k.
#[derive(Clone, Copy)]
pub struct Masks {
    /// The steps on which it has an address dependency.
    pub address: u32,
    /// The steps on which it has a data dependency.
    pub data: u32,
    /// The steps on which it has a control dependency.
    pub control: u32,
}

/// The syntactic dependencies between the steps of a run.
#[derive(Drop)]
pub struct Deps {
    masks: Vec<Masks>,
}

impl Model for Deps {
    ghost use Rattle.std.specs.Prelude.{List};
    ghost use Rattle.fs_deps.specs.declared.deps.Masks.{Masks};

    ghost Value = { List Masks };

    ghost view = { λ d. d.masks.items };
}

/// Is bit k of the mask set?
fn has_bit(mask: u32, k: usize) -> bool
    ensures { result ≡ is_set mask k }
{
    k < 32 && mask >> k & 1 == 1
}

impl Deps {
    /// The syntactic dependencies between the steps of a run of at most 32 steps (RISC-V Unprivileged ISA 20191213,
    /// chapter "RVWMO Memory Consistency Model", section "Syntactic Dependencies"). Where memory runs out, the answer
    /// is `Fault::Memory`.
    pub fn of(alloc: Global, trace: &Trace) -> Result<Deps, Fault>
        requires { length trace.now.steps ≤ most_instructions }
        ensures ok { IfOk result (λ d. IsDepsOf trace.now.steps d) }
        ensures err { IsOkUnless result Fault.Memory }
    {
        let mut masks = Vec::with_capacity(alloc, trace.steps().len())?;
        let mut tracker = Tracker::new();
        for (j, step) in trace.steps().iter().enumerate() {
            masks.push(tracker.masks(&step.instr))?;
            tracker.take(&step.instr, j);
        }
        Ok(Deps { masks })
    }

    /// Has step b an address dependency on step a? Not where there is no such step.
    pub fn addr(&self, a: usize, b: usize) -> bool
        ensures { result ≡ has_address self.now a b }
    {
        self.masks
            .get(b)
            .is_some_and(|masks| has_bit(masks.address, a))
    }

    /// Has step b a data dependency on step a? Not where there is no such step.
    pub fn data(&self, a: usize, b: usize) -> bool
        ensures { result ≡ has_data self.now a b }
    {
        self.masks
            .get(b)
            .is_some_and(|masks| has_bit(masks.data, a))
    }

    /// Has step b a control dependency on step a? Not where there is no such step.
    pub fn ctrl(&self, a: usize, b: usize) -> bool
        ensures { result ≡ has_control self.now a b }
    {
        self.masks
            .get(b)
            .is_some_and(|masks| has_bit(masks.control, a))
    }
}
