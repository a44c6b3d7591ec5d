//! What a walk over the choice lists of a hart has found.

ghost use Rattle.std.specs.Prelude.{◌≡◌, ◌≤◌, ◌+◌, ◌⊎◌, ◌++◌, [], ◌∷◌, Some, OnOk, IfErr, OnErr};
ghost use Rattle.std.specs.Option.{option_or};
ghost use Rattle.fs_kinds.specs.declared.fault.Fault.{Fault};
ghost use Rattle.fs_model.specs.TooMany.{most_choice_lists};

use crate::lists::Steps;
use crate::trace::Trace;
use fs_kinds::Fault;
use fs_model::Step;
use std::alloc::Global;

/// The most choice lists of a hart that may end.
const MOST_CHOICE_LISTS: u32 = 100_000;

// A walk over the choice lists of a hart, depth first.
#[derive(Drop)]
pub(crate) struct Walk {
    pub(crate) alloc: Global,
    // The steps that lead to the state from which it goes on.
    pub(crate) path: Vec<Step>,
    // The whole runs that were found.
    pub(crate) traces: Vec<Trace>,
    // How many choice lists have ended.
    pub(crate) ends: u32,
    // The instruction at which the first list went astray that did.
    pub(crate) astray: Option<u8>,
    ghost few: { ends ≤ most_choice_lists },
}

impl Walk {
    /// Counts one end more.
    fn count(&mut self) -> Result<(), Fault>
        ensures path { self.new.path.items ≡ self.old.path.items }
        ensures traces { self.new.traces.items ≡ self.old.traces.items }
        ensures astray { self.new.astray ≡ self.old.astray }
        ensures ok { OnOk result (self.new.ends ≡ self.old.ends + 1) }
        ensures err { IfErr result (λ fault. fault ≡ Fault.TooManyTraces) }
        ensures many { OnErr result (self.old.ends ≡ most_choice_lists) }
    {
        if self.ends == MOST_CHOICE_LISTS {
            return Err(Fault::TooManyTraces);
        }
        self.ends += 1;
        Ok(())
    }

    /// The path is a whole run, and the hart has these registers.
    pub(crate) fn end_whole(&mut self, registers: [u32; 32]) -> Result<(), Fault>
        ensures path { self.new.path.items ≡ self.old.path.items }
        ensures astray { self.new.astray ≡ self.old.astray }
        ensures ends { OnOk result (self.new.ends ≡ self.old.ends + 1) }
        ensures traces { OnOk result (self.new.traces.items ≡ self.old.traces.items
            ++ (record { steps = self.old.path.items; registers = registers }) ∷ []) }
        ensures err { IfErr result (λ fault. (fault ≡ Fault.Memory)
            ⊎ ((fault ≡ Fault.TooManyTraces) × (self.old.ends ≡ most_choice_lists))) }
    {
        self.count()?;
        let steps = Steps::new(Vec::from_slice(self.alloc, &self.path)?);
        self.traces.push(Trace { steps, registers })?;
        Ok(())
    }

    /// The instruction at this position goes astray.
    pub(crate) fn end_astray(&mut self, at: u8) -> Result<(), Fault>
        ensures path { self.new.path.items ≡ self.old.path.items }
        ensures traces { self.new.traces.items ≡ self.old.traces.items }
        ensures astray { OnOk result (self.new.astray ≡ option_or self.old.astray (Some at)) }
        ensures ends { OnOk result (self.new.ends ≡ self.old.ends + 1) }
        ensures err { IfErr result (λ fault. (fault ≡ Fault.TooManyTraces) × (self.old.ends ≡ most_choice_lists)) }
    {
        self.count()?;
        self.astray = self.astray.or(Some(at));
        Ok(())
    }
}
