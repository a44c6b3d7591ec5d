//! In which runs of a hart each rule of preserved program order holds.

ghost use Rattle.std.specs.Prelude.{IsOkUnless};
ghost use Rattle.fs_kinds.specs.declared.fault.Fault.TheVariants.{Memory};

use fs_instr::Instr;
use fs_judge_hunt::{Form, Forwarded, Numbered, Row, Rule, has_all, is_empty, join, no_run};
use fs_kinds::{Fault, OperationName, Placement};
use fs_region_refutation::{Lone, Source, Sourced};
use std::alloc::{AllocError, Global};

/// What rules are asked of: runs of one hart, with their forms.
#[derive(Clone, Copy)]
pub(crate) struct Asked<'a> {
    pub(crate) words: usize,
    pub(crate) runs: &'a [Lone],
    /// The hart's.
    pub(crate) code: &'a [Instr],
    pub(crate) forms: &'a [Form],
    /// Without a fence.
    pub(crate) bottom: &'a Placement,
}

/// No fence anywhere.
pub(crate) fn no_fence(alloc: Global) -> Result<Placement, Fault>
    ensures err { IsOkUnless result Memory }
{
    Placement::bottom(alloc, &[])
}

/// May it load?
fn is_load(instr: &Instr) -> bool {
    matches!(
        instr,
        Instr::Lw { .. } | Instr::Lr { .. } | Instr::Amo { .. }
    )
}

/// May it store?
fn is_store(instr: &Instr) -> bool {
    matches!(
        instr,
        Instr::Sw { .. } | Instr::Sc { .. } | Instr::Amo { .. }
    )
}

/// May the rule of this number hold between these two, in some run? Most don't by what the two are.
fn may_hold(rule: u8, first: &Instr, second: &Instr) -> bool {
    match rule {
        1 | 11 | 13 => is_store(second),
        2 => is_load(first) && is_load(second),
        3 => matches!(first, Instr::Amo { .. } | Instr::Sc { .. }) && is_load(second),
        8 => matches!(first, Instr::Lr { .. }) && matches!(second, Instr::Sc { .. }),
        9 => second.address_source().is_some(),
        10 => second.data_source().is_some(),
        _ => true,
    }
}

fn sourced(name: OperationName, source: Option<OperationName>) -> Sourced {
    Sourced {
        name,
        source: source.map(Source::From),
    }
}

impl Asked<'_> {
    /// Does the rule hold in the run of this number?
    fn holds(&self, run: usize, rule: u8, first: OperationName, second: Sourced) -> bool {
        match self.runs.get(run) {
            Some(run) => run.is_rule(self.bottom, rule, sourced(first, None), second),
            None => false,
        }
    }

    /// The runs in which it holds.
    fn row(
        &self,
        alloc: Global,
        rule: u8,
        first: OperationName,
        second: Sourced,
    ) -> Result<Row, AllocError> {
        let mut row = no_run(alloc, self.words)?;
        for form in self.forms {
            if self.holds(form.run, rule, first, second) {
                join(&mut row, &form.row);
            }
        }
        Ok(row)
    }

    /// May it hold between these two names of the hart?
    fn may_hold(&self, rule: u8, first: OperationName, second: OperationName) -> bool {
        let (first, second) = (usize::from(first.at), usize::from(second.at));
        match (self.code.get(first), self.code.get(second)) {
            (Some(first), Some(second)) => may_hold(rule, first, second),
            _ => false,
        }
    }

    /// Adds the rules from the first name to the second, but for 4 and 12.
    fn add_pair(
        &self,
        alloc: Global,
        found: &mut Vec<Rule>,
        first: Numbered,
        second: Numbered,
    ) -> Result<(), AllocError> {
        for number in 1..14u8 {
            if number == 4 || number == 12 || !self.may_hold(number, first.name, second.name) {
                continue;
            }
            let source = if number == 3 { Some(first.name) } else { None };
            let row = self.row(alloc, number, first.name, sourced(second.name, source))?;
            if !is_empty(&row) {
                let is_whole = has_all(&row, self.runs.len());
                found.push(Rule {
                    first: first.number,
                    second: second.number,
                    number,
                    row,
                    is_whole,
                })?;
            }
        }
        Ok(())
    }

    /// The rules between these names, which are the hart's, but for 4 and 12.
    pub(crate) fn rules(&self, alloc: Global, names: &[Numbered]) -> Result<Vec<Rule>, AllocError> {
        let mut found = Vec::new(alloc);
        for first in names {
            for second in names {
                if first.number < second.number {
                    self.add_pair(alloc, &mut found, *first, *second)?;
                }
            }
        }
        Ok(found)
    }

    /// Adds what rule 12 puts behind the first name, where the load returns from the store, which depends on it.
    fn add_forwarded(
        &self,
        alloc: Global,
        found: &mut Vec<Forwarded>,
        first: Numbered,
        store: Numbered,
        second: Numbered,
    ) -> Result<(), AllocError> {
        let row = self.row(
            alloc,
            12,
            first.name,
            sourced(second.name, Some(store.name)),
        )?;
        if !is_empty(&row) {
            found.push(Forwarded {
                first: first.number,
                store: store.number,
                second: second.number,
                row,
            })?;
        }
        Ok(())
    }

    /// What rule 12 puts in order, where some load returns from a store on which an address or data dependency ends.
    pub(crate) fn forwarded(
        &self,
        alloc: Global,
        names: &[Numbered],
        rules: &[Rule],
    ) -> Result<Vec<Forwarded>, AllocError> {
        let mut found = Vec::new(alloc);
        let mut last = None;
        for rule in rules {
            let ends = Some((rule.first, rule.second));
            if (rule.number != 9 && rule.number != 10) || ends == last {
                continue;
            }
            last = ends;
            let (Some(first), Some(store)) = (
                with_number(names, rule.first),
                with_number(names, rule.second),
            ) else {
                continue;
            };
            for second in names {
                if second.number > store.number {
                    self.add_forwarded(alloc, &mut found, first, store, *second)?;
                }
            }
        }
        Ok(found)
    }
}

/// The name of this number.
fn with_number(names: &[Numbered], number: u8) -> Option<Numbered> {
    names.iter().copied().find(|name| name.number == number)
}
