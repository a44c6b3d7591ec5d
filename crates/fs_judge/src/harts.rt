//! What the runs of each hart do.

ghost use Rattle.std.specs.Prelude.{IsOkUnless};
ghost use Rattle.fs_kinds.specs.declared.fault.Fault.TheVariants.{Memory};

use crate::doings::doings;
use crate::forms::forms;
use crate::rules::{Asked, no_fence};
use fs_instr::Instr;
use fs_judge_hunt::{Form, Forwarded, Hart, Numbered, Row, Rule, no_run, put, words_for, written};
use fs_kinds::{Fault, List, OperationName};
use fs_model::Test;
use fs_region_refutation::Lone;
use std::alloc::{AllocError, Global};

fn all_runs(alloc: Global, words: usize, count: usize) -> Result<Row, AllocError> {
    let mut row = no_run(alloc, words)?;
    for run in 0..count {
        put(&mut row, run);
    }
    Ok(row)
}

/// The names of this hart, with their numbers.
fn names_of(alloc: Global, names: &[OperationName], hart: u8) -> Result<Vec<Numbered>, AllocError> {
    let mut found = Vec::new(alloc);
    let mut number: u8 = 0;
    for name in names {
        if name.hart == hart {
            found.push(Numbered {
                number,
                name: *name,
            })?;
        }
        number = number.saturating_add(1);
    }
    Ok(found)
}

/// The rules that need no fence, and the names between which rule 12 may hold.
fn rules(
    alloc: Global,
    words: usize,
    runs: &[Lone],
    code: &[Instr],
    forms: &[Form],
    names: &[Numbered],
) -> Result<(Vec<Rule>, Vec<Forwarded>), Fault>
    ensures err { IsOkUnless result Memory }
{
    let bottom = no_fence(alloc)?;
    let asked = Asked {
        words,
        runs,
        code,
        forms,
        bottom: &bottom,
    };
    let rules = asked.rules(alloc, names)?;
    let forwarded = asked.forwarded(alloc, names, &rules)?;
    Ok((rules, forwarded))
}

/// The code of the hart; none where it is no hart.
fn code_of(test: &Test, hart: u8) -> &[Instr] {
    match test.codes.as_slice().get(usize::from(hart)) {
        Some(code) => code.as_slice(),
        None => &[],
    }
}

/// What the runs of the hart of this number do. The names are all of the test's. The cost: for each name of the hart
/// the runs times the logarithm of how many different things they do there, and for each two names of it the rules of
/// preserved program order, once for the runs that execute the same instructions and access the same locations. The
/// error is F19.
fn hart_of(
    alloc: Global,
    test: &Test,
    all_names: &[OperationName],
    hart: u8,
    runs: &[Lone],
) -> Result<Hart, Fault>
    ensures err { IsOkUnless result Memory }
{
    let words = words_for(runs.len());
    let names = names_of(alloc, all_names, hart)?;
    let doings = doings(alloc, test, words, runs, &names)?;
    let forms = forms(alloc, words, runs)?;
    let code = code_of(test, hart);
    let (rules, forwarded) = rules(alloc, words, runs, code, &forms, &names)?;
    Ok(Hart {
        words,
        all: all_runs(alloc, words, runs.len())?,
        names,
        doings,
        forms,
        rules,
        forwarded,
        written: written(alloc, test, hart)?,
    })
}

/// What the runs of each hart do.
pub(crate) fn harts(
    alloc: Global,
    test: &Test,
    names: &[OperationName],
    runs: &[List<Lone>],
) -> Result<Vec<Hart>, Fault>
    ensures err { IsOkUnless result Memory }
{
    let mut harts = Vec::new(alloc);
    let mut number: u8 = 0;
    for runs in runs {
        harts.push(hart_of(alloc, test, names, number, runs.as_slice())?)?;
        number = number.saturating_add(1);
    }
    Ok(harts)
}
