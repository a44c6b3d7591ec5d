//! Pairs of an lr.w and an sc.w (RISC-V Unprivileged ISA 20191213, section "Load-Reserved/Store-Conditional
//! Instructions").

ghost use Rattle.std.specs.Prelude.{◌≡◌, ◌<◌, ◌||◌};
ghost use Rattle.std.specs.List.{list_any};
ghost use Rattle.fs_model.specs.Forms.{is_lr, is_sc};
ghost use Rattle.fs_model.specs.Numbers.{between};
ghost use Rattle.fs_model.specs.Operations.{instr_at, are_paired};

use crate::step::Step;
use fs_instr::Instr;

fn is_lr(steps: &[Step], at: usize) -> bool
    ensures { result ≡ is_lr (instr_at steps.now at) }
{
    steps
        .get(at)
        .is_some_and(|step| matches!(step.instr, Instr::Lr { .. }))
}

fn is_sc(steps: &[Step], at: usize) -> bool
    ensures { result ≡ is_sc (instr_at steps.now at) }
{
    steps
        .get(at)
        .is_some_and(|step| matches!(step.instr, Instr::Sc { .. }))
}

/// Is an lr.w or an sc.w between them?
fn has_either_between(steps: &[Step], i: usize, j: usize) -> bool
    requires { i < j }
    ensures { result ≡ list_any (λ k. is_lr (instr_at steps.now k) || is_sc (instr_at steps.now k)) (between i j) }
{
    (i + 1..j).any(|k| is_lr(steps, k) || is_sc(steps, k))
}

/// Are these steps of a run an lr.w and a later sc.w with no other lr.w or sc.w between? Linear in the steps.
pub fn are_paired(steps: &[Step], i: usize, j: usize) -> bool
    ensures { result ≡ are_paired steps.now i j }
{
    i < j && is_lr(steps, i) && is_sc(steps, j) && !has_either_between(steps, i, j)
}
