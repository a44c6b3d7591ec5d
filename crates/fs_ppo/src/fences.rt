//! Fences between two operations.

ghost use Rattle.std.specs.Prelude.{◌≡◌, ◌+◌, ◌<◌};
ghost use Rattle.std.specs.List.{list_any};
ghost use Rattle.fs_kinds.specs.Limits.{most_numbered};
ghost use Rattle.fs_model.specs.Numbers.{between};
ghost use Rattle.fs_model.specs.Operations.{classes, place, trace_of, instr_at};
ghost use Rattle.fs_model.specs.Fences.{instr_orders, kind_orders, placed_before};
ghost use Rattle.fs_ppo.specs.inner.Parts.{placed_at};
ghost use Rattle.fs_ppo.specs.Rules.{OfRuns};

use crate::operations::{classes, hart, place, steps};
use fs_cand::Candidate;
use fs_hart::Step;
use fs_instr::Instr;
use fs_kinds::{Classes, Kind, Placement, Slot};

// What a fence asks of two operations.
#[derive(Clone, Copy)]
struct Pair {
    first: Classes,
    second: Classes,
}

impl Pair {
    fn of(candidate: &Candidate, a: usize, b: usize) -> Pair
        ensures { OfRuns candidate.now (λ x. result ≡ record { first = classes x a; second = classes x b }) }
    {
        Pair {
            first: classes(candidate, a),
            second: classes(candidate, b),
        }
    }
}

/// Does the instruction, a FENCE, order the first before the second? Letters for devices order nothing here.
fn instr_orders(instr: &Instr, pair: Pair) -> bool
    ensures { result ≡ instr_orders pair.first pair.second instr.now }
{
    let Pair { first, second } = pair;
    match *instr {
        Instr::Fence { before, after } => {
            (before.reads && first.reads || before.writes && first.writes)
                && (after.reads && second.reads || after.writes && second.writes)
        }
        Instr::FenceTso => Kind::Tso.orders(first, second),
        _ => false,
    }
}

/// Is step k a FENCE that orders them?
fn step_orders(steps: &[Step], k: usize, pair: Pair) -> bool
    ensures { result ≡ instr_orders pair.first pair.second (instr_at steps.now k) }
{
    steps
        .get(k)
        .is_some_and(|step| instr_orders(&step.instr, pair))
}

/// Does a FENCE between steps i and j order them?
fn any_step_orders(steps: &[Step], i: usize, j: usize, pair: Pair) -> bool
    requires { i < most_numbered }
    ensures { result ≡ list_any (λ k. instr_orders pair.first pair.second (instr_at steps.now k)) (between i j) }
{
    (i + 1..j).any(|k| step_orders(steps, k, pair))
}

/// Does a FENCE of the test between a and b order them?
pub(crate) fn is_written_between(candidate: &Candidate, a: usize, b: usize) -> bool
    ensures { OfRuns candidate.now (λ x. result
        ≡ list_any (λ k. instr_orders (classes x a) (classes x b) (instr_at (trace_of x a) k))
        (between (place x a) (place x b))) }
{
    any_step_orders(
        steps(candidate, a),
        usize::from(place(candidate, a)),
        usize::from(place(candidate, b)),
        Pair::of(candidate, a, b),
    )
}

/// The fence that the placement has right before step k of a run of the hart.
fn placed_before(steps: &[Step], hart: Option<u8>, k: usize, placement: &Placement) -> Option<Kind>
    ensures { result ≡ placed_at steps.now hart placement.now k }
{
    let hart = hart?;
    let at = steps.get(k)?.at;
    placement.get(Slot { hart, at })
}

fn kind_orders(kind: Option<Kind>, pair: Pair) -> bool
    ensures { result ≡ kind_orders pair.first pair.second kind }
{
    kind.is_some_and(|kind| kind.orders(pair.first, pair.second))
}

/// Does a placed fence order them that stands before a step after i and up to j?
fn any_placed_orders(
    steps: &[Step],
    hart: Option<u8>,
    i: usize,
    j: usize,
    placement: &Placement,
    pair: Pair,
) -> bool
    requires start { i < most_numbered }
    requires end { j < most_numbered }
    ensures { result
        ≡ list_any (λ k. kind_orders pair.first pair.second (placed_at steps.now hart placement.now k)) (between i
        (j + 1)) }
{
    (i + 1..j + 1).any(|k| kind_orders(placed_before(steps, hart, k, placement), pair))
}

/// Does a placed fence, before an instruction after a and up to b, order them?
pub(crate) fn is_placed_between(
    candidate: &Candidate,
    placement: &Placement,
    a: usize,
    b: usize,
) -> bool
    ensures { OfRuns candidate.now (λ x. result
        ≡ list_any (λ k. kind_orders (classes x a) (classes x b) (placed_before x placement.now a k))
        (between (place x a) (place x b + 1))) }
{
    any_placed_orders(
        steps(candidate, a),
        hart(candidate, a),
        usize::from(place(candidate, a)),
        usize::from(place(candidate, b)),
        placement,
        Pair::of(candidate, a, b),
    )
}
