//! The atomicity axiom (RISC-V Unprivileged ISA 20191213, section "Memory Model Axioms").

ghost use Rattle.std.specs.Prelude.{◌≡◌, ℕ, Option, length};
ghost use Rattle.std.specs.List.{list_any};
ghost use Rattle.fs_model.specs.Numbers.{numbers_below};
ghost use Rattle.fs_model.specs.Operations.{PreExecution, operations as operations_of};
ghost use Rattle.fs_model.specs.Tests.{keeps_atomicity};
ghost use Rattle.fs_hart.specs.Steps.{steps_in};
ghost use Rattle.fs_model_axioms.specs.Among.{comes_between, follows_closely};

use crate::global_order::GlobalOrder;
use fs_hart::{Trace, steps_of};
use fs_model::{Operation, are_paired};

/// Is m a store of another hart to the word of w, after s and before w in the order?
fn comes_between(operations: &[Operation], order: &GlobalOrder, s: u8, w: usize, m: usize) -> bool
    ensures { result ≡ comes_between operations.now order.now s w m }
{
    let ending = Operation::numbered(operations, w);
    let storing = Operation::numbered(operations, m);
    storing.is_store()
        && storing.is_same_word(&ending)
        && !storing.is_same_hart(&ending)
        && order.stands_before(usize::from(s), m)
        && order.stands_before(m, w)
}

/// Is such a store among the operations?
fn any_comes_between(operations: &[Operation], order: &GlobalOrder, s: u8, w: usize) -> bool
    ensures { result ≡ list_any (comes_between operations.now order.now s w) (numbers_below (length operations.now)) }
{
    (0..operations.len()).any(|m| comes_between(operations, order, s, w, m))
}

/// Does the source precede w, with no such store between?
fn follows_closely(
    operations: &[Operation],
    order: &GlobalOrder,
    source: Option<u8>,
    w: usize,
) -> bool
    ensures { result ≡ follows_closely operations.now order.now source w }
{
    let Some(s) = source else {
        return true;
    };
    order.stands_before(usize::from(s), w) && !any_comes_between(operations, order, s, w)
}

/// Do r, which has this source, and w keep the atomicity axiom? They do where they aren't a pair of an lr.w and a later
/// sc.w.
pub(crate) fn keeps_atomicity(
    traces: &[Trace],
    operations: &[Operation],
    order: &GlobalOrder,
    source: Option<u8>,
    r: usize,
    w: usize,
) -> bool
    ensures { (x : PreExecution) (rf : ℕ → Option ℕ)
        → operations.now ≡ operations_of x
        → x.traces ≡ steps_in traces.now
        → source ≡ rf r
        → result ≡ keeps_atomicity x rf order.now r w }
{
    let first = Operation::numbered(operations, r);
    let second = Operation::numbered(operations, w);
    if !first.precedes(&second) {
        return true;
    }
    let steps = steps_of(traces, first.hart);
    !are_paired(steps, usize::from(first.place), usize::from(second.place))
        || follows_closely(operations, order, source, w)
}
