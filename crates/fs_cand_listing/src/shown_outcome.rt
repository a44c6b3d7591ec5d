//! Whether a raw candidate shows the outcome that the test asks for.

ghost use Rattle.std.specs.Prelude.{◌≡◌, false, ℕ, List, Option, None, [], option_and_then, unwrap_or};
ghost use Rattle.std.specs.List.{last_or, slice_index_or};
ghost use Rattle.fs_model.specs.Condition.{condition_of};
ghost use Rattle.fs_model.specs.Operations.{operations as operations_of};
ghost use Rattle.fs_model.specs.Execution.{pre_execution};
ghost use Rattle.fs_model.specs.Shows.{holds};
ghost use Rattle.fs_hart.specs.Steps.{steps_in};
ghost use Rattle.fs_model_axioms.specs.Final.{register_in, AreFinal};
ghost use Rattle.fs_cand_listing.specs.RawCandidates.{candidate};
ghost use Rattle.fs_cand_listing.specs.ShowingTests.{has_outcome};
ghost use Rattle.fs_cand_listing.specs.inner.Listed.{numbered};
ghost use Rattle.fs_cand_listing.specs.inner.Tested.{may_be, word_among};

use fs_hart::Trace;
use fs_kinds::List;
use fs_model::{Operation, Outcome, Test};
use fs_model_axioms::{final_register, is_outcome};

/// The order of a location's stores; none where there is no such location.
fn order_of(orders: &[List<u8>], location: u8) -> &[u8]
    ensures { result.now ≡ slice_index_or orders.now location [] }
{
    match orders.get(usize::from(location)) {
        Some(order) => order.as_slice(),
        None => &[],
    }
}

fn last(order: &[u8]) -> Option<u8>
    ensures { result ≡ last_or None order.now }
{
    order.last().copied()
}

/// The word of this store.
fn stored(operations: &[Operation], store: Option<u8>) -> u32
    ensures { result ≡ unwrap_or (option_and_then (λ a. (numbered operations.now a).stored) store) 0 }
{
    let Some(store) = store else {
        return 0;
    };
    Operation::numbered(operations, usize::from(store))
        .stored
        .unwrap_or(0)
}

/// The word that the location ends with: that of its last store.
fn last_word(operations: &[Operation], orders: &[List<u8>], location: u8) -> u32
    ensures { result ≡ word_among operations.now orders.now location }
{
    stored(operations, last(order_of(orders, location)))
}

/// Is the condition true at the end?
fn holds(
    traces: &[Trace],
    operations: &[Operation],
    orders: &[List<u8>],
    condition: &Outcome,
) -> bool
    ensures { result
        ≡ holds (register_in traces.now) (word_among operations.now orders.now) (condition_of condition.now) }
{
    match condition {
        Outcome::Always => true,
        Outcome::Never => false,
        Outcome::RegisterIs { hart, reg, word } => final_register(traces, *hart, *reg) == *word,
        Outcome::LocationIs { location, word } => last_word(operations, orders, *location) == *word,
        Outcome::Deny(denied) => !holds(traces, operations, orders, denied),
        Outcome::Both(left, right) => {
            holds(traces, operations, orders, left) && holds(traces, operations, orders, right)
        }
        Outcome::Either(left, right) => {
            holds(traces, operations, orders, left) || holds(traces, operations, orders, right)
        }
    }
}

/// Do runs with these coherence orders show the outcome? There is a run of each hart, with the registers that its steps
/// end with.
pub(crate) fn has_outcome(
    test: &Test,
    traces: &[Trace],
    operations: &[Operation],
    orders: &[List<u8>],
) -> bool
    requires { AreFinal test.now traces.now }
    ensures { (sources : List (Option ℕ))
        → operations.now ≡ operations_of (pre_execution test.now (steps_in traces.now))
        → result ≡ has_outcome test.now (candidate (steps_in traces.now) sources orders.now) }
{
    is_outcome(
        test.quantifier,
        holds(traces, operations, orders, &test.condition),
    )
}

/// May the condition come out so, as far as the final registers tell?
fn may_be(traces: &[Trace], wanted: bool, condition: &Outcome) -> bool
    ensures { result ≡ may_be (register_in traces.now) wanted (condition_of condition.now) }
{
    match condition {
        Outcome::Always => wanted,
        Outcome::Never => !wanted,
        Outcome::RegisterIs { hart, reg, word } => {
            (final_register(traces, *hart, *reg) == *word) == wanted
        }
        Outcome::LocationIs { .. } => true,
        Outcome::Deny(denied) => may_be(traces, !wanted, denied),
        Outcome::Both(left, right) => {
            if wanted {
                may_be(traces, true, left) && may_be(traces, true, right)
            } else {
                may_be(traces, false, left) || may_be(traces, false, right)
            }
        }
        Outcome::Either(left, right) => {
            if wanted {
                may_be(traces, true, left) || may_be(traces, true, right)
            } else {
                may_be(traces, false, left) && may_be(traces, false, right)
            }
        }
    }
}

/// May these runs show the outcome, as far as their final registers tell? Where not, no candidate with them does.
pub(crate) fn may_show(test: &Test, traces: &[Trace]) -> bool
    requires { AreFinal test.now traces.now }
    ensures { result ≡ false → (sources : List (Option ℕ)) (orders : List (List ℕ))
        → has_outcome test.now (candidate (steps_in traces.now) sources orders) ≡ false }
{
    let wanted = is_outcome(test.quantifier, true);
    may_be(traces, wanted, &test.condition)
}
