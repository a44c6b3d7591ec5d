//! What runs and a global memory order show: the final state, and whether it is the outcome that a test asks for.

ghost use Rattle.std.specs.Prelude.{◌≡◌, ℕ, List};
ghost use Rattle.fs_model.specs.Condition.{condition_of};
ghost use Rattle.fs_model.specs.Operations.{PreExecution, operations as operations_of};
ghost use Rattle.fs_model.specs.Source.{gmo};
ghost use Rattle.fs_model.specs.Execution.{pre_execution};
ghost use Rattle.fs_model.specs.Shows.{holds, is_outcome, final_word, has_outcome};
ghost use Rattle.fs_hart.specs.Steps.{steps_in};
ghost use Rattle.fs_model_axioms.specs.Among.{stores_at, last_store, word_among};
ghost use Rattle.fs_model_axioms.specs.Final.{register_in, AreFinal};

use crate::global_order::GlobalOrder;
use fs_hart::Trace;
use fs_instr::Reg;
use fs_model::{Location, Operation, Outcome, Quantifier, Test};

fn stores_at(operations: &[Operation], address: u32, a: u8) -> bool
    ensures { result ≡ stores_at operations.now address a }
{
    let storing = Operation::numbered(operations, usize::from(a));
    storing.is_store() && storing.address == Some(address)
}

/// The last store to the address.
fn last_store(operations: &[Operation], order: &GlobalOrder, address: u32) -> Option<u8>
    ensures { result ≡ last_store operations.now order.now address }
{
    let mut last = None;
    for a in order.as_slice() {
        if stores_at(operations, address, *a) {
            last = Some(*a);
        }
    }
    last
}

/// The word that the location ends with in this global memory order: that of its last store.
pub fn final_word(operations: &[Operation], order: &GlobalOrder, location: u8) -> u32
    ensures among { result ≡ word_among operations.now order.now location }
    ensures exact { (x : PreExecution) (listed : List ℕ)
        → operations.now ≡ operations_of x
        → order.now ≡ gmo x listed
        → result ≡ final_word x listed location }
{
    let Some(last) = last_store(operations, order, Location::address(location)) else {
        return 0;
    };
    Operation::numbered(operations, usize::from(last))
        .stored
        .unwrap_or(0)
}

/// The word that a hart's register ends with; 0 where there is no such hart.
pub fn final_register(traces: &[Trace], hart: u8, register: Reg) -> u32
    ensures { result ≡ register_in traces.now hart register }
{
    if usize::from(hart) < traces.len() {
        traces[usize::from(hart)].final_reg(register)
    } else {
        0
    }
}

/// Is the condition true at the end?
fn holds(
    traces: &[Trace],
    operations: &[Operation],
    order: &GlobalOrder,
    condition: &Outcome,
) -> bool
    ensures { result
        ≡ holds (register_in traces.now) (word_among operations.now order.now) (condition_of condition.now) }
{
    match condition {
        Outcome::Always => true,
        Outcome::Never => false,
        Outcome::RegisterIs { hart, reg, word } => final_register(traces, *hart, *reg) == *word,
        Outcome::LocationIs { location, word } => final_word(operations, order, *location) == *word,
        Outcome::Deny(denied) => !holds(traces, operations, order, denied),
        Outcome::Both(left, right) => {
            holds(traces, operations, order, left) && holds(traces, operations, order, right)
        }
        Outcome::Either(left, right) => {
            holds(traces, operations, order, left) || holds(traces, operations, order, right)
        }
    }
}

/// Is a final state the outcome that the quantifier asks for, where the condition is so in it?
pub fn is_outcome(quantifier: Quantifier, condition: bool) -> bool
    ensures { result ≡ is_outcome quantifier condition }
{
    match quantifier {
        Quantifier::Exists | Quantifier::NotExists => condition,
        Quantifier::Forall => !condition,
    }
}

/// Do the runs show the outcome that the test asks for, in this global memory order? There is a run of each hart, with
/// the registers that its steps end with.
pub fn has_outcome(
    test: &Test,
    traces: &[Trace],
    operations: &[Operation],
    order: &GlobalOrder,
) -> bool
    requires { AreFinal test.now traces.now }
    ensures { (listed : List ℕ)
        → operations.now ≡ operations_of (pre_execution test.now (steps_in traces.now))
        → order.now ≡ gmo (pre_execution test.now (steps_in traces.now)) listed
        → result ≡ has_outcome test.now (record { traces = steps_in traces.now; order = listed }) }
{
    is_outcome(
        test.quantifier,
        holds(traces, operations, order, &test.condition),
    )
}
