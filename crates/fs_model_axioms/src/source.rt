//! Which store a load returns: the load value axiom (RISC-V Unprivileged ISA 20191213, section "Memory Model Axioms").

ghost use Rattle.std.specs.Prelude.{◌≡◌, ℕ, Option, List};
ghost use Rattle.fs_model.specs.Operations.{PreExecution, operations as operations_of};
ghost use Rattle.fs_model.specs.Source.{gmo, source_in};
ghost use Rattle.fs_model_axioms.specs.Among.{may_return};
ghost use Rattle.fs_model.specs.Tests.{returns_source};

use crate::global_order::GlobalOrder;
use fs_model::Operation;

/// Is s a store to the load's word that precedes it in the global memory order or in program order?
fn may_return(operations: &[Operation], order: &GlobalOrder, load: usize, s: u8) -> bool
    ensures { result ≡ may_return operations.now order.now load s }
{
    let loading = Operation::numbered(operations, load);
    let storing = Operation::numbered(operations, usize::from(s));
    storing.is_store()
        && storing.is_same_word(&loading)
        && (order.stands_before(usize::from(s), load) || storing.precedes(&loading))
}

/// The number of the store that the load returns in this global memory order: the latest of the stores to its word that
/// precede it in this order or in program order.
pub(crate) fn source_in(operations: &[Operation], order: &GlobalOrder, load: usize) -> Option<u8>
    ensures { (x : PreExecution) (listed : List ℕ)
        → operations.now ≡ operations_of x
        → order.now ≡ gmo x listed
        → result ≡ source_in x listed load }
{
    let mut source = None;
    for s in order.as_slice() {
        if may_return(operations, order, load, *s) {
            source = Some(*s);
        }
    }
    source
}

/// Does operation a, which has this source, return its word? It does where it isn't a load.
pub(crate) fn returns_source(operations: &[Operation], source: Option<u8>, a: usize) -> bool
    ensures { (x : PreExecution) (rf : ℕ → Option ℕ)
        → operations.now ≡ operations_of x
        → source ≡ rf a
        → result ≡ returns_source x rf a }
{
    let Some(loaded) = Operation::numbered(operations, a).loaded else {
        return true;
    };
    let Some(source) = source else {
        return false;
    };
    Operation::numbered(operations, usize::from(source)).stored == Some(loaded)
}
