//! Operations with an order of the harts' own: the sources that it gives, and the axioms as tests of one operation or
//! of two.

ghost use Rattle.std.specs.Prelude.{◌≡◌, ◌≤◌, ℕ, List, length, map, IfOk, IsOkUnless};
ghost use Rattle.fs_kinds.specs.Limits.{most_numbered};
ghost use Rattle.fs_kinds.specs.declared.fault.Fault.TheVariants.{Memory};
ghost use Rattle.fs_model.specs.Numbers.{numbers_below, stands_before};
ghost use Rattle.fs_model.specs.Operations.{PreExecution, operations as operations_of, accesses};
ghost use Rattle.fs_model.specs.Source.{gmo, source_in};
ghost use Rattle.fs_model.specs.Tests.{returns_source, keeps_atomicity};
ghost use Rattle.fs_hart.specs.Steps.{steps_in};
ghost use Rattle.fs_model_axioms.specs.Ordered.{source_at};

use crate::atomicity::keeps_atomicity;
use crate::global_order::GlobalOrder;
use crate::numbered::count_accesses;
use crate::source::{returns_source, source_in};
use fs_hart::{Operations, Trace};
use fs_kinds::Fault;
use fs_model::Operation;
use std::alloc::{AllocError, Global};
use std::marker::Model;

/// The operations of runs and the initial stores, with an order of the harts' operations.
#[derive(Drop)]
pub struct Ordered {
    operations: Operations,
    listed: Vec<u8>,
    // How many operations are the harts'.
    count: usize,
    order: GlobalOrder,
    sources: Vec<Option<u8>>,
}

impl Model for Ordered {
    ghost use Rattle.fs_model_axioms.specs.Ordered.{Arrangement, Keeps};

    ghost Value = { Arrangement };

    ghost view = { λ o. record { operations = o.operations; listed = o.listed.items } };

    ghost invariant = { λ o. Keeps o.operations o.listed.items o.count o.order o.sources.items };
}

impl Ordered {
    /// The operations with this order of the harts' own, by their numbers. The error is F19.
    pub fn new(alloc: Global, operations: Operations, listed: &[u8]) -> Result<Ordered, Fault>
        requires { length operations ≤ most_numbered }
        ensures ok { IfOk result (λ made. made ≡ record { operations = operations; listed = listed.now }) }
        ensures err { IsOkUnless result Memory }
    {
        let count = count_accesses(operations.as_slice());
        let order = GlobalOrder::new(alloc, operations.as_slice(), listed)?;
        let sources = sources(alloc, operations.as_slice(), &order)?;
        let listed = Vec::from_slice(alloc, listed)?;
        Ok(Ordered {
            operations,
            listed,
            count,
            order,
            sources,
        })
    }

    /// The operations, by their numbers.
    pub fn operations(&self) -> &[Operation]
        ensures { result.now ≡ self.now.operations }
    {
        self.operations.as_slice()
    }

    /// The harts' operations in their order, by their numbers.
    pub fn listed(&self) -> &[u8]
        ensures { result.now ≡ self.now.listed }
    {
        self.listed.as_slice()
    }

    /// How many operations are the harts': those with the least numbers.
    pub fn count(&self) -> usize
        ensures { (x : PreExecution) → self.now.operations ≡ operations_of x → result ≡ length (accesses x) }
    {
        self.count
    }

    /// The global memory order: the initial stores, and then the harts' operations.
    pub fn order(&self) -> &GlobalOrder
        ensures { (x : PreExecution) → self.now.operations ≡ operations_of x → result.now ≡ gmo x self.now.listed }
    {
        &self.order
    }

    /// The source of each operation in the global memory order, by the operations' numbers.
    pub fn sources(&self) -> &[Option<u8>]
        ensures { (x : PreExecution) → self.now.operations ≡ operations_of x
            → result.now ≡ map (source_in x self.now.listed) (numbers_below (length self.now.operations)) }
    {
        self.sources.as_slice()
    }

    /// The source of operation a in the global memory order: the store that it returns, where it loads.
    pub fn source(&self, a: usize) -> Option<u8>
        ensures { (x : PreExecution) → self.now.operations ≡ operations_of x → result ≡ source_in x self.now.listed a }
    {
        source_at(&self.sources, a)
    }

    /// Does operation a stand before operation b in the global memory order?
    pub fn stands_before(&self, a: usize, b: usize) -> bool
        ensures { (x : PreExecution) → self.now.operations ≡ operations_of x
            → result ≡ stands_before (gmo x self.now.listed) a b }
    {
        self.order.stands_before(a, b)
    }

    /// Does operation a return the word of its source? It does where it isn't a load.
    pub fn returns_source(&self, a: usize) -> bool
        ensures { (x : PreExecution) → self.now.operations ≡ operations_of x
            → result ≡ returns_source x (source_in x self.now.listed) a }
    {
        returns_source(self.operations(), self.source(a), a)
    }

    /// Do r and w keep the atomicity axiom? They do where they aren't a pair of an lr.w and a later sc.w. The runs are
    /// those of the operations.
    pub fn keeps_atomicity(&self, traces: &[Trace], r: usize, w: usize) -> bool
        ensures { (x : PreExecution) → self.now.operations ≡ operations_of x → x.traces ≡ steps_in traces.now
            → result ≡ keeps_atomicity x (source_in x self.now.listed) (gmo x self.now.listed) r w }
    {
        keeps_atomicity(
            traces,
            self.operations(),
            self.order(),
            self.source(r),
            r,
            w,
        )
    }
}

/// The listed source of an operation; past the last one there is none.
pub fn source_at(sources: &[Option<u8>], a: usize) -> Option<u8>
    ensures { result ≡ source_at sources.now a }
{
    sources.get(a).copied().flatten()
}

/// The source of each operation in this order.
fn sources(
    alloc: Global,
    operations: &[Operation],
    order: &GlobalOrder,
) -> Result<Vec<Option<u8>>, AllocError>
    ensures { (x : PreExecution) (listed : List ℕ) → operations.now ≡ operations_of x → order.now ≡ gmo x listed
        → IfOk result (λ sources. sources.items ≡ map (source_in x listed) (numbers_below (length operations.now))) }
{
    let mut sources = Vec::new(alloc);
    for a in 0..operations.len() {
        sources.push(source_in(operations, order, a))?;
    }
    Ok(sources)
}
