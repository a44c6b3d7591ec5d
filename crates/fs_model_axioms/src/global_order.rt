//! The global memory order.

ghost use Rattle.std.specs.Prelude.{◌≡◌, ◌≤◌, ◌-◌, ◌++◌, length, ◌<◌, IfOk, IsOkUnless};
ghost use Rattle.std.specs.List.{range_with_len};
ghost use Rattle.fs_kinds.specs.Limits.{most_numbered};
ghost use Rattle.fs_kinds.specs.declared.fault.Fault.TheVariants.{Memory};
ghost use Rattle.fs_model.specs.Numbers.{stands_before};
ghost use Rattle.fs_model.specs.Operations.{PreExecution, operations as operations_of};
ghost use Rattle.fs_model.specs.Source.{gmo};
ghost use Rattle.fs_model_axioms.specs.Earlier.{AreEarlier, has_bit};

use crate::numbered::count_accesses;
use fs_kinds::Fault;
use fs_model::{Operation, stands_before};
use std::alloc::{AllocError, Global};
use std::marker::Model;

/// A global memory order: the initial stores by location, and then the harts' operations in some order, by their
/// numbers.
#[derive(Drop)]
pub struct GlobalOrder {
    listed: Vec<u8>,
    // For each number below 64 the numbers below 64 that stand before it, as bits.
    earlier: [u64; 64],
}

impl Model for GlobalOrder {
    ghost use Rattle.std.specs.Prelude.{ℕ, List};
    ghost use Rattle.fs_model_axioms.specs.Earlier.{AreEarlier, has_bit};

    ghost Value = { List ℕ };

    ghost view = { λ o. o.listed.items };

    ghost invariant = { λ o. AreEarlier o.listed.items o.earlier };
}

impl GlobalOrder {
    /// The global memory order in which the harts' operations come in this order, of at most 256 operations. The error
    /// is F19.
    pub fn new(alloc: Global, operations: &[Operation], order: &[u8]) -> Result<GlobalOrder, Fault>
        requires { length operations.now ≤ most_numbered }
        ensures ok { (x : PreExecution) → operations.now ≡ operations_of x
            → IfOk result (λ made. made ≡ gmo x order.now) }
        ensures err { IsOkUnless result Memory }
    {
        let listed = list(alloc, count_accesses(operations), operations.len(), order)?;
        let earlier = earlier(&listed);
        Ok(GlobalOrder { listed, earlier })
    }

    /// The operations in this order, by their numbers.
    pub fn as_slice(&self) -> &[u8]
        ensures { result.now ≡ self.now }
    {
        self.listed.as_slice()
    }

    /// Does operation a stand before operation b? Not where one of them isn't listed.
    pub fn stands_before(&self, a: usize, b: usize) -> bool
        ensures { result ≡ stands_before self.now a b }
    {
        if a < 64 && b < 64 {
            has_bit(self.earlier[b], a as u8)
        } else {
            stands_before(&self.listed, a, b)
        }
    }
}

/// The numbers from `count` up to `total`, and then the order.
fn list(alloc: Global, count: usize, total: usize, order: &[u8]) -> Result<Vec<u8>, AllocError>
    requires from { count ≤ total }
    requires to { total ≤ most_numbered }
    ensures { IfOk result (λ listed. listed.items ≡ range_with_len count (total - count) ++ order.now) }
{
    let mut listed = Vec::new(alloc);
    for number in count..total {
        listed.push(number as u8)?;
    }
    listed.extend_from_slice(order)?;
    Ok(listed)
}

fn has_bit(mask: u64, number: u8) -> bool
    requires { number < 64 }
    ensures { result ≡ has_bit mask number }
{
    mask >> number & 1 == 1
}

/// For each number below 64 those that stand before it.
fn earlier(listed: &[u8]) -> [u64; 64]
    ensures { AreEarlier listed.now result }
{
    let mut earlier = [0; 64];
    let mut seen: u64 = 0;
    for number in listed {
        let number = *number;
        if number < 64 {
            earlier[usize::from(number)] |= seen;
            seen |= 1 << number;
        }
    }
    earlier
}
