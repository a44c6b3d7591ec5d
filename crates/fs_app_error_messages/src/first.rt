//! The first fault of a test file.

ghost use Rattle.std.specs.Prelude.{◌≢◌, IfOk, IfSome, IsNone};
ghost use Rattle.fs_kinds.specs.declared.fault.Fault.{Fault};
ghost use Rattle.fs_litmus.specs.Faults.{HasFault, IsTestFault};

use fs_kinds::Fault;
use fs_litmus::read_test;
use std::alloc::{AllocError, Global};

/// The first fault of the file; none where it has none. Linear in the bytes. Fails only for want of memory.
pub(crate) fn first_fault(alloc: Global, bytes: &[u8]) -> Result<Option<Fault>, AllocError>
    ensures fault { IfOk result (λ o. IfSome o (IsTestFault bytes.now)) }
    ensures known { IfOk result (λ o. IfSome o (λ f. f ≢ Fault.Memory)) }
    ensures absent { IfOk result (λ o. IsNone o → (f : Fault) → ¬ HasFault bytes.now f) }
{
    match read_test(alloc, bytes) {
        Ok(_) => Ok(None),
        Err(Fault::Memory) => Err(AllocError),
        Err(fault) => Ok(Some(fault)),
    }
}
