//! The names of tests.

ghost use Rattle.std.specs.Prelude.{◌≡◌, IfOk, IfSome, IsNone, string_bytes};
ghost use Rattle.fs_kinds.specs.declared.fault.Fault.{Fault};
ghost use Rattle.fs_litmus.specs.Faults.{IsTestFault};
ghost use Rattle.fs_app_test.specs.Rows.{IsNameOf};

use fs_kinds::Fault;
use fs_litmus::read_test;
use std::alloc::{AllocError, Global};

/// The name of the test that the bytes are; nothing where they are none. The cost is that of `read_test`. Fails only
/// for want of memory.
pub fn test_name(alloc: Global, bytes: &[u8]) -> Result<Option<String>, AllocError>
    ensures named { IfOk result (λ o. IfSome o (λ name. IsNameOf bytes.now (string_bytes name))) }
    ensures absent { IfOk result (λ o. IsNone o → (fault : Fault) × IsTestFault bytes.now fault) }
{
    match read_test(alloc, bytes) {
        Ok(test) => Ok(Some(String::from_str(alloc, test.name.as_str())?)),
        Err(Fault::Memory) => Err(AllocError),
        Err(_) => Ok(None),
    }
}
