//! The names of operations in an order.

ghost use Rattle.std.specs.Prelude.{◌≡◌, IfOk};
ghost use Rattle.std.specs.List.{filter_map};
ghost use Rattle.fs_cand_witness.specs.Naming.{name_at};

use crate::operation_name;
use fs_cand::Candidate;
use fs_kinds::{List, OperationName};
use std::alloc::{AllocError, Global};

/// The names of the operations of these numbers. Initial stores are left out.
pub(crate) fn names(
    alloc: Global,
    candidate: &Candidate,
    numbers: &[u8],
) -> Result<List<OperationName>, AllocError>
    ensures { IfOk result (λ names. names ≡ filter_map (name_at candidate.now) numbers.now) }
{
    let mut names = Vec::new(alloc);
    for number in numbers {
        if let Some(name) = operation_name(candidate, usize::from(*number)) {
            names.push(name)?;
        }
    }
    Ok(List::new(names))
}
