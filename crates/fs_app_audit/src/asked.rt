//! What is asked of a test: which of its FENCEs count, and to which test fences are to be added.

ghost use Rattle.std.specs.Prelude.{◌≡◌, IfOk};
ghost use Rattle.fs_model.specs.Test.{IsBounded};
ghost use Rattle.fs_app_audit.specs.Audit.{asked, bare};

use crate::{eased, unfenced};
use fs_litmus::Test;
use std::alloc::{AllocError, Global};

/// What fences are found for.
#[derive(Clone, Copy)]
pub enum Purpose {
    /// To say of each FENCE what the memory needs of it. Each counts that orders memory.
    Advise,
    /// To write the test with them. Each FENCE that names devices stays, and the others count.
    Write,
}

/// The test with the FENCEs that count.
pub(crate) fn asked(alloc: Global, purpose: Purpose, test: Test) -> Result<Test, AllocError>
    ensures { IfOk result (λ made. made ≡ asked purpose test) }
{
    match purpose {
        Purpose::Advise => Ok(test),
        Purpose::Write => eased(alloc, test),
    }
}

/// The test without FENCEs.
pub(crate) fn bare(alloc: Global, purpose: Purpose, test: Test) -> Result<Test, AllocError>
    requires { IsBounded test }
    ensures { IfOk result (λ made. made ≡ bare purpose test) }
{
    let bare = unfenced(alloc, test)?;
    match purpose {
        Purpose::Advise => eased(alloc, bare),
        Purpose::Write => Ok(bare),
    }
}
