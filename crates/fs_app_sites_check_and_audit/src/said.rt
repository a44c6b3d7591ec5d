//! What is said of files as they are written.

ghost use Rattle.std.specs.Prelude.{◌≡◌, ◌≢◌, ℕ, List, Option, IfOk, IfErr};
ghost use Rattle.std.specs.List.{list_any};
ghost use Rattle.fs_kinds.specs.declared.fault.Fault.TheVariants.{Memory};
ghost use Rattle.fs_model.specs.Witness.{Witness};
ghost use Rattle.fs_app_test.specs.Status.{is_kind};
ghost use Rattle.fs_app_test.specs.Verdicts.{IsFirstTestFault, IsTested};
ghost use Rattle.fs_app_sites_check_and_audit.specs.Audited.{AreSaid, IsSaidFault, together};

use fs_app_audit::read_shared;
use fs_app_sites::File;
use fs_app_test::{Kind, judge_test};
use fs_kinds::Fault;
use std::alloc::Global;

/// What is said of the bytes of a file.
fn said_of(alloc: Global, bytes: &[u8], inferences: usize) -> Result<Kind, Fault>
    ensures ok { IfOk result (λ kind. (why : List ℕ) × (witness : Option Witness) × IsTested bytes.now kind why witness) }
    ensures err { IfErr result (λ f. f ≢ Memory → IsFirstTestFault bytes.now f) }
{
    let own = read_shared(alloc, bytes)?;
    let said = judge_test(alloc, &own, inferences)?;
    Ok(said.kind)
}

/// What is said of each file. The first fault of each file in turn, as `test` answers it. Each is read and judged as it
/// is written.
pub(crate) fn said_of_files(
    alloc: Global,
    files: &[File],
    inferences: usize,
) -> Result<Vec<Kind>, Fault>
    ensures ok { IfOk result (λ kinds. AreSaid files.now kinds.items) }
    ensures err { IfErr result (λ f. f ≢ Memory → IsSaidFault files.now f) }
{
    let mut kinds = Vec::new(alloc);
    for file in files {
        kinds.push(said_of(alloc, &file.bytes, inferences)?)?;
    }
    Ok(kinds)
}

fn has(kind: Kind, kinds: &[Kind]) -> bool
    ensures { result ≡ list_any (is_kind kind) kinds.now }
{
    kinds.iter().any(|other| kind == *other)
}

/// What is said of all together: allowed where one is, else forbidden where one is.
pub(crate) fn together(kinds: &[Kind]) -> Kind
    ensures { result ≡ together kinds.now }
{
    if has(Kind::Allowed, kinds) {
        Kind::Allowed
    } else if has(Kind::Forbidden, kinds) {
        Kind::Forbidden
    } else {
        Kind::Vacuous
    }
}
