//! Pictures of executions.

ghost use Rattle.std.specs.Prelude.{◌≡◌, ◌++◌, IfOk, codes, string_bytes};
ghost use Rattle.fs_app_dot.specs.Executions.{execution_title};
ghost use Rattle.fs_app_dot.specs.Pictures.{IsPicture};

use crate::picture::{Page, Picture};
use crate::pictures::execution_picture;
use fs_check::OrderedCandidate;
use fs_kinds::Placement;
use std::alloc::{AllocError, Global};

/// The execution with these fences, by this name.
pub(crate) fn drawn(
    alloc: Global,
    page: Page<'_>,
    placement: &Placement,
    name: &str,
    ordered: &OrderedCandidate,
) -> Result<Picture, AllocError>
    ensures named { IfOk result (λ picture. string_bytes picture.name ≡ name.now) }
    ensures drawn { IfOk result (λ picture. IsPicture page.entry.title.now (string_bytes picture.text)) }
{
    let name = String::from_str(alloc, name)?;
    let text = execution_picture(alloc, page.title, page.test, placement, page.lines, ordered)?;
    Ok(Picture { name, text })
}

/// The title of an execution.
pub(crate) fn execution_title(alloc: Global, title: &str) -> Result<String, AllocError>
    ensures { IfOk result (λ text. string_bytes text ≡ execution_title title.now) }
{
    format!(in alloc; "{}: execution", title)
}
