//! Pictures, and of which file they are.

ghost use Rattle.std.specs.Prelude.{◌≡◌, ◌++◌, IfOk, OnOk};
ghost use Rattle.fs_app_why.specs.Traces.{as_list};

use fs_kinds::List;
use fs_model::Test;
use std::alloc::{AllocError, Global};

/// A picture of what `--why` tells.
#[derive(Drop)]
pub struct Picture {
    /// What is pictured, for the name of a file: `cycle-1`, `execution` or `without-P0-3`.
    pub name: String,
    /// The picture in DOT.
    pub text: String,
}

/// A test of which pictures are made, the lines of its file in which its instructions stand, and a title.
#[derive(Clone, Copy)]
pub(crate) struct Page<'a> {
    pub(crate) title: &'a str,
    pub(crate) test: &'a Test,
    pub(crate) lines: &'a [List<usize>],
}

/// Appends the picture, if there is one.
pub(crate) fn push_found(
    found: Option<Picture>,
    pictures: &mut Vec<Picture>,
) -> Result<(), AllocError>
    ensures { OnOk result (pictures.new.items ≡ pictures.old.items ++ as_list found) }
{
    match found {
        Some(picture) => pictures.push(picture)?,
        None => {}
    }
    Ok(())
}

/// The picture alone, if there is one.
pub(crate) fn listed(alloc: Global, found: Option<Picture>) -> Result<Vec<Picture>, AllocError>
    ensures { IfOk result (λ pictures. pictures.items ≡ as_list found) }
{
    let mut pictures = Vec::new(alloc);
    push_found(found, &mut pictures)?;
    Ok(pictures)
}
