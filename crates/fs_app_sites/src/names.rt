//! The names of sites, and their numbers.

ghost use Rattle.std.specs.Prelude.{◌≡◌, map, string_bytes, OnOk, IfOk};
ghost use Rattle.fs_app_sites.specs.Sites.{copy_value, names_of, number_of, with_copies, with_name};

use crate::content::{Content, SiteCopy};
use std::alloc::{AllocError, Global};

/// The number of the site of this name, if it is one of these. It takes time of the names.
pub(crate) fn number_of(names: &[String], name: &str) -> Option<usize>
    ensures { result ≡ number_of (map string_bytes names.now) name.now }
{
    for (number, known) in names.iter().enumerate() {
        if known.as_str() == name {
            return Some(number);
        }
    }
    None
}

/// Appends the name, unless it is there.
fn add_name(alloc: Global, names: &mut Vec<String>, name: &str) -> Result<(), AllocError>
    ensures { OnOk result (map string_bytes names.new.items
        ≡ with_name (map string_bytes names.old.items) name.now) }
{
    if number_of(names, name).is_none() {
        names.push(String::from_str(alloc, name)?)?;
    }
    Ok(())
}

/// Appends the names of these copies that aren't there yet. Fails only for want of memory. Each copy's name is looked for
/// in all names.
pub fn add_copies(
    alloc: Global,
    names: &mut Vec<String>,
    copies: &[SiteCopy],
) -> Result<(), AllocError>
    ensures { OnOk result (map string_bytes names.new.items
        ≡ with_copies (map string_bytes names.old.items) (map copy_value copies.now)) }
{
    for copy in copies {
        add_name(alloc, names, copy.name.as_str())?;
    }
    Ok(())
}

/// The names of the sites of all files, in the order in which they first stand.
pub(crate) fn names_of(alloc: Global, contents: &[Content]) -> Result<Vec<String>, AllocError>
    ensures { IfOk result (λ names. map string_bytes names.items ≡ names_of contents.now) }
{
    let mut names = Vec::new(alloc);
    for content in contents {
        add_copies(alloc, &mut names, &content.copies)?;
    }
    Ok(names)
}
