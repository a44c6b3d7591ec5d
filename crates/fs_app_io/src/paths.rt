//! What a list of files names.

ghost use Rattle.std.specs.Prelude.{◌≡◌, ◌++◌, map, option_map, IfOk, OnOk, string_bytes};
ghost use Rattle.std.specs.List.{flat_map};
ghost use Rattle.fs_app_io.specs.Paths.{is_absolute, folder_of, beside, path_of, paths_in};

use crate::lines::{lines_of, says};
use std::alloc::{AllocError, Global};

fn is_absolute(path: &str) -> bool
    ensures { result ≡ is_absolute path.now }
{
    match path.as_bytes().first() {
        Some(byte) => *byte == b'/',
        None => false,
    }
}

/// What stands before the last `/`.
fn folder_of(path: &str) -> Option<&str>
    ensures { option_map (λ folder. folder.now) result ≡ folder_of path.now }
{
    match path.rsplit_once('/') {
        Some((folder, _)) => Some(folder),
        None => None,
    }
}

/// The path that a list names, from the folder of the list on.
fn beside(alloc: Global, list: &str, path: &str) -> Result<String, AllocError>
    ensures { IfOk result (λ whole. string_bytes whole ≡ beside list.now path.now) }
{
    if is_absolute(path) {
        return String::from_str(alloc, path);
    }
    match folder_of(list) {
        Some(folder) => format!(in alloc; "{}/{}", folder, path),
        None => String::from_str(alloc, path),
    }
}

/// Appends the path of a line, where it names one.
fn push_path(
    alloc: Global,
    list: &str,
    line: &str,
    paths: &mut Vec<String>,
) -> Result<(), AllocError>
    ensures { OnOk result (map string_bytes paths.new.items
        ≡ map string_bytes paths.old.items ++ path_of list.now line.now) }
{
    let line = line.trim();
    if says(line) {
        paths.push(beside(alloc, list, line)?)?;
    }
    Ok(())
}

/// What the list of this name and text names: a path in each line, without blanks at its ends, from the folder of the
/// list on unless it begins with `/`. Empty lines, and those that begin with `#`, name nothing. Linear in the text, and
/// in the name for each line. The error is want of memory.
pub fn paths_in(alloc: Global, list: &str, text: &str) -> Result<Vec<String>, AllocError>
    ensures { IfOk result (λ paths. map string_bytes paths.items ≡ paths_in list.now text.now) }
{
    let lines = lines_of(alloc, text)?;
    paths_of(alloc, list, &lines)
}

/// What the lines name.
fn paths_of(alloc: Global, list: &str, lines: &[&str]) -> Result<Vec<String>, AllocError>
    ensures { IfOk result (λ paths. map string_bytes paths.items
        ≡ flat_map (path_of list.now) (map (λ line. line.now) lines.now)) }
{
    let mut paths = Vec::new(alloc);
    for line in lines {
        push_path(alloc, list, line, &mut paths)?;
    }
    Ok(paths)
}
