//! The tests that FILE words name: files, those in folders, and those in lists.
use crate::bytes::read_bytes;
use crate::input::{INPUT_LIMIT, is_standard_input, read_file, read_input};
use crate::missing::Missing;
use crate::paths::paths_in;
use crate::unread::Unread;
use fs_kinds::Fault;
use std::alloc::{AllocError, Global};
use std::fs::{metadata, symlink_metadata};
use std::rt::Files;

/// So many folders and lists are looked into, one in the other.
const MOST_DEPTH: usize = 16;

/// So many files, folders and lists are looked at for each word.
const MOST_NAMES: usize = 1_000_000;

/// So many bytes lists, and names in folders, may have together for each word.
const MOST_BYTES: usize = 67_108_864;

/// A file; or a word that names none, and why.
#[derive(Drop)]
pub struct Source {
    pub name: String,
    missing: Option<Missing>,
}

impl Source {
    /// Its bytes.
    pub fn read<R: Files + Input + AllocGlobal>(&self, rt: &R) -> Result<Vec<u8>, Missing> {
        match self.missing {
            Some(why) => Err(why),
            None => read_input(rt, self.name.as_str()),
        }
    }
}

/// A name that wasn't looked at yet, and in how many folders and lists it stands.
#[derive(Drop)]
struct Pending {
    name: String,
    depth: usize,
}

/// What stands under a name. What isn't there counts as a file.
#[derive(Clone, Copy)]
enum Found {
    File,
    Folder,
    List,
}

/// The files that the words name, in the order of the words. A folder stands for its files `*.litmus` and its folders,
/// in the order of their bytes, without what begins with a point, and folders behind a link that isn't called
/// `*.litmus`. A list, a file whose own name begins with `@`, stands for what it names. What can't be read, a list or
/// folder that stands in 16 others or comes after 64 MiB of these, and the name after 1,000,000 have no bytes, and neither
/// has a word that names no file; why is kept. The error is F19.
pub fn sources<R: Files + AllocGlobal>(rt: &R, words: &[String]) -> Result<Vec<Source>, Fault> {
    let mut found = Vec::new(rt.alloc());
    for word in words {
        let before = found.len();
        look_through(rt, copied(rt.alloc(), word)?, &mut found)?;
        if found.len() == before {
            keep(&mut found, copied(rt.alloc(), word)?, Some(Missing::Empty))?;
        }
    }
    Ok(found)
}

fn copied(alloc: Global, word: &String) -> Result<String, AllocError> {
    String::from_str(alloc, word.as_str())
}

/// Appends the files that a word names.
fn look_through<R: Files + AllocGlobal>(
    rt: &R,
    word: String,
    found: &mut Vec<Source>,
) -> Result<(), Fault> {
    let mut pending = Vec::new(rt.alloc());
    pending.push(Pending {
        name: word,
        depth: 0,
    })?;
    let mut left = MOST_BYTES;
    for _ in 0..MOST_NAMES {
        let Some(next) = pending.pop() else {
            return Ok(());
        };
        match names_in(rt, &next, &mut left) {
            Ok(Some(names)) => push_names(&mut pending, names, next.depth.saturating_add(1))?,
            Ok(None) => keep(found, next.name, None)?,
            Err(Missing::Unread(Unread::NoMemory)) => return Err(Fault::Memory),
            Err(why) => keep(found, next.name, Some(why))?,
        }
    }
    if let Some(next) = pending.pop() {
        keep(found, next.name, Some(Missing::TooMany))?;
    }
    Ok(())
}

/// Appends the names so that the first is the next one.
fn push_names(
    pending: &mut Vec<Pending>,
    names: Vec<String>,
    depth: usize,
) -> Result<(), AllocError> {
    let mut names = names;
    for _ in 0..names.len() {
        if let Some(name) = names.pop() {
            pending.push(Pending { name, depth })?;
        }
    }
    Ok(())
}

fn keep(found: &mut Vec<Source>, name: String, missing: Option<Missing>) -> Result<(), AllocError> {
    found.push(Source { name, missing })?;
    Ok(())
}

/// What stands in the folder or the list, of which so many bytes are left to be read; nothing where it is a file.
fn names_in<R: Files + AllocGlobal>(
    rt: &R,
    next: &Pending,
    left: &mut usize,
) -> Result<Option<Vec<String>>, Missing> {
    let name = next.name.as_str();
    match found_at(rt, name) {
        Found::File => Ok(None),
        _ if next.depth >= MOST_DEPTH => Err(Missing::TooDeep),
        _ if *left == 0 => Err(Missing::TooMany),
        Found::Folder => Ok(Some(names_in_folder(rt, name, left)?)),
        Found::List => Ok(Some(names_in_list(rt, name, left)?)),
    }
}

fn found_at<R: Files>(rt: &R, name: &str) -> Found {
    if is_standard_input(name) {
        return Found::File;
    }
    match metadata(rt, name) {
        Ok(found) if found.is_dir() => Found::Folder,
        _ if own_name(name).starts_with('@') => Found::List,
        _ => Found::File,
    }
}

/// What stands behind the last `/` of a path.
fn own_name(path: &str) -> &str {
    match path.rsplit_once('/') {
        Some((_, name)) => name,
        None => path,
    }
}

/// The files `*.litmus` and the folders in a folder.
fn names_in_folder<R: Files + AllocGlobal>(
    rt: &R,
    folder: &str,
    left: &mut usize,
) -> Result<Vec<String>, Missing> {
    let folder = format!(in rt.alloc(); "{}/", folder.trim_end_matches('/'))?;
    let bytes = match rt.open_dir(folder.as_str()) {
        Ok(mut names) => read_bytes(rt.alloc(), &mut names, *left)?,
        Err(error) => return Err(Missing::Unread(Unread::of(error.kind()))),
    };
    *left = left.saturating_sub(bytes.len());
    let Ok(text) = str::from_utf8(&bytes) else {
        return Err(Missing::NotUtf8);
    };
    let mut paths = Vec::new(rt.alloc());
    for name in text.split('\0') {
        let path = format!(in rt.alloc(); "{}{}", folder.as_str(), name)?;
        if is_taken(rt, name, path.as_str()) {
            paths.push(path)?;
        }
    }
    paths.sort()?;
    Ok(paths)
}

/// Does a folder stand for what it has under this name and path?
fn is_taken<R: Files>(rt: &R, name: &str, path: &str) -> bool {
    if name.is_empty() || name.starts_with('.') {
        return false;
    }
    name.ends_with(".litmus") || is_folder(rt, path)
}

fn is_folder<R: Files>(rt: &R, path: &str) -> bool {
    match symlink_metadata(rt, path) {
        Ok(found) => found.is_dir(),
        Err(_) => false,
    }
}

/// What a list names: in each line a path, from the folder of the list on, but for blank lines and those that begin
/// with `#`.
fn names_in_list<R: Files + AllocGlobal>(
    rt: &R,
    list: &str,
    left: &mut usize,
) -> Result<Vec<String>, Missing> {
    let bytes = read_file(rt, list, INPUT_LIMIT.min(*left))?;
    *left = left.saturating_sub(bytes.len());
    let Ok(text) = str::from_utf8(&bytes) else {
        return Err(Missing::NotUtf8);
    };
    Ok(paths_in(rt.alloc(), list, text)?)
}
