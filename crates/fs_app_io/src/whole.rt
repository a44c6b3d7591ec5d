//! Files that stand under their names whole or not at all.
use crate::limits::{room_in, write_within};
use fs_kinds::Fault;
use std::fs::{
    File, Metadata, OpenFile, OpenOptions, Permissions, remove_file, rename, symlink_metadata,
};
use std::io::{ErrorKind, Write};
use std::os::unix::fs::{OpenOptionsExt, PermissionsExt};
use std::rt::Files;

/// So many names are tried for a file beside another one.
const MOST_NAMES: u32 = 1000;

/// What stands under a name at which a file is to be written.
#[derive(Drop)]
enum Found {
    Nothing,
    /// A plain file.
    Plain(Metadata),
    /// A device, a pipe, a link, a folder; or it can't be told.
    Other,
}

/// A file that this run alone has made, and its name.
#[derive(Drop)]
struct Beside<F> {
    name: String,
    file: F,
}

/// Gives the file these bytes. Where the name is free, or a plain file's, they are written beside it, to a new file
/// that then takes the name, with the mode of the one before: so a run that is stopped, or a disk that is full, leaves
/// what was there, and of several runs each writes to a file of its own. A device, a pipe and a link are written as
/// they are, and so is a plain file where nothing can be made beside it. A `WriteFault` where the bytes can't be
/// written; or F19.
pub fn write_whole<R: Files + AllocGlobal>(rt: &R, path: &str, bytes: &[u8]) -> Result<(), Fault> {
    let found = look(rt, path);
    match make_beside(rt, path, &found)? {
        Some(beside) => write_beside(rt, beside, path, bytes),
        None => write_in_place(rt, path, bytes),
    }
}

fn look<R: Files>(rt: &R, path: &str) -> Found {
    match symlink_metadata(rt, path) {
        Ok(found) if found.is_file() => Found::Plain(found),
        Ok(_) => Found::Other,
        Err(error) if error.kind() == ErrorKind::NotFound => Found::Nothing,
        Err(_) => Found::Other,
    }
}

/// A new file beside the name, with the mode of what stands there: `PATH.part`, or where there is such a file
/// `PATH.1.part` and so on. What stands under one of these names is another run's, or somebody's, and stays. None where
/// none can be made.
fn make_beside<R: Files + AllocGlobal>(
    rt: &R,
    path: &str,
    found: &Found,
) -> Result<Option<Beside<R::File>>, Fault> {
    match found {
        Found::Nothing => create_beside(rt, path, None),
        Found::Plain(before) => create_beside(rt, path, Some(before.permissions())),
        Found::Other => Ok(None),
    }
}

fn create_beside<R: Files + AllocGlobal>(
    rt: &R,
    path: &str,
    permissions: Option<Permissions>,
) -> Result<Option<Beside<R::File>>, Fault> {
    let mut options = OpenOptions::new();
    options.write(true).create_new(true);
    if let Some(permissions) = &permissions {
        // from the first moment on nobody else may read it who may not in the end
        options.mode(permissions.mode());
    }
    for number in 0..MOST_NAMES {
        let name = name_beside(rt, path, number)?;
        match options.open(rt, name.as_str()) {
            Ok(file) => return Ok(with_mode(rt, Beside { name, file }, permissions)),
            Err(error) if error.kind() == ErrorKind::AlreadyExists => {}
            Err(_) => return Ok(None),
        }
    }
    Ok(None)
}

/// The file with this mode, where one is asked for. Where that fails it is removed.
fn with_mode<R: Files>(
    rt: &R,
    beside: Beside<R::File>,
    permissions: Option<Permissions>,
) -> Option<Beside<R::File>> {
    if let Some(permissions) = permissions {
        if beside.file.set_permissions(permissions).is_err() {
            let _ = remove_file(rt, beside.name.as_str());
            return None;
        }
    }
    Some(beside)
}

fn name_beside<R: AllocGlobal>(rt: &R, path: &str, number: u32) -> Result<String, Fault> {
    if number == 0 {
        return Ok(format!(in rt.alloc(); "{path}.part")?);
    }
    Ok(format!(in rt.alloc(); "{path}.{number}.part")?)
}

/// Writes the bytes to the file beside, and gives it the name. Where one of both fails the file beside is removed.
fn write_beside<R: Files>(
    rt: &R,
    beside: Beside<R::File>,
    path: &str,
    bytes: &[u8],
) -> Result<(), Fault> {
    let Beside { name, mut file } = beside;
    let written = write_in(rt, &mut file, bytes);
    if written.is_ok() && rename(rt, name.as_str(), path).is_ok() {
        return Ok(());
    }
    let _ = remove_file(rt, name.as_str());
    Err(Fault::WriteFault)
}

/// Makes the file, or empties it where it is there, and writes the bytes. Where that fails it may hold their beginning.
fn write_in_place<R: Files>(rt: &R, path: &str, bytes: &[u8]) -> Result<(), Fault> {
    match File::create(rt, path) {
        Ok(mut file) => write_in(rt, &mut file, bytes),
        Err(_) => Err(Fault::WriteFault),
    }
}

/// Writes the bytes to a file that is open and empty, or a device.
fn write_in<R: Files, F: Write + OpenFile>(
    rt: &R,
    file: &mut F,
    bytes: &[u8],
) -> Result<(), Fault> {
    match file.metadata() {
        Ok(found) => write_within(file, bytes, room_in(rt, &found)),
        Err(_) => Err(Fault::WriteFault),
    }
}
